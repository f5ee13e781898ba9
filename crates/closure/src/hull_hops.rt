//! Which ways media may take between lines in the whole hull of a few configurations: by hops and crossings of which each part is what one of
//! these has. So lines aren't taken for joined where they have no context together, and no crossing leads from the one's to the other's.
ghost use Rattle.std.specs.Prelude.{◌≡◌, false, map};
ghost use Rattle.mg_model.specs.Configuration.{Configuration};
ghost use Rattle.mg_model.specs.Paths.{HasPath};
ghost use Rattle.configuration.specs.Config.{configuration_of};

use crate::hull::Hull;
use crate::hull_seen::{Seen, may_pass, names_of, seen_of};
use configuration::spots::is_same;
use mg_model::commands::Termination;
use mg_names::slots::Slot;
use std::marker::Model;

/// Some configurations, with what the terminations may be in their hull, looked up once for all pairs of lines.
#[derive(Drop)]
pub(crate) struct HullHops<'m> {
    hull: &'m Hull,
    lines: [Seen; 4],
    ephemerals: [Seen; 4],
    /// Of each ephemeral, which its Remote may name.
    names: [[bool; 4]; 4],
}

impl<'m> Model for HullHops<'m> {
    ghost use Rattle.std.specs.Prelude.{List};
    ghost use Rattle.configuration.specs.Packed.{Words};
    ghost use Rattle.closure.specs.Hops.{AreSeen};

    ghost Value = { List Words };

    ghost view = { λ h. h.hull.now };

    ghost invariant = { λ h. AreSeen h.hull.now h.lines h.ephemerals h.names };
}

impl<'m> HullHops<'m> {
    ghost use Rattle.closure.specs.Hops.{is_closed, may_arrive, may_cross, may_hop, may_hop_on, may_name, may_reach, may_share, may_stand, seen_of};
    ghost use Rattle.closure.specs.Hulls.{IsInHull};

    /// Those of some configurations.
    pub(crate) fn of(hull: &'m Hull) -> HullHops<'m>
        ensures { result ≡ hull.now }
    {
        let [first, second, third, fourth] = Slot::all();
        let lines = [
            seen_of(hull, &Termination::Line(first)),
            seen_of(hull, &Termination::Line(second)),
            seen_of(hull, &Termination::Line(third)),
            seen_of(hull, &Termination::Line(fourth)),
        ];
        let ephemerals = [
            seen_of(hull, &Termination::Ephemeral(first)),
            seen_of(hull, &Termination::Ephemeral(second)),
            seen_of(hull, &Termination::Ephemeral(third)),
            seen_of(hull, &Termination::Ephemeral(fourth)),
        ];
        let names = [
            names_of(hull, first),
            names_of(hull, second),
            names_of(hull, third),
            names_of(hull, fourth),
        ];
        HullHops {
            hull,
            lines,
            ephemerals,
            names,
        }
    }

    /// What a termination may be.
    fn seen_of(&self, termination: &Termination) -> Seen
        ensures { result ≡ seen_of self.now termination.now }
    {
        match *termination {
            Termination::Line(line) => self.lines[line.index()],
            Termination::Ephemeral(ephemeral) => self.ephemerals[ephemeral.index()],
        }
    }

    /// Whether a termination may stand in a context.
    fn may_stand(&self, termination: &Termination, context: Slot) -> bool
        ensures { result ≡ may_stand self.now termination.now context }
    {
        self.seen_of(termination).contexts[context.index()]
    }

    /// Whether the Remote of an ephemeral may name another.
    fn may_name(&self, ephemeral: Slot, other: Slot) -> bool
        ensures { result ≡ may_name self.now ephemeral other }
    {
        self.names[ephemeral.index()][other.index()]
    }

    /// Whether two terminations may stand in one context.
    #[tactic(auto, unfolding(crate::specs::Hops::may_share))]
    fn may_share(&self, one: &Termination, other: &Termination) -> bool
        ensures { result ≡ may_share self.now one.now other.now }
    {
        Slot::all().iter().any(|context| self.may_stand(one, *context)
            && self.may_stand(other, *context))
    }

    /// Whether media may hop from one termination to another.
    #[tactic(auto, unfolding(crate::specs::Hops::may_hop, crate::specs::Hops::seen_of))]
    fn may_hop(&self, source: &Termination, sink: &Termination) -> bool
        ensures { result ≡ may_hop self.now source.now sink.now }
    {
        if is_same(source, sink) {
            return false;
        }
        if !self.seen_of(source).comes_in {
            return false;
        }
        if !self.seen_of(sink).goes_out {
            return false;
        }
        if !self.may_share(source, sink) {
            return false;
        }
        may_pass(self.hull, source, sink)
    }

    /// Whether media may cross from one ephemeral to another.
    #[tactic(auto, unfolding(crate::specs::Hops::may_cross))]
    fn may_cross(&self, ephemeral: Slot, other: Slot) -> bool
        ensures { result ≡ may_cross self.now ephemeral other }
    {
        if ephemeral.index() == other.index() {
            return false;
        }
        if !self.may_name(ephemeral, other) {
            return false;
        }
        self.may_name(other, ephemeral)
    }

    /// Whether media may hop to a termination from an ephemeral that it may have crossed to.
    #[tactic(auto, unfolding(crate::specs::Hops::may_hop_on))]
    fn may_hop_on(&self, arrived: &[bool; 4], sink: &Termination) -> bool
        ensures { result ≡ may_hop_on self.now arrived.now sink.now }
    {
        Slot::all().iter().any(|ephemeral| {
            arrived[ephemeral.index()] && self.may_hop(&Termination::Ephemeral(*ephemeral), sink)
        })
    }

    /// Whether media from a line may hop to a termination, from there or from an ephemeral that it may have crossed to.
    #[tactic(auto, unfolding(crate::specs::Hops::may_reach))]
    fn may_reach(&self, from: Slot, arrived: &[bool; 4], sink: &Termination) -> bool
        ensures { result ≡ may_reach self.now from arrived.now sink.now }
    {
        if self.may_hop(&Termination::Line(from), sink) {
            return true;
        }
        self.may_hop_on(arrived, sink)
    }

    /// Whether it may cross to an ephemeral from one that it may have hopped to.
    #[tactic(auto, unfolding(crate::specs::Hops::may_arrive))]
    fn may_arrive(&self, from: Slot, arrived: &[bool; 4], ephemeral: Slot) -> bool
        ensures { result ≡ may_arrive self.now from arrived.now ephemeral }
    {
        Slot::all().iter().any(|source| {
            self.may_cross(*source, ephemeral)
                && self.may_reach(from, arrived, &Termination::Ephemeral(*source))
        })
    }

    /// Where it may cross to, of each ephemeral.
    fn next(&self, from: Slot, arrived: &[bool; 4]) -> [bool; 4] {
        let [first, second, third, fourth] = Slot::all();
        [
            self.may_arrive(from, arrived, first),
            self.may_arrive(from, arrived, second),
            self.may_arrive(from, arrived, third),
            self.may_arrive(from, arrived, fourth),
        ]
    }

    /// Whether it may cross to none but those that it may have crossed to.
    #[tactic(auto, unfolding(crate::specs::Hops::is_closed))]
    fn is_closed(&self, from: Slot, arrived: &[bool; 4]) -> bool
        ensures { result ≡ is_closed self.now from arrived.now }
    {
        Slot::all().iter().all(|ephemeral| {
            arrived[ephemeral.index()] || !self.may_arrive(from, arrived, *ephemeral)
        })
    }

    /// Whether media may go from one line to another. In four turns it has crossed to whichever of four ephemerals it may; of a set that isn't closed nothing
    /// would be known.
    pub(crate) fn may_go(&self, from: Slot, to: Slot) -> bool
        ensures { result ≡ false → (c : Configuration) → IsInHull (map configuration_of self.now) c → HasPath c from to → ⊥ }
    {
        let first = self.next(from, &[false; 4]);
        let second = self.next(from, &first);
        let third = self.next(from, &second);
        let arrived = self.next(from, &third);
        if !self.is_closed(from, &arrived) {
            return true;
        }
        self.may_reach(from, &arrived, &Termination::Line(to))
    }
}
