//! How media goes within a context, and from one context to another.
ghost use Rattle.std.specs.Prelude.{◌≡◌};
ghost use Rattle.mg_names.specs.declared.identifiers.TermId.TheVariants.{Eph};
ghost use Rattle.mg_model.specs.Board.{mode_of, remote_of};
ghost use Rattle.mg_model.specs.Media.{receives, sends, share_context, hops, is_number, crosses};
ghost use Rattle.contexts.specs.TiedBoard.{board_of};

use crate::same::is_same;
use crate::wiring::Wiring;
use mg_names::identifiers::TermId;
use mg_names::modes::Mode;

/// Whether a termination of this mode receives media from outside for its context (H.248.1 section 7.1.7).
fn receives(mode: Mode) -> bool
    ensures { result ≡ receives mode }
{
    match mode {
        Mode::ReceiveOnly | Mode::SendReceive => true,
        Mode::Inactive | Mode::SendOnly => false,
    }
}

/// Whether a termination of this mode sends media of its context to the outside.
fn sends(mode: Mode) -> bool
    ensures { result ≡ sends mode }
{
    match mode {
        Mode::SendOnly | Mode::SendReceive => true,
        Mode::Inactive | Mode::ReceiveOnly => false,
    }
}

impl Wiring<'_> {
    /// The mode of a termination; Inactive where it doesn't exist.
    #[tactic(auto, unfolding(crate::specs::TiedBoard::board_of))]
    fn mode_of(&self, t: TermId) -> Mode
        ensures { result ≡ mode_of (board_of self.now) t }
    {
        match self.get(t) {
            Some(row) => row.mode,
            None => Mode::Inactive,
        }
    }

    /// The number of the ephemeral that the Remote of a termination names.
    #[tactic(auto, unfolding(crate::specs::TiedBoard::board_of))]
    pub(crate) fn remote_of(&self, t: TermId) -> Option<u32>
        ensures { result ≡ remote_of (board_of self.now) t }
    {
        match self.get(t) {
            Some(row) => row.remote,
            None => None,
        }
    }

    /// Whether two terminations stand in one context that isn't the null context.
    fn share_context(&self, t: &TermId, u: &TermId) -> bool
        ensures { result ≡ share_context (board_of self.now) t.now u.now }
    {
        let here = self.place_of(*t);
        let there = self.place_of(*u);
        here != 0 && here == there
    }

    /// Whether media goes from one termination to another of its context.
    pub(crate) fn hops(&self, source: &TermId, sink: &TermId) -> bool
        ensures { result ≡ hops (board_of self.now) source.now sink.now }
    {
        let apart = !is_same(source, sink);
        let shared = self.share_context(source, sink);
        let inward = receives(self.mode_of(*source));
        let outward = sends(self.mode_of(*sink));
        let open = !self.is_cut(*source, *sink);
        apart && shared && inward && outward && open
    }

    /// Whether the Remote of an ephemeral names another one.
    fn names(&self, one: u32, other: u32) -> bool
        ensures { result ≡ is_number (remote_of (board_of self.now) (Eph one)) other }
    {
        match self.remote_of(TermId::Eph(one)) {
            Some(number) => number == other,
            None => false,
        }
    }

    /// Whether media crosses between two ephemerals.
    pub(crate) fn crosses(&self, one: u32, other: u32) -> bool
        ensures { result ≡ crosses (board_of self.now) one other }
    {
        one != other
            && self.exists(TermId::Eph(one))
            && self.exists(TermId::Eph(other))
            && self.names(one, other)
            && self.names(other, one)
    }
}
