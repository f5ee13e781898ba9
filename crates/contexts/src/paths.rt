//! Paths of media. The search that notes what it finds (`reaches`) answers, or else the search by trails (`leads`), which goes
//! on from each ephemeral that it arrives at and never arrives at one again that is on its trail.
ghost use Rattle.std.specs.Prelude.{◌≡◌, IsTrue, ◌↔◌, []};
ghost use Rattle.mg_names.specs.declared.identifiers.TermId.TheVariants.{Eph};
ghost use Rattle.mg_model.specs.Board.{remote_of};
ghost use Rattle.mg_model.specs.Media.{HasPath, AreJoined};
ghost use Rattle.contexts.specs.Paths.{arrived, is_trail, arrival, crossed, Leads};
ghost use Rattle.contexts.specs.TiedBoard.{board_of};

use crate::members;
use crate::trail::Trail;
use crate::wiring::Wiring;
use mg_names::identifiers::{LineNo, TermId};

impl Wiring<'_> {
    /// Where media crosses from an ephemeral, if it has not arrived there before.
    fn crossed(&self, ephemeral: u32, trail: &Trail<'_>) -> Option<u32>
        ensures { result ≡ crossed (board_of self.now) (arrived trail.now) ephemeral (remote_of (board_of self.now) (Eph ephemeral)) }
    {
        let next = self.remote_of(TermId::Eph(ephemeral))?;
        if self.crosses(ephemeral, next) && !trail.has(next) {
            Some(next)
        } else {
            None
        }
    }

    /// Where media arrives next by way of a termination.
    pub(crate) fn arrival(&self, from: &TermId, t: &TermId, trail: &Trail<'_>) -> Option<u32>
        ensures { result ≡ arrival (board_of self.now) (arrived trail.now) from.now t.now }
    {
        let TermId::Eph(ephemeral) = *t else {
            return None;
        };
        if !self.hops(from, t) {
            return None;
        }
        self.crossed(ephemeral, trail)
    }

    /// Whether media goes from the one termination to the other without arriving at an ephemeral of the trail.
    fn leads(&self, from: &TermId, to: &TermId, trail: &Trail<'_>) -> bool
        requires { IsTrue (is_trail (board_of self.now) (arrived trail.now)) }
        ensures { IsTrue result ↔ Leads (board_of self.now) (arrived trail.now) from.now to.now }
    {
        if self.hops(from, to) {
            return true;
        }
        for t in members::of_context(self.members, self.place_of(*from)) {
            if let Some(next) = self.arrival(from, t, trail) {
                if self.leads(&TermId::Eph(next), to, &Trail::After(next, &*trail)) {
                    return true;
                }
            }
        }
        false
    }

    /// Whether media goes from the one termination to the other.
    fn goes(&self, from: &TermId, to: &TermId) -> bool
        ensures { IsTrue result ↔ Leads (board_of self.now) [] from.now to.now }
    {
        match self.reaches(from, to) {
            Some(answer) => answer,
            None => self.leads(from, to, &Trail::Start),
        }
    }

    /// Whether there is a path of media from the one line to another line. Where media from the first line arrives at F ephemerals,
    /// 4,096 at most, in contexts with at most G members and C cuts, the search takes at most (F + 1) * (G + 1) looks at a hop, each
    /// through at most C cuts, and as many looks through at most F numbers; it needs no deep stack. Where media may arrive at more
    /// ephemerals, each way may have to be followed by itself, in exponential time and with a stack as deep as the longest way.
    pub fn path(&self, from: LineNo, to: LineNo) -> bool
        ensures { IsTrue result ↔ HasPath (board_of self.now) from.0 to.0 }
    {
        if from.0 == to.0 {
            return false;
        }
        self.goes(&TermId::Line(from), &TermId::Line(to))
    }

    /// Whether two different lines are joined: there is a path of media from one to the other, either way. It costs what two calls
    /// of `path` cost.
    pub fn joined(&self, one: LineNo, other: LineNo) -> bool
        ensures { IsTrue result ↔ AreJoined (board_of self.now) one.0 other.0 }
    {
        self.path(one, other) || self.path(other, one)
    }
}
