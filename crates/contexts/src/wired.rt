//! What a board answers of media: its wiring is asked.
ghost use Rattle.std.specs.Prelude.{◌≡◌, IsTrue, ◌↔◌};
ghost use Rattle.mg_model.specs.Media.{HasPath, AreJoined};
ghost use Rattle.contexts.specs.BoardValue.{board_of};

use crate::board::Board;
use crate::wiring::Wiring;
use mg_names::identifiers::{LineNo, TermId};

impl Board {
    /// The tables over which media goes.
    fn wiring(&self) -> Wiring<'_>
        ensures { result ≡ self.now }
    {
        Wiring::new(&self.terms, &self.members, &self.cuts)
    }

    /// Whether media from the one termination to the other is cut.
    pub fn is_cut(&self, from: TermId, to: TermId) -> bool
        ensures { result ≡ (board_of self.now).cut from to }
    {
        self.wiring().is_cut(from, to)
    }

    /// Whether there is a path of media from the one line to another line. Where media from the first line arrives at F ephemerals,
    /// 4,096 at most, in contexts with at most G members and C cuts, the search takes at most (F + 1) * (G + 1) looks at a hop, each
    /// through at most C cuts, and as many looks through at most F numbers; it needs no deep stack. Where media may arrive at more
    /// ephemerals, each way may have to be followed by itself, in exponential time and with a stack as deep as the longest way.
    pub fn path(&self, from: LineNo, to: LineNo) -> bool
        ensures { IsTrue result ↔ HasPath (board_of self.now) from.0 to.0 }
    {
        self.wiring().path(from, to)
    }

    /// Whether two different lines are joined: there is a path of media from one to the other, either way. It costs what two calls
    /// of `path` cost.
    pub fn joined(&self, one: LineNo, other: LineNo) -> bool
        ensures { IsTrue result ↔ AreJoined (board_of self.now) one.0 other.0 }
    {
        self.wiring().joined(one, other)
    }
}
