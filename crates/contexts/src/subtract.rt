//! Subtract of one termination (H.248.1 section 7.2.3).
ghost use Rattle.std.specs.Prelude.{◌≡◌, ℕ, true, IsTrue, is_some};
ghost use Rattle.mg_model.specs.Board.{same_term, place_of, exists};
ghost use Rattle.mg_model.specs.Items.{without};
ghost use Rattle.contexts.specs.BoardValue.{board_of};

use crate::board::Board;
use crate::{cuts, members, rows};
use mg_names::identifiers::TermId;

impl Board {
    /// Takes a termination out of its context for good.
    pub(crate) fn subtract(&mut self, context: u32, t: TermId)
        requires exists { exists (board_of self.old) t ≡ true }
        requires stands { place_of (board_of self.old) t ≡ context }
        ensures { board_of self.new ≡ without (board_of self.old) (λ u. same_term u t) }
    {
        members::leave(&mut self.members, self.alloc, context, t);
        cuts::forget(&mut self.cuts, context, t);
        rows::release(&mut self.terms, t);
    }
}
