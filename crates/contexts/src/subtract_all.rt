//! Subtract of all terminations of a context (H.248.1 section 7.2.3).
ghost use Rattle.std.specs.Prelude.{◌≡◌, ◌≢◌, ◌==◌, if◌then◌else◌};
ghost use Rattle.std.specs.List.{list_any};
ghost use Rattle.mg_names.specs.declared.identifiers.TermId.{TermId};
ghost use Rattle.mg_model.specs.Board.{same_term, place_of};
ghost use Rattle.mg_model.specs.Items.{without};
ghost use Rattle.terminations.specs.Table.{row_of, SameNumbers, cleared};
ghost use Rattle.contexts.specs.BoardValue.{board_of};

use crate::board::Board;
use crate::{cuts, members, rows};
use mg_names::identifiers::TermId;
use terminations::Terms;

/// Takes terminations out of their context for good.
fn release_all(terms: &mut Terms, group: &[TermId])
    ensures rows { (u : TermId) → row_of terms.new u ≡ (if list_any (same_term u) group.now then cleared u (row_of terms.old u) else row_of terms.old u) }
    ensures numbers { SameNumbers terms.old terms.new }
{
    for t in group {
        rows::release(terms, *t);
    }
}

impl Board {
    /// Takes all terminations out of a context for good.
    pub(crate) fn subtract_all(&mut self, context: u32)
        requires { context ≢ 0 }
        ensures { board_of self.new ≡ without (board_of self.old) (λ u. place_of (board_of self.old) u == context) }
    {
        release_all(&mut self.terms, members::of_context(&self.members, context));
        members::clear(&mut self.members, context);
        cuts::clear(&mut self.cuts, context);
    }
}
