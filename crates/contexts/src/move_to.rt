//! Move (H.248.1 section 7.2.4).
ghost use Rattle.std.specs.Prelude.{◌≡◌, ◌≢◌, true, OnOk, OnErr};
ghost use Rattle.mg_model.specs.Board.{ContextExists, same_term, place_of, exists};
ghost use Rattle.mg_model.specs.Items.{placed, without_cuts};
ghost use Rattle.terminations.specs.Rows.{fits};
ghost use Rattle.contexts.specs.BoardValue.{board_of};

use crate::board::Board;
use crate::{cuts, members, rows};
use mg_model::items::Settings;
use mg_names::identifiers::{ContextId, TermId};
use std::alloc::AllocError;

impl Board {
    /// Moves a termination from its context to another one.
    pub(crate) fn move_to(
        &mut self,
        from: u32,
        context: ContextId,
        t: TermId,
        settings: &Settings,
    ) -> Result<(), AllocError>
        requires exists { exists (board_of self.old) t ≡ true }
        requires stands { place_of (board_of self.old) t ≡ from }
        requires other { from ≢ context.0 }
        requires not_null { from ≢ 0 }
        requires to_context { context.0 ≢ 0 }
        requires can_enter { ContextExists (board_of self.old) context.0 }
        requires fits { fits t settings.now.remote ≡ true }
        ensures ok { OnOk result (board_of self.new ≡ placed (record (board_of self.old) { cut = without_cuts (same_term t) (board_of self.old).cut }) t context.0 settings.now) }
        ensures err { OnErr result (board_of self.new ≡ board_of self.old) }
    {
        let Ok(_) = members::enter(&mut self.members, self.alloc, context.0, t) else {
            return Err(AllocError);
        };
        members::leave(&mut self.members, self.alloc, from, t);
        cuts::forget(&mut self.cuts, from, t);
        rows::place(&mut self.terms, t, context, settings);
        Ok(())
    }
}
