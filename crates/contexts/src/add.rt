//! Add (H.248.1 section 7.2.1).
ghost use Rattle.std.specs.Prelude.{◌≡◌, ◌≢◌, true, OnOk, OnErr, IfOk};
ghost use Rattle.mg_model.specs.Numbers.{null};
ghost use Rattle.mg_model.specs.Board.{place_of, exists};
ghost use Rattle.mg_model.specs.Items.{placed};
ghost use Rattle.terminations.specs.Rows.{fits};
ghost use Rattle.contexts.specs.BoardValue.{board_of, CanEnter};
ghost use Rattle.contexts.specs.Steps.{IsEntered, entered};

use crate::board::Board;
use crate::{members, rows};
use mg_model::items::Settings;
use mg_names::identifiers::{ContextId, TermId};
use std::alloc::AllocError;

impl Board {
    /// Puts a termination of the null context into another one.
    pub(crate) fn enter(
        &mut self,
        context: ContextId,
        t: TermId,
        settings: &Settings,
    ) -> Result<(), AllocError>
        requires exists { exists (board_of self.old) t ≡ true }
        requires free { place_of (board_of self.old) t ≡ null }
        requires to_context { context.0 ≢ 0 }
        requires can_enter { CanEnter self.old context.0 }
        requires fits { fits t settings.now.remote ≡ true }
        ensures ok { OnOk result (board_of self.new ≡ placed (entered (board_of self.old) context.0) t context.0 settings.now) }
        ensures err { OnErr result (board_of self.new ≡ board_of self.old) }
    {
        let Ok(_) = members::enter(&mut self.members, self.alloc, context.0, t) else {
            return Err(AllocError);
        };
        rows::place(&mut self.terms, t, context, settings);
        Ok(())
    }
}

impl Board {
    /// Creates an ephemeral in a context.
    pub(crate) fn enter_new(
        &mut self,
        context: ContextId,
        settings: &Settings,
    ) -> Result<u32, AllocError>
        requires to_context { context.0 ≢ 0 }
        requires can_enter { CanEnter self.old context.0 }
        ensures ok { IfOk result (λ number. IsEntered (entered (board_of self.old) context.0) (board_of self.new) context.0 settings.now number) }
        ensures err { OnErr result (board_of self.new ≡ board_of self.old) }
    {
        let Ok(TermId::Eph(number)) = self.terms.create() else {
            return Err(AllocError);
        };
        let t = TermId::Eph(number);
        let Ok(_) = members::enter(&mut self.members, self.alloc, context.0, t) else {
            self.terms.withdraw(number);
            return Err(AllocError);
        };
        rows::place(&mut self.terms, t, context, settings);
        Ok(number)
    }
}
