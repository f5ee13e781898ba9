//! Add on a board on which it is legal.
ghost use Rattle.std.specs.Prelude.{◌≡◌, ◌≢◌, OnErr, IfOk};
ghost use Rattle.mg_model.specs.Numbers.{choose};
ghost use Rattle.mg_model.specs.Items.{IsLegal, IsExecuted};
ghost use Rattle.mg_model.specs.declared.items.Item.TheVariants as item;
ghost use Rattle.contexts.specs.BoardValue.{board_of, CanEnter};
ghost use Rattle.contexts.specs.Steps.{IsAdded, CanBeAdded, entered};

use crate::board::Board;
use crate::done::Done;
use crate::exec::created;
use mg_model::items::{Added, Settings};
use mg_names::identifiers::{ContextId, TermId};
use std::alloc::AllocError;

impl Board {
    /// Adds to a context. What is answered is the number of the ephemeral that was created.
    fn add_to(
        &mut self,
        context: ContextId,
        added: &Added,
        settings: &Settings,
    ) -> Result<Option<u32>, AllocError>
        requires to_context { context.0 ≢ 0 }
        requires can_enter { CanEnter self.old context.0 }
        requires can { CanBeAdded (board_of self.old) added.now settings.now }
        ensures ok { IfOk result (IsAdded (entered (board_of self.old) context.0) (board_of self.new) context.0 added.now settings.now) }
        ensures err { OnErr result (board_of self.new ≡ board_of self.old) }
    {
        match *added {
            Added::Line(line) => {
                let Ok(_) = self.enter(context, TermId::Line(line), settings) else {
                    return Err(AllocError);
                };
                Ok(None)
            }
            Added::NewEphemeral => {
                let Ok(number) = self.enter_new(context, settings) else {
                    return Err(AllocError);
                };
                Ok(Some(number))
            }
        }
    }

    /// Add to a context that exists.
    pub(crate) fn exec_add_to(
        &mut self,
        context: ContextId,
        added: &Added,
        settings: &Settings,
    ) -> Result<Done, AllocError>
        requires legal { IsLegal (board_of self.old) (item.Add context added.now settings.now) }
        requires named { context.0 ≢ choose }
        ensures ok { IfOk result (IsExecuted (board_of self.old) (item.Add context added.now settings.now) (board_of self.new)) }
        ensures err { OnErr result (board_of self.new ≡ board_of self.old) }
    {
        let alloc = self.alloc;
        let Ok(number) = self.add_to(context, added, settings) else {
            return Err(AllocError);
        };
        Ok(created(alloc, None, number))
    }

    /// Add to a new context.
    pub(crate) fn exec_add_new(
        &mut self,
        context: ContextId,
        added: &Added,
        settings: &Settings,
    ) -> Result<Done, AllocError>
        requires legal { IsLegal (board_of self.old) (item.Add context added.now settings.now) }
        requires chooses { context.0 ≡ choose }
        ensures ok { IfOk result (IsExecuted (board_of self.old) (item.Add context added.now settings.now) (board_of self.new)) }
        ensures err { OnErr result (board_of self.new ≡ board_of self.old) }
    {
        let Ok(target) = self.members.next() else {
            return Err(AllocError);
        };
        let Ok(number) = self.add_to(ContextId(target), added, settings) else {
            return Err(AllocError);
        };
        Ok(created(self.alloc, Some(target), number))
    }
}

impl Board {
    /// Add.
    pub(crate) fn exec_add(
        &mut self,
        context: ContextId,
        added: &Added,
        settings: &Settings,
    ) -> Result<Done, AllocError>
        requires { IsLegal (board_of self.old) (item.Add context added.now settings.now) }
        ensures ok { IfOk result (IsExecuted (board_of self.old) (item.Add context added.now settings.now) (board_of self.new)) }
        ensures err { OnErr result (board_of self.new ≡ board_of self.old) }
    {
        if context == ContextId::CHOOSE {
            return self.exec_add_new(context, added, settings);
        }
        self.exec_add_to(context, added, settings)
    }
}
