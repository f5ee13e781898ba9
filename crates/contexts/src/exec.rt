//! Commands, each on a board on which it is legal.
ghost use Rattle.std.specs.Prelude.{◌≡◌, OnErr, IfOk, IfErr};
ghost use Rattle.mg_model.specs.Items.{IsLegal, IsExecuted};
ghost use Rattle.mg_model.specs.declared.items.Item.TheVariants as item;
ghost use Rattle.contexts.specs.BoardValue.{board_of};
ghost use Rattle.contexts.specs.Faults.{IsFault};
ghost use Rattle.contexts.specs.Steps.{created};

use crate::board::Board;
use crate::done::Done;
use crate::fault::ExecFault;
use mg_model::items::{Item, Settings};
use mg_names::identifiers::{ContextId, TermId};
use mg_names::topologies::Topology;
use std::alloc::{AllocError, Global};

/// What a command tells that takes nothing out of its context.
pub(crate) fn created(alloc: Global, context: Option<u32>, ephemeral: Option<u32>) -> Done
    ensures { result ≡ created context ephemeral }
{
    Done {
        context,
        ephemeral,
        lines: Vec::new(alloc),
        ephemerals: Vec::new(alloc),
    }
}

impl Board {
    /// Modify.
    pub(crate) fn exec_modify(&mut self, context: ContextId, t: TermId, settings: &Settings) -> Done
        requires { IsLegal (board_of self.old) (item.Modify context t settings.now) }
        ensures { IsExecuted (board_of self.old) (item.Modify context t settings.now) (board_of self.new) result }
    {
        self.modify(t, settings);
        created(self.alloc, None, None)
    }

    /// Move.
    pub(crate) fn exec_move(
        &mut self,
        context: ContextId,
        t: TermId,
        settings: &Settings,
    ) -> Result<Done, AllocError>
        requires { IsLegal (board_of self.old) (item.Move context t settings.now) }
        ensures ok { IfOk result (IsExecuted (board_of self.old) (item.Move context t settings.now) (board_of self.new)) }
        ensures err { OnErr result (board_of self.new ≡ board_of self.old) }
    {
        let alloc = self.alloc;
        let from = self.place_of(t);
        let Ok(_) = self.move_to(from, context, t, settings) else {
            return Err(AllocError);
        };
        Ok(created(alloc, None, None))
    }

    /// A Topology descriptor.
    pub(crate) fn exec_topology(
        &mut self,
        context: ContextId,
        t: TermId,
        u: TermId,
        topology: Topology,
    ) -> Result<Done, AllocError>
        requires { IsLegal (board_of self.old) (item.SetTopology context t u topology) }
        ensures ok { IfOk result (IsExecuted (board_of self.old) (item.SetTopology context t u topology) (board_of self.new)) }
        ensures err { OnErr result (board_of self.new ≡ board_of self.old) }
    {
        let Ok(_) = self.set_topology(context.0, t, u, topology) else {
            return Err(AllocError);
        };
        Ok(created(self.alloc, None, None))
    }
}

impl Board {
    /// Carries out a command that is known to be legal, so no code is asked for. Where memory runs out the board is as it was.
    pub fn carry_out(&mut self, item: &Item) -> Result<Done, AllocError>
        requires { IsLegal (board_of self.old) item.now }
        ensures ok { IfOk result (IsExecuted (board_of self.old) item.now (board_of self.new)) }
        ensures err { OnErr result (board_of self.new ≡ board_of self.old) }
    {
        match *item {
            Item::Add {
                context,
                added,
                settings,
            } => self.exec_add(context, &added, &settings),
            Item::Modify {
                context,
                termination,
                settings,
            } => Ok(self.exec_modify(context, termination, &settings)),
            Item::Move {
                context,
                termination,
                settings,
            } => self.exec_move(context, termination, &settings),
            Item::Subtract {
                context,
                termination,
            } => self.exec_subtract(context, termination),
            Item::SubtractAll { context } => self.exec_subtract_all(context),
            Item::SetTopology {
                context,
                first,
                second,
                topology,
            } => self.exec_topology(context, first, second, topology),
        }
    }

    /// Executes a command (H.248.1 section 7.2), or refuses it with the first code that applies, in the order 411, 430, 433, 435,
    /// 510 (this profile's own); 510 comes only where no number is left. A command that is not executed leaves the board as it was.
    pub fn exec(&mut self, item: &Item) -> Result<Done, ExecFault>
        ensures executed { IfOk result (IsExecuted (board_of self.old) item.now (board_of self.new)) }
        ensures refused { IfErr result (IsFault (board_of self.old) item.now) }
        ensures unchanged { OnErr result (board_of self.new ≡ board_of self.old) }
    {
        if let Some(code) = self.refusal(item) {
            return Err(ExecFault::Code(code));
        }
        let Ok(done) = self.carry_out(item) else {
            return Err(ExecFault::NoMemory);
        };
        Ok(done)
    }
}
