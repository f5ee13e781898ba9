//! A shard: a gateway with the calls that are open on it, all that they sent each other, and the history that led there.
ghost use Rattle.std.specs.Prelude.{◌≡◌, ◌+◌, ◌<◌, IfOk, OnOk, length, vec_len, vec_capacity};
ghost use Rattle.shards.specs.Shards.{IsRestarting, is_part_of, part_of};

use crate::call_table::CallTable;
use crate::fault::RestartFault;
use crate::opened::OpenedCall;
use gateway::Gateway;
use mg_model::events::Event;
use mg_names::identifiers::{Assoc, CallNo};
use script_table::Script;
use std::alloc::{AllocError, Global};
use std::marker::Model;

/// A gateway of a class of identifiers with calls of a script. Its history is what happened to it since its opening, the latest last. This
/// profile's own.
#[derive(Drop)]
pub struct Shard<'s> {
    pub(crate) alloc: Global,
    pub(crate) script: &'s Script,
    pub(crate) first: u32,
    pub(crate) stride: u32,
    pub(crate) calls: Vec<OpenedCall>,
    pub(crate) gateway: Gateway,
    pub(crate) call_table: CallTable,
    pub(crate) history: Vec<Event>,
}

impl<'s> Model for Shard<'s> {
    ghost use Rattle.shards.specs.Shards.{ShardValue, IsShard};

    ghost Value = { ShardValue };

    ghost view = { λ s. record { script = s.script.now; first = s.first; stride = s.stride; calls = s.calls.items; gateway = s.gateway; call_table = s.call_table.entries; history = s.history.items } };

    ghost invariant = { λ s. IsShard (record { script = s.script.now; first = s.first; stride = s.stride; calls = s.calls.items; gateway = s.gateway; call_table = s.call_table.entries; history = s.history.items }) };
}

/// Makes room for one event more.
pub(crate) fn room(history: &mut Vec<Event>) -> Result<(), AllocError>
    ensures items { history.new.items ≡ history.old.items }
    ensures room { OnOk result (vec_len history.new < vec_capacity history.new) }
    ensures few { length history.old.items + 1 < 18446744073709551616 }
{
    history.reserve(1)
}

/// Whether an event is one of a call, or a restart.
fn belongs(event: &Event, call: CallNo) -> bool
    ensures { result ≡ is_part_of call.0 event.now }
{
    match *event {
        Event::OfCall { call: of, .. } => of == call,
        Event::Restart => true,
    }
}

impl<'s> Shard<'s> {
    /// What happened, the latest last.
    pub fn history(&self) -> &[Event]
        ensures { result.now ≡ self.now.history }
    {
        self.history.as_slice()
    }

    /// What happened, the latest last. All else that the shard holds is let go.
    pub fn into_history(self) -> Vec<Event>
        ensures { result.items ≡ self.entry.history }
    {
        let Shard { history, .. } = self;
        history
    }

    /// The script of its calls.
    pub fn script(&self) -> &'s Script
        ensures { result.now ≡ self.now.script }
    {
        self.script
    }

    /// The association, from 1.
    pub fn association(&self) -> Assoc
        ensures { result.0 ≡ self.now.gateway.association }
    {
        self.gateway.association()
    }

    /// The events of a call and the restarts, the latest last. `AllocError` where memory ran out.
    pub fn part(&self, call: CallNo) -> Result<Vec<Event>, AllocError>
        ensures { IfOk result (λ part. part.items ≡ part_of call.0 self.now.history) }
    {
        let mut part = Vec::new(self.alloc);
        for event in self.history.as_slice() {
            if belongs(event, call) {
                part.push(*event)?;
            }
        }
        Ok(part)
    }

    /// The gateway restarts (H.248.1 section 11.2 on ServiceChange with the method Restart; a forced loss, this profile's own), and the
    /// next association begins. `CannotHappen` at the last association, and `NoMemory` where memory ran out.
    pub fn restart(&mut self) -> Result<Assoc, RestartFault>
        ensures { IsRestarting self.old self.new result }
    {
        let Ok(()) = room(&mut self.history) else {
            return Err(RestartFault::NoMemory);
        };
        let Ok(association) = self.gateway.restart() else {
            return Err(RestartFault::CannotHappen);
        };
        self.history.push_reserved(Event::Restart);
        Ok(association)
    }
}
