//! A call after a step, by what it is then: what is read of it, and what is written down in it, whichever of the three it is.
ghost use Rattle.std.specs.Prelude.{◌≡◌, true, OnOk, OnErr};
ghost use Rattle.agent.specs.AgentValue.{agent_of};
ghost use Rattle.agent.specs.Calls.{IsNext, IsWithEvent, is_loggable, value_of, variant_of, with_room};

use crate::call::Next;
use mg_model::events::Event;
use mg_names::identifiers::{Assoc, CallNo};
use std::alloc::AllocError;

impl<'s> Next<'s> {
    /// The call.
    pub fn call(&self) -> CallNo
        ensures { result.0 ≡ (agent_of (value_of self.now).agent).call }
    {
        match self {
            Next::Resting(call) => call.call(),
            Next::Waiting(call) => call.call(),
            Next::Ended(call) => call.call(),
        }
    }

    /// The state of the script that the call is in, by its place from 0.
    pub fn state(&self) -> u8
        ensures { result ≡ (agent_of (value_of self.now).agent).state }
    {
        match self {
            Next::Resting(call) => call.state(),
            Next::Waiting(call) => call.state(),
            Next::Ended(call) => call.state(),
        }
    }

    /// The association of the call, from 1.
    pub fn association(&self) -> Assoc
        ensures { result.0 ≡ (agent_of (value_of self.now).agent).association }
    {
        match self {
            Next::Resting(call) => call.association(),
            Next::Waiting(call) => call.association(),
            Next::Ended(call) => call.association(),
        }
    }

    /// What happened to the call, the latest last.
    pub fn transcript(&self) -> &[Event]
        ensures { result.now ≡ (value_of self.now).transcript }
    {
        match self {
            Next::Resting(call) => call.transcript(),
            Next::Waiting(call) => call.transcript(),
            Next::Ended(call) => call.transcript(),
        }
    }

    /// Makes room for one event more, a beginning too: the next event takes no memory for the transcript. An event that is added uses
    /// it up. `AllocError` where memory ran out.
    pub fn room(&mut self) -> Result<(), AllocError>
        ensures made { OnOk result (value_of self.new ≡ with_room (value_of self.old)) }
        ensures unchanged { OnErr result (value_of self.new ≡ value_of self.old) }
        ensures kind { variant_of self.new ≡ variant_of self.old }
    {
        match self {
            Next::Resting(call) => call.room(),
            Next::Waiting(call) => call.room(),
            Next::Ended(call) => call.room(),
        }
    }

    /// Adds an event to what happened to the call that its agent takes no part in, where there is room for it. It takes no memory.
    pub fn log_event(self, event: Event) -> Next<'s>
        requires room { (value_of self).room ≡ true }
        requires loggable { is_loggable (value_of self).agent.call event ≡ true }
        ensures kind { IsNext result }
        ensures logged { IsWithEvent event (value_of self.entry) (value_of result) }
    {
        // There is room, and the event is one of the call, so it isn't refused.
        match self {
            Next::Resting(call) => match call.log_event(event) {
                Ok(next) => next,
                Err(refused) => Next::Resting(refused.call),
            },
            Next::Waiting(call) => match call.log_event(event) {
                Ok(next) => next,
                Err(refused) => Next::Waiting(refused.call),
            },
            Next::Ended(call) => match call.log_event(event) {
                Ok(next) => next,
                Err(refused) => Next::Ended(refused.call),
            },
        }
    }
}
