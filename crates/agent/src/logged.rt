//! An agent with its script and its transcript. On any refusal nothing changes: the place in the transcript is made first, then the
//! step is taken, and then its event is put into that place, which takes no memory. Where memory runs out, what isn't enabled is told
//! all the same, and not want of memory.
ghost use Rattle.std.specs.Prelude.{◌≡◌, ◌≤◌, [], OnOk, OnErr, is_some, length, map, slice_index_or};
ghost use Rattle.mg_model.specs.Agent as model;
ghost use Rattle.mg_model.specs.declared.events.Event.TheVariants.{OfCall};
ghost use Rattle.mg_model.specs.Tables.{line_places, state_of};
ghost use Rattle.mg_model.specs.World as event;
ghost use Rattle.agent.specs.AgentValue.{agent_of};
ghost use Rattle.agent.specs.Preparing.{stepped_by};
ghost use Rattle.agent.specs.Calls.{IsDone, IsRefused, IsWritten, IsBegunAnew, with_room, is_loggable};

use crate::delivered::Delivery;
use crate::fault::PlainFault;
use crate::plain::Plain;
use crate::refusal::Refusal;
use crate::retired::Retired;
use mg_model::events::{CallEvent, Event};
use mg_names::identifiers::{Assoc, CallNo, LineNo};
use requests::{Reply, SentNote};
use script_table::Script;
use std::alloc::{AllocError, Global};
use std::marker::Model;
use std::mem;

/// An agent with the script that it was opened with and with what happened to it, the latest last. Where `room` is set, the next event
/// takes no memory, nor does a beginning, whose transcript is the spare one: the old one is handed out. `room` is told apart from the
/// capacities, since a step that is refused for want of memory may have made a place before, and hands back the same call. This
/// profile's own.
#[derive(Drop)]
pub(crate) struct Logged<'s> {
    alloc: Global,
    script: &'s Script,
    agent: Plain,
    transcript: Vec<Event>,
    spare: Vec<Event>,
    room: bool,
}

impl<'s> Model for Logged<'s> {
    ghost use Rattle.std.specs.Prelude.{vec_len, vec_capacity};
    ghost use Rattle.agent.specs.CallValue.{CallValue, HasRoom};

    ghost Value = { CallValue };

    ghost view = { λ c. record { script = c.script.now; agent = c.agent; transcript = c.transcript.items; room = c.room } };

    ghost invariant = { λ c. HasRoom (vec_len c.transcript) (vec_capacity c.transcript) c.spare.items (vec_len c.spare) (vec_capacity c.spare) c.room };
}

#[tactic(auto, unfolding(crate::specs::AgentValue::agent_of))]
impl<'s> Logged<'s> {
    /// A call that opens on these lines of the gateway, 4 at most, with an empty transcript.
    pub(crate) fn enter(
        alloc: Global,
        script: &'s Script,
        call: CallNo,
        lines: &[LineNo],
    ) -> Logged<'s>
        requires { length lines.now ≤ 4 }
        ensures agent { agent_of result.agent ≡ model.opened script.now call.0 (λ i. slice_index_or (map (λ l. l.0) lines.now) i 0) }
        ensures script { result.script ≡ script.now }
        ensures transcript { result.transcript ≡ [] }
    {
        Logged {
            alloc,
            script,
            agent: Plain::enter(alloc, script, call, lines),
            transcript: Vec::new(alloc),
            spare: Vec::new(alloc),
            room: false,
        }
    }

    /// The agent.
    pub(crate) fn agent(&self) -> &Plain
        ensures { result.now ≡ self.now.agent }
    {
        &self.agent
    }

    /// What happened to the call, the latest last.
    pub(crate) fn transcript(&self) -> &[Event]
        ensures { result.now ≡ self.now.transcript }
    {
        self.transcript.as_slice()
    }

    /// Whether the call rests.
    pub(crate) fn is_resting(&self) -> bool
        ensures { result ≡ model.is_resting (agent_of self.now.agent).phase }
    {
        self.agent.is_resting()
    }

    /// Whether the state of the call is an end.
    pub(crate) fn is_in_end(&self) -> bool
        ensures { result ≡ (state_of self.now.script self.now.agent.state).is_end }
    {
        self.script.ends_in(self.agent.state())
    }

    /// An event of the call.
    fn event(&self, event: CallEvent) -> Event
        ensures { result ≡ OfCall (record { 0 = self.now.agent.call }) event }
    {
        Event::OfCall {
            call: self.agent.call(),
            event,
        }
    }

    /// Whether the agent can take the step at what reaches the call.
    pub(crate) fn can_step(&self, delivery: &Delivery<'_>) -> bool
        ensures { result ≡ is_some (stepped_by self.now.script (agent_of self.now.agent) delivery.now) }
    {
        self.agent.can_take(self.script, delivery)
    }

    /// Why a step isn't taken for which memory ran out. Only then is it asked whether it could be taken: a step that is taken has told so by itself.
    fn refusal(&self, delivery: &Delivery<'_>) -> Refusal
        ensures { IsRefused (stepped_by self.now.script (agent_of self.now.agent) delivery.now) result }
    {
        if self.can_step(delivery) {
            Refusal::NoMemory
        } else {
            Refusal::NotEnabled
        }
    }

    /// Takes the step at what reaches the call, and logs it as this event. `NotEnabled` where its agent can't, and `NoMemory` where it can.
    fn step(&mut self, delivery: &Delivery<'_>, event: CallEvent) -> Result<(), Refusal>
        ensures { IsDone (stepped_by self.old.script (agent_of self.old.agent) delivery.now) (OfCall (record { 0 = self.old.agent.call }) event) self.old self.new result }
    {
        let event = self.event(event);
        let Ok(()) = self.transcript.reserve(1) else {
            return Err(self.refusal(delivery));
        };
        if let Err(fault) = self.agent.step(self.script, delivery) {
            return Err(match fault {
                PlainFault::NotEnabled => Refusal::NotEnabled,
                PlainFault::NoMemory => self.refusal(delivery),
            });
        }
        self.transcript.push_reserved(event);
        self.room = false;
        Ok(())
    }

    /// Goes on from an empty request. `NotEnabled` where its agent can't, and `NoMemory` where it can.
    pub(crate) fn pass(&mut self) -> Result<(), Refusal>
        ensures { IsDone (model.passed self.old.script (agent_of self.old.agent)) (event.pass self.old.agent.call) self.old self.new result }
    {
        self.step(&Delivery::Pass, CallEvent::Pass)
    }

    /// The timer of the state ends. `NotEnabled` where its agent can't, and `NoMemory` where it can.
    pub(crate) fn timer(&mut self) -> Result<(), Refusal>
        ensures { IsDone (model.timed self.old.script (agent_of self.old.agent)) (event.timer self.old.agent.call) self.old self.new result }
    {
        self.step(&Delivery::Timer, CallEvent::Timer)
    }

    /// The call hears of an association. `NotEnabled` where its agent can't, and `NoMemory` where it can.
    pub(crate) fn hear(&mut self, association: Assoc) -> Result<(), Refusal>
        ensures { IsDone (model.heard self.old.script (agent_of self.old.agent) association.0) (event.hear self.old.agent.call association.0) self.old self.new result }
    {
        let event = CallEvent::Hear { association };
        self.step(&Delivery::Hear(association), event)
    }

    /// The reply to the outstanding request. `NotEnabled` where its agent can't, and `NoMemory` where it can.
    pub(crate) fn reply(&mut self, reply: &Reply) -> Result<(), Refusal>
        ensures { IsDone (model.replied self.old.script (agent_of self.old.agent) reply.now) (event.reply self.old.agent.call reply.now.number) self.old self.new result }
    {
        let number = reply.number();
        self.step(&Delivery::Reply(reply), CallEvent::Reply { number })
    }

    /// A note reaches the call. `NotEnabled` where its agent can't, and `NoMemory` where it can.
    pub(crate) fn note(&mut self, note: &SentNote) -> Result<(), Refusal>
        ensures { IsDone (model.noted self.old.script (agent_of self.old.agent) (line_places self.old.script) note.now) (event.note self.old.agent.call note.now.number) self.old self.new result }
    {
        let number = note.number();
        self.step(&Delivery::Note(note), CallEvent::Note { number })
    }

    /// Whether an event is one of this call that its agent takes no part in.
    fn may_log(&self, event: &Event) -> bool
        ensures { result ≡ is_loggable self.now.agent.call event.now }
    {
        match *event {
            Event::OfCall { call, event } => {
                if call != self.agent.call() {
                    return false;
                }
                matches!(event, CallEvent::OnLine { .. } | CallEvent::Execute { .. })
            }
            Event::Restart => false,
        }
    }

    /// Adds an event that the agent takes no part in.
    pub(crate) fn log_event(&mut self, event: Event) -> Result<(), Refusal>
        ensures { IsWritten event self.old self.new result }
    {
        if !self.may_log(&event) {
            return Err(Refusal::NotEnabled);
        }
        let Ok(()) = self.transcript.reserve(1) else {
            return Err(Refusal::NoMemory);
        };
        self.transcript.push_reserved(event);
        self.room = false;
        Ok(())
    }

    /// Makes room for one event more, in the transcript and in the spare one.
    pub(crate) fn room(&mut self) -> Result<(), AllocError>
        ensures made { OnOk result (self.new ≡ with_room self.old) }
        ensures unchanged { OnErr result (self.new ≡ self.old) }
    {
        self.transcript.reserve(1)?;
        self.spare.reserve(1)?;
        self.room = true;
        Ok(())
    }

    /// A call begins on the lines of this one, which is retired with its transcript. `NoMemory` alone.
    pub(crate) fn begin(&mut self, call: CallNo) -> Result<Retired, Refusal>
        ensures { IsBegunAnew call.0 self.old self.new result }
    {
        let old = self.agent.call();
        let state = self.agent.state();
        let Ok(()) = self.spare.reserve(1) else {
            return Err(Refusal::NoMemory);
        };
        self.agent.begin(self.script, call);
        self.spare.push_reserved(Event::OfCall {
            call,
            event: CallEvent::Begin { old },
        });
        // An empty vector takes no memory, so the old transcript can go out and the spare one come in without any.
        let fresh = mem::replace(&mut self.spare, Vec::new(self.alloc));
        let transcript = mem::replace(&mut self.transcript, fresh);
        self.room = false;
        Ok(Retired {
            call: old,
            state,
            transcript,
        })
    }
}
