//! The agent of a call.
ghost use Rattle.std.specs.Prelude.{◌≡◌, ◌≤◌, IfOk, OnOk, OnErr, length, map, option_map, slice_index_or};
ghost use Rattle.mg_model.specs.Agent as model;
ghost use Rattle.mg_model.specs.Delivery.{arrival, is_new};
ghost use Rattle.agent.specs.AgentValue.{agent_of};
ghost use Rattle.agent.specs.PreparedValue.{in_newer, without_note};
ghost use Rattle.agent.specs.Entering.{Starts, having};
ghost use Rattle.agent.specs.Parts.{agent_in, bound_as};
ghost use Rattle.agent.specs.Preparing.{with_note};
ghost use Rattle.agent.specs.Steps.{accepting, given_up, is_passing, outstanding};

use crate::bindings::Bindings;
use crate::entering::{Entered, Start};
use crate::phase::Phase;
use crate::results;
use delivery::{Arrival, Inbox};
use mg_names::identifiers::{Assoc, CallNo, LineNo};
use mg_names::slots::Slot;
use requests::{Reply, Request};
use script_table::Script;
use std::alloc::{AllocError, Global};
use std::marker::Model;
use std::mem;

/// The agent of a call, as data: the state of the script that it is in, what it waits for, what its names stand for, the number of its
/// next request, and which notes it accepted in its association. Every step names the script, which is to be the same one. This
/// profile's own.
#[derive(Drop)]
pub struct Plain {
    pub(crate) alloc: Global,
    pub(crate) call: CallNo,
    pub(crate) state: u8,
    pub(crate) phase: Phase,
    pub(crate) next: u64,
    pub(crate) bindings: Bindings,
    pub(crate) notes: Inbox,
}

impl Model for Plain {
    ghost use Rattle.agent.specs.AgentValue.{AgentValue, phase_of};

    ghost Value = { AgentValue };

    ghost view = { λ p. record { call = p.call.0; state = p.state; phase = phase_of p.phase; lines = p.bindings.lines; contexts = p.bindings.contexts; ephemerals = p.bindings.ephemerals; next = p.next; expected = p.bindings.expected; inbox = p.notes } };
}

#[tactic(auto, unfolding(crate::specs::AgentValue::agent_of))]
impl Plain {
    /// The agent that a call opens with on these lines of the gateway, the first of them for the first line of the script, 4 at most: at
    /// rest in the script's start state and in the first association, each line expected to report with RequestID 0.
    pub fn enter(alloc: Global, script: &Script, call: CallNo, lines: &[LineNo]) -> Plain
        requires { length lines.now ≤ 4 }
        ensures { agent_of result ≡ model.opened script.now call.0 (λ i. slice_index_or (map (λ l. l.0) lines.now) i 0) }
    {
        Plain {
            alloc,
            call,
            state: script.start(),
            phase: Phase::Resting,
            next: 1,
            bindings: Bindings::opened(script, lines),
            notes: Inbox::new(alloc, Assoc::FIRST),
        }
    }

    /// A call begins on the lines of this one, which has ended: at rest in the start state and in the same association, with the next
    /// number and the RequestIDs that are expected. It takes no memory.
    pub fn begin(&mut self, script: &Script, call: CallNo)
        ensures { agent_of self.new ≡ model.begun script.now call.0 (agent_of self.old) }
    {
        self.call = call;
        self.state = script.start();
        self.phase = Phase::Resting;
        self.bindings = self.bindings.unbound();
        self.notes.restart(self.notes.association());
    }

    /// The call.
    pub fn call(&self) -> CallNo
        ensures { result.0 ≡ (agent_of self.now).call }
    {
        self.call
    }

    /// The state of the script that the call is in, by its place from 0.
    pub fn state(&self) -> u8
        ensures { result ≡ (agent_of self.now).state }
    {
        self.state
    }

    /// The association of the call, from 1.
    pub fn association(&self) -> Assoc
        ensures { result.0 ≡ (agent_of self.now).association }
    {
        self.notes.association()
    }

    /// The number of the next request, from 1; past 4,294,967,295 where none is left.
    pub fn next_number(&self) -> u64
        ensures { result ≡ (agent_of self.now).next }
    {
        let next = self.next;
        next
    }

    /// The line of the gateway for a line of the script, by its place; 0 where the script lacks it.
    #[tactic(auto, unfolding(crate::specs::AgentValue::agent_of, crate::specs::Parts::agent_in))]
    pub fn line(&self, line: Slot) -> LineNo
        ensures { result.0 ≡ (agent_of self.now).lines line }
    {
        self.bindings.line(line)
    }

    /// Whether the call rests.
    pub fn is_resting(&self) -> bool
        ensures { result ≡ model.is_resting (agent_of self.now).phase }
    {
        match &self.phase {
            Phase::Resting => true,
            Phase::AwaitsPass => false,
            Phase::AwaitsReply(_) => false,
        }
    }

    /// The request whose reply is awaited (H.248.1 section 8.2.1); `None` where none is.
    pub fn request(&self) -> Option<&Request>
        ensures { option_map (λ r. r.now) result ≡ outstanding (agent_of self.now).phase }
    {
        match &self.phase {
            Phase::AwaitsReply(request) => Some(request),
            Phase::AwaitsPass => None,
            Phase::Resting => None,
        }
    }

    /// Whether the call waits to be told to go on.
    pub(crate) fn is_passing(&self) -> bool
        ensures { result ≡ is_passing (agent_of self.now).phase }
    {
        match &self.phase {
            Phase::Resting => false,
            Phase::AwaitsPass => true,
            Phase::AwaitsReply(_) => false,
        }
    }

    /// Where a step begins, with what the names stand for in it.
    #[tactic(auto, unfolding(crate::specs::AgentValue::agent_of, crate::specs::Parts::agent_in))]
    pub(crate) fn start_with(&self, bindings: Bindings) -> Start
        ensures { Starts result (bound_as (agent_of self.now) (agent_in bindings)) }
    {
        Start {
            call: self.call,
            state: self.state,
            association: self.notes.association(),
            next: self.next,
            bindings,
        }
    }

    /// Where a step begins.
    #[tactic(auto, unfolding(crate::specs::AgentValue::agent_of, crate::specs::Parts::agent_in))]
    pub(crate) fn start(&self) -> Start
        ensures { Starts result (agent_of self.now) }
    {
        self.start_with(self.bindings)
    }

    /// Where the call begins in a newer association.
    #[tactic(auto, unfolding(crate::specs::AgentValue::agent_of, crate::specs::Parts::agent_in))]
    pub(crate) fn start_anew(&self, association: Assoc) -> Start
        ensures { Starts result (model.forgotten (agent_of self.now) association.0) }
    {
        Start {
            call: self.call,
            state: self.state,
            association,
            next: self.next,
            bindings: self.bindings.forgotten(),
        }
    }

    /// What the names stand for after the results of a reply to the outstanding request.
    #[tactic(auto, unfolding(crate::specs::AgentValue::agent_of, crate::specs::Parts::agent_in))]
    pub(crate) fn bindings_after(&self, script: &Script, reply: &Reply) -> Bindings
        ensures { bound_as (agent_of self.now) (agent_in result) ≡ model.after_results (agent_of self.now) (model.built_by script.now (agent_of self.now) (agent_of self.now).state) reply.now.results reply.now.number }
    {
        results::after(
            script,
            &self.bindings,
            self.state,
            reply.results(),
            reply.number(),
        )
    }

    /// Sets what the names stand for.
    #[tactic(auto, unfolding(crate::specs::AgentValue::agent_of, crate::specs::Parts::agent_in))]
    pub(crate) fn bind(&mut self, bindings: Bindings)
        ensures { agent_of self.new ≡ bound_as (agent_of self.old) (agent_in bindings) }
    {
        self.bindings = bindings;
    }

    /// A newer association begins, where there is one: nothing is accepted in it.
    pub(crate) fn restart_in(&mut self, newer: Option<Assoc>)
        ensures { agent_of self.new ≡ in_newer (agent_of self.old) (option_map (λ n. n.0) newer) }
    {
        if let Some(association) = newer {
            self.notes.restart(association);
        }
    }

    /// Whether a note of this association and number is new: the association is the call's, and no note of the number was accepted in it.
    #[tactic(auto, unfolding(crate::specs::AgentValue::agent_of))]
    pub fn is_new(&self, association: Assoc, number: u32) -> bool
        ensures { result ≡ is_new (arrival (model.inbox_of (agent_of self.now)) association.0 number) }
    {
        match self.notes.arrival(association, number) {
            Arrival::New => true,
            Arrival::Seen | Arrival::Old => false,
        }
    }

    /// Accepts a note of the association.
    pub(crate) fn accept(&mut self, number: u32) -> Result<(), AllocError>
        ensures accepted { OnOk result (agent_of self.new ≡ accepting (agent_of self.old) number) }
        ensures unchanged { OnErr result (self.new ≡ self.old) }
    {
        self.notes.accept(self.notes.association(), number)?;
        Ok(())
    }

    /// A note that was accepted, where there is one, is new again.
    pub(crate) fn lose(&mut self, note: Option<u32>)
        ensures { agent_of self.new ≡ without_note (agent_of self.old) note }
    {
        if let Some(number) = note {
            self.notes.forget(number);
        }
    }

    /// Rests, and hands out the request whose reply was awaited, if one was.
    pub(crate) fn give_up(&mut self) -> Option<Request>
        ensures request { result ≡ outstanding (agent_of self.old).phase }
        ensures rests { agent_of self.new ≡ given_up (agent_of self.old) }
    {
        match mem::replace(&mut self.phase, Phase::Resting) {
            Phase::AwaitsReply(request) => Some(request),
            Phase::AwaitsPass => None,
            Phase::Resting => None,
        }
    }

    /// Accepts a note of the association, where there is one.
    pub(crate) fn accept_if(&mut self, note: Option<u32>) -> Result<(), AllocError>
        ensures { OnOk result (agent_of self.new ≡ with_note (agent_of self.old) note) }
    {
        match note {
            Some(number) => self.accept(number),
            None => Ok(()),
        }
    }

    /// The same agent once more, but at rest.
    pub(crate) fn copy_at_rest(&self) -> Result<Plain, AllocError>
        ensures { IfOk result (λ copied. agent_of copied ≡ given_up (agent_of self.now)) }
    {
        Ok(Plain {
            alloc: self.alloc,
            call: self.call,
            state: self.state,
            phase: Phase::Resting,
            next: self.next,
            bindings: self.bindings,
            notes: self.notes.copy()?,
        })
    }

    /// Puts what was entered in place.
    pub(crate) fn put(&mut self, entered: Entered)
        ensures { agent_of self.new ≡ having (agent_of self.old) entered }
    {
        self.state = entered.state;
        self.phase = entered.phase;
        self.next = entered.next;
    }
}
