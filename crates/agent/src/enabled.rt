//! Whether a step can be taken, which takes no memory to say.
ghost use Rattle.std.specs.Prelude.{◌≡◌, is_some};
ghost use Rattle.mg_model.specs.Agent as model;
ghost use Rattle.mg_model.specs.Tables.{line_places};
ghost use Rattle.agent.specs.AgentValue.{agent_of};
ghost use Rattle.agent.specs.Entering.{CanEnter, leads_from};
ghost use Rattle.agent.specs.Preparing.{stepped_by};

use crate::delivered::Delivery;
use crate::entering::Start;
use crate::plain::Plain;
use built_request::Request;
use mg_model::failures::Failure;
use mg_names::identifiers::{Assoc, LAST_NUMBER};
use requests::{Reply, SentNote};
use script_table::Script;

/// Whether a state can be entered: a number is left for its request, or it is empty.
fn can_enter(script: &Script, start: &Start, state: u8) -> bool
    ensures { CanEnter (λ a. model.entered script.now a state) start.now result }
{
    if start.next <= LAST_NUMBER as u64 {
        return true;
    }
    Request::new(script, start.bindings.names(), state).is_empty()
}

/// Whether a target can be entered, or there is none.
fn can_enter_or_rest(script: &Script, start: &Start, target: Option<u8>) -> bool
    ensures { CanEnter (λ a. model.entered_or_rests script.now a target) start.now result }
{
    match target {
        Some(state) => can_enter(script, start, state),
        None => true,
    }
}

/// Whether there is a target, and it can be entered.
fn can_enter_if(script: &Script, start: &Start, target: Option<u8>) -> bool
    ensures { CanEnter (λ a. model.entered_if script.now a target) start.now result }
{
    match target {
        Some(state) => can_enter(script, start, state),
        None => false,
    }
}

/// Whether the call can go on from a state after a reply, by whether it has a failure.
fn can_lead_on(script: &Script, start: &Start, failure: Option<Failure>) -> bool
    ensures { CanEnter (λ a. leads_from script.now start.now.state a failure) start.now result }
{
    match failure {
        None => can_enter_or_rest(script, start, script.ok_of(start.state)),
        Some(_) => can_enter_if(script, start, script.fault_of(start.state)),
    }
}

impl Plain {
    /// Whether `pass` can be taken.
    fn can_pass(&self, script: &Script) -> bool
        ensures { result ≡ is_some (model.passed script.now (agent_of self.now)) }
    {
        if !self.is_passing() {
            return false;
        }
        let target = script.ok_of(self.state());
        can_enter_or_rest(script, &self.start(), target)
    }

    /// Whether `timer` can be taken.
    fn can_timer(&self, script: &Script) -> bool
        ensures { result ≡ is_some (model.timed script.now (agent_of self.now)) }
    {
        if !self.is_resting() {
            return false;
        }
        let target = script.timer_of(self.state());
        can_enter_if(script, &self.start(), target)
    }

    /// Whether `hear` can be taken.
    fn can_hear(&self, script: &Script, association: Assoc) -> bool
        ensures { result ≡ is_some (model.heard script.now (agent_of self.now) association.0) }
    {
        if association.0 <= self.association().0 {
            return false;
        }
        let start = self.start_anew(association);
        can_enter(script, &start, script.restart())
    }

    /// Whether `reply` can be taken.
    fn can_reply(&self, script: &Script, reply: &Reply) -> bool
        ensures { result ≡ is_some (model.replied script.now (agent_of self.now) reply.now) }
    {
        if !self.awaits(reply) {
            return false;
        }
        let bindings = self.bindings_after(script, reply);
        let start = self.start_with(bindings);
        can_lead_on(script, &start, reply.failure())
    }

    /// Whether `note` can be taken.
    fn can_note(&self, script: &Script, note: &SentNote) -> bool
        ensures { result ≡ is_some (model.noted script.now (agent_of self.now) (line_places script.now) note.now) }
    {
        if !self.may_accept(script, note) {
            return false;
        }
        match self.target_of(script, note) {
            Some(state) => can_enter(script, &self.start(), state),
            None => true,
        }
    }

    /// Whether the step can be taken at what reaches the call: false exactly where `prepare` answers `NotEnabled`, want of memory apart (this profile's own).
    pub fn can_take(&self, script: &Script, delivery: &Delivery<'_>) -> bool
        ensures { result ≡ is_some (stepped_by script.now (agent_of self.now) delivery.now) }
    {
        match delivery {
            Delivery::Reply(reply) => self.can_reply(script, reply),
            Delivery::Pass => self.can_pass(script),
            Delivery::Note(note) => self.can_note(script, note),
            Delivery::Timer => self.can_timer(script),
            Delivery::Hear(association) => self.can_hear(script, *association),
        }
    }
}
