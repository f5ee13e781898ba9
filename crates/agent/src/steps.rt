//! What each step of an agent puts in place, which is all that may want memory or be refused: nothing changes here.
ghost use Rattle.std.specs.Prelude.{◌≡◌};
ghost use Rattle.mg_model.specs.Agent as model;
ghost use Rattle.mg_model.specs.Tables.{line_places};
ghost use Rattle.agent.specs.AgentValue.{agent_of};
ghost use Rattle.agent.specs.Preparing.{IsPreparedButForNote, stepped_by};
ghost use Rattle.agent.specs.Steps.{is_awaited};

use crate::delivered::Delivery;
use crate::entering;
use crate::fault::PlainFault;
use crate::phase::Phase;
use crate::plain::Plain;
use crate::prepared_step::PreparedStep;
use mg_names::identifiers::Assoc;
use requests::{Reply, SentNote};
use script_table::Script;

impl Plain {
    /// Whether this reply is awaited.
    #[tactic(auto, unfolding(crate::specs::AgentValue::agent_of))]
    pub(crate) fn awaits(&self, reply: &Reply) -> bool
        ensures { result ≡ is_awaited (agent_of self.now).phase reply.now }
    {
        match &self.phase {
            Phase::AwaitsReply(request) => {
                reply.call() == request.call()
                    && reply.association() == request.association()
                    && reply.number() == request.number()
            }
            Phase::AwaitsPass => false,
            Phase::Resting => false,
        }
    }

    /// Whether a note is accepted: one to this call, at rest in a state that isn't an end, that is new.
    #[tactic(auto, unfolding(crate::specs::AgentValue::agent_of))]
    pub(crate) fn may_accept(&self, script: &Script, note: &SentNote) -> bool
        ensures { result ≡ model.may_accept script.now (agent_of self.now) note.now }
    {
        note.call() == self.call
            && self.is_resting()
            && !script.ends_in(self.state)
            && self.is_new(note.association(), note.number())
    }

    /// Where a note leads.
    #[tactic(auto, unfolding(crate::specs::AgentValue::agent_of, crate::specs::Parts::agent_in))]
    pub(crate) fn target_of(&self, script: &Script, note: &SentNote) -> Option<u8>
        ensures { result ≡ model.target_of script.now (agent_of self.now) (model.line_in (agent_of self.now) note.now.line (line_places script.now)) note.now.note }
    {
        let line = self.bindings.line_of(script, note.line())?;
        let expected = self.bindings.expected(line)?;
        if expected != note.note().request() {
            return None;
        }
        script.target_of(self.state, line, note.note().kind())
    }

    /// The step that goes on from an empty request. `NotEnabled` where the call doesn't wait for that, or where no number is left for the
    /// next request.
    fn prepared_pass(&self, script: &Script) -> Result<PreparedStep, PlainFault>
        ensures { IsPreparedButForNote (model.passed script.now (agent_of self.now)) (agent_of self.now) result }
    {
        if !self.is_passing() {
            return Err(PlainFault::NotEnabled);
        }
        let start = self.start();
        let target = script.ok_of(start.state);
        let entered = entering::enter_or_rest(self.alloc, script, &start, target)?;
        Ok(PreparedStep::new(start.bindings, entered, None, None))
    }

    /// The step at the end of a timer. `NotEnabled` but at rest in a state that has one, or where no number is left for the next request.
    fn prepared_timer(&self, script: &Script) -> Result<PreparedStep, PlainFault>
        ensures { IsPreparedButForNote (model.timed script.now (agent_of self.now)) (agent_of self.now) result }
    {
        if !self.is_resting() {
            return Err(PlainFault::NotEnabled);
        }
        let start = self.start();
        let target = script.timer_of(start.state);
        let entered = entering::enter_if(self.alloc, script, &start, target)?;
        Ok(PreparedStep::new(start.bindings, entered, None, None))
    }

    /// The step into a newer association. `NotEnabled` where it isn't newer, or where no number is left for the next request.
    fn prepared_hear(&self, script: &Script, association: Assoc) -> Result<PreparedStep, PlainFault>
        ensures { IsPreparedButForNote (model.heard script.now (agent_of self.now) association.0) (agent_of self.now) result }
    {
        if association.0 <= self.association().0 {
            return Err(PlainFault::NotEnabled);
        }
        let start = self.start_anew(association);
        let entered = entering::enter(self.alloc, script, &start, script.restart())?;
        Ok(PreparedStep::new(start.bindings, entered, Some(association), None))
    }

    /// The step on a reply. `NotEnabled` where it is no reply to the outstanding request, where it has a failure and the state has no
    /// target for one, or where no number is left for the next request.
    fn prepared_reply(&self, script: &Script, reply: &Reply) -> Result<PreparedStep, PlainFault>
        ensures { IsPreparedButForNote (model.replied script.now (agent_of self.now) reply.now) (agent_of self.now) result }
    {
        if !self.awaits(reply) {
            return Err(PlainFault::NotEnabled);
        }
        let bindings = self.bindings_after(script, reply);
        let start = self.start_with(bindings);
        let entered = entering::lead_on(self.alloc, script, &start, reply.failure())?;
        Ok(PreparedStep::new(start.bindings, entered, None, None))
    }

    /// The step at a note. `NotEnabled` where it isn't accepted, or where no number is left for the next request.
    fn prepared_note(&self, script: &Script, note: &SentNote) -> Result<PreparedStep, PlainFault>
        ensures { IsPreparedButForNote (model.noted script.now (agent_of self.now) (line_places script.now) note.now) (agent_of self.now) result }
    {
        if !self.may_accept(script, note) {
            return Err(PlainFault::NotEnabled);
        }
        let start = self.start();
        let target = self.target_of(script, note);
        // A note that leads nowhere leaves the call at rest, as it is.
        let entered = entering::enter_or_rest(self.alloc, script, &start, target)?;
        Ok(PreparedStep::new(start.bindings, entered, None, Some(note.number())))
    }

    /// The step at what reaches the call. Its note, where there is one, isn't accepted yet.
    pub(crate) fn prepared(
        &self,
        script: &Script,
        delivery: &Delivery<'_>,
    ) -> Result<PreparedStep, PlainFault>
        ensures { IsPreparedButForNote (stepped_by script.now (agent_of self.now) delivery.now) (agent_of self.now) result }
    {
        match delivery {
            Delivery::Reply(reply) => self.prepared_reply(script, reply),
            Delivery::Pass => self.prepared_pass(script),
            Delivery::Note(note) => self.prepared_note(script, note),
            Delivery::Timer => self.prepared_timer(script),
            Delivery::Hear(association) => self.prepared_hear(script, *association),
        }
    }
}
