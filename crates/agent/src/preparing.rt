//! Steps of an agent in two parts, and whole. All that may want memory or be refused comes while a step is prepared; on any fault
//! nothing changes.
ghost use Rattle.std.specs.Prelude.{◌≡◌};
ghost use Rattle.mg_model.specs.Agent as model;
ghost use Rattle.mg_model.specs.Tables.{line_places};
ghost use Rattle.agent.specs.AgentValue.{agent_of};
ghost use Rattle.agent.specs.PreparedValue.{finished, cancelled};
ghost use Rattle.agent.specs.Preparing.{IsAfter, IsPrepared, stepped_by};
ghost use Rattle.agent.specs.Steps.{IsStepped, outstanding};

use crate::delivered::Delivery;
use crate::fault::PlainFault;
use crate::plain::Plain;
use crate::prepared_step::PreparedStep;
use mg_names::identifiers::Assoc;
use requests::{Reply, Request, SentNote};
use script_table::Script;

impl Plain {
    /// Prepares the step at what reaches the call, which is then to be finished or cancelled before any other: the number of a note is put
    /// into the inbox, and nothing else changes yet. `NotEnabled` where the step can't be taken, as each step says.
    pub fn prepare(
        &mut self,
        script: &Script,
        delivery: &Delivery<'_>,
    ) -> Result<PreparedStep, PlainFault>
        ensures { IsPrepared (stepped_by script.now (agent_of self.old) delivery.now) self.old self.new result }
    {
        let prepared = self.prepared(script, delivery)?;
        // The note is accepted last, so that no refusal has to take it back.
        if let Some(number) = prepared.note {
            let Ok(()) = self.accept(number) else {
                return Err(PlainFault::NoMemory);
            };
        }
        Ok(prepared)
    }

    /// Puts in place what this agent prepared last, and hands out the request whose reply was awaited before, if one was. It takes no memory.
    pub fn finish(&mut self, prepared: PreparedStep) -> Option<Request>
        ensures finished { agent_of self.new ≡ finished (agent_of self.old) prepared }
        ensures over { result ≡ outstanding (agent_of self.old).phase }
    {
        let over = self.give_up();
        self.restart_in(prepared.association);
        self.bind(prepared.bindings);
        self.put(prepared.entered);
        over
    }

    /// Takes back what this agent prepared last. It takes no memory.
    pub fn cancel(&mut self, prepared: PreparedStep)
        ensures { agent_of self.new ≡ cancelled (agent_of self.old) prepared }
    {
        self.lose(prepared.note);
    }

    /// The agent after the step at what reaches the call, beside this one, which stays as it is. `NotEnabled` where the step can't be taken, as each step
    /// says, and `NoMemory` where memory ran out.
    pub fn after(&self, script: &Script, delivery: &Delivery<'_>) -> Result<Plain, PlainFault>
        ensures { IsAfter (stepped_by script.now (agent_of self.now) delivery.now) result }
    {
        let step = self.prepared(script, delivery)?;
        let Ok(mut after) = self.copy_at_rest() else {
            return Err(PlainFault::NoMemory);
        };
        let Ok(()) = after.accept_if(step.note) else {
            return Err(PlainFault::NoMemory);
        };
        let _ = after.finish(step);
        Ok(after)
    }

    /// Takes the step at what reaches the call.
    pub(crate) fn step(
        &mut self,
        script: &Script,
        delivery: &Delivery<'_>,
    ) -> Result<(), PlainFault>
        ensures { IsStepped (stepped_by script.now (agent_of self.old) delivery.now) self.old self.new result }
    {
        let prepared = self.prepare(script, delivery)?;
        let _ = self.finish(prepared);
        Ok(())
    }

    /// Goes on from an empty request, which was not sent and counts as answered without a failure (this profile's own). `NotEnabled`
    /// where the call doesn't wait for that, or where no number is left for the next request.
    pub fn pass(&mut self, script: &Script) -> Result<(), PlainFault>
        ensures { IsStepped (model.passed script.now (agent_of self.old)) self.old self.new result }
    {
        self.step(script, &Delivery::Pass)
    }

    /// The timer of the state ends (this profile's own). `NotEnabled` but at rest in a state that has one, or where no number is left for
    /// the next request.
    pub fn timer(&mut self, script: &Script) -> Result<(), PlainFault>
        ensures { IsStepped (model.timed script.now (agent_of self.old)) self.old self.new result }
    {
        self.step(script, &Delivery::Timer)
    }

    /// The call hears of an association, in any phase (H.248.1 section 11.2 on ServiceChange): of a newer one it enters the script's
    /// restart state in it, and nothing is bound, expected or accepted. `NotEnabled` where it isn't newer, or where no number is left for
    /// the next request.
    pub fn hear(&mut self, script: &Script, association: Assoc) -> Result<(), PlainFault>
        ensures { IsStepped (model.heard script.now (agent_of self.old) association.0) self.old self.new result }
    {
        self.step(script, &Delivery::Hear(association))
    }

    /// The reply to the outstanding request (H.248.1 section 8.2.2): what its commands created is bound, what they subtracted is not, and
    /// the call goes on by whether there was a failure. `NotEnabled` where it is no reply to that request, where it has a failure and
    /// the state has no target for one, or where no number is left for the next request.
    pub fn reply(&mut self, script: &Script, reply: &Reply) -> Result<(), PlainFault>
        ensures { IsStepped (model.replied script.now (agent_of self.old) reply.now) self.old self.new result }
    {
        self.step(script, &Delivery::Reply(reply))
    }

    /// A note reaches the call (H.248.1 section 7.2.7): it is accepted at rest, in a state that isn't an end and where it is new, and leads
    /// on where its RequestID is the one that is expected of its line. `NotEnabled` where it isn't accepted, or where no number is
    /// left for the next request.
    pub fn note(&mut self, script: &Script, note: &SentNote) -> Result<(), PlainFault>
        ensures { IsStepped (model.noted script.now (agent_of self.old) (line_places script.now) note.now) self.old self.new result }
    {
        self.step(script, &Delivery::Note(note))
    }
}
