//! A call begins on the lines of one that has ended: at the gateway, in the records and by the call that is handed in. All that may want memory comes first.
ghost use Rattle.std.specs.Prelude.{◌≡◌, true};
ghost use Rattle.mg_model.specs.declared.events.CallEvent.TheVariants.{Begin};
ghost use Rattle.mg_model.specs.declared.events.Event.TheVariants.{OfCall};
ghost use Rattle.agent.specs.AgentValue.{agent_of};
ghost use Rattle.agent.specs.declared.call.Next.TheVariants as next;
ghost use Rattle.shards.specs.Beginnings.{IsBegunBy, has_ended, refusal_of};
ghost use Rattle.shards.specs.Stepping.{IsStep};

use crate::call_record::CallRecord;
use crate::call_table;
use crate::shard::{self, Shard};
use crate::stepped::Stepped;
use agent::{Call, Ended, Next, Refusal};
use gateway::BeginFault;
use mg_model::events::{CallEvent, Event};
use mg_names::identifiers::{Assoc, CallNo};
use script_table::Script;

/// Whether a call has ended in this association.
pub(crate) fn has_ended(call_record: &CallRecord, script: &Script, association: Assoc) -> bool
    ensures { result ≡ has_ended script.now (agent_of call_record.now.agent) association.0 }
{
    if !call_record.agent.is_resting() {
        return false;
    }
    if !script.ends_in(call_record.agent.state()) {
        return false;
    }
    call_record.agent.association() == association
}

/// Why a call doesn't begin, of what the gateway answers.
fn refusal_of(fault: BeginFault) -> Refusal
    ensures { result ≡ refusal_of fault }
{
    match fault {
        BeginFault::UnknownCall | BeginFault::Taken | BeginFault::CannotHappen => {
            Refusal::NotEnabled
        }
        BeginFault::NoMemory => Refusal::NoMemory,
    }
}

/// The call that begins on the lines of one that has room for it, and what is left of that one.
fn begun<'s>(ended: Call<'s, Ended>, call: CallNo) -> (Next<'s>, Result<Stepped, Refusal>)
    requires { ended.room ≡ true }
    ensures { IsBegunBy call.0 ended.entry result.0 result.1 }
{
    match ended.begin(call) {
        Ok((next, retired)) => (next, Ok(Stepped::Begun { retired })),
        // There is room, so this can't be.
        Err(refused) => (Next::Ended(refused.call), Err(refused.why)),
    }
}

impl<'s> Shard<'s> {
    /// A call begins on the lines of a call that has ended.
    fn begin_on(
        &mut self,
        ended: Call<'s, Ended>,
        call: CallNo,
        old: CallNo,
    ) -> (Next<'s>, Result<Stepped, Refusal>)
        ensures { IsStep self.old self.new (next.Ended ended.entry) result.0 (OfCall call (Begin old)) result.1 }
    {
        if ended.call().0 != old.0 {
            return (Next::Ended(ended), Err(Refusal::NotEnabled));
        }
        let Some(call_record) = call_table::call_record(&self.call_table, old) else {
            return (Next::Ended(ended), Err(Refusal::NotEnabled));
        };
        if !has_ended(call_record, self.script, self.gateway.association()) {
            return (Next::Ended(ended), Err(Refusal::NotEnabled));
        }
        let mut ended = ended;
        let Ok(()) = shard::room(&mut self.history) else {
            return (Next::Ended(ended), Err(Refusal::NoMemory));
        };
        let Ok(()) = ended.room() else {
            return (Next::Ended(ended), Err(Refusal::NoMemory));
        };
        let Ok(()) = call_table::reserve(&mut self.call_table) else {
            return (Next::Ended(ended), Err(Refusal::NoMemory));
        };
        if let Err(fault) = self.gateway.begin(old, call) {
            return (Next::Ended(ended), Err(refusal_of(fault)));
        }
        call_table::hand_over(&mut self.call_table, self.alloc, self.script, old, call);
        let event = CallEvent::Begin { old };
        self.history.push_reserved(Event::OfCall { call, event });
        begun(ended, call)
    }

    /// A call begins on the lines of the one that is handed in.
    pub(crate) fn begin(
        &mut self,
        next: Next<'s>,
        call: CallNo,
        old: CallNo,
    ) -> (Next<'s>, Result<Stepped, Refusal>)
        ensures { IsStep self.old self.new next.entry result.0 (OfCall call (Begin old)) result.1 }
    {
        match next {
            Next::Ended(ended) => self.begin_on(ended, call, old),
            Next::Resting(resting) => (Next::Resting(resting), Err(Refusal::NotEnabled)),
            Next::Waiting(waiting) => (Next::Waiting(waiting), Err(Refusal::NotEnabled)),
        }
    }
}
