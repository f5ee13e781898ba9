//! A step of a plan, as a call takes it on a gateway.
ghost use Rattle.std.specs.Prelude.{◌≡◌, ◌+◌, IfOk, IfSome};
ghost use Rattle.mg_model.specs.Numbers.{plan_calls};
ghost use Rattle.agent.specs.declared.refusal.Refusal.TheVariants.{NotEnabled};
ghost use Rattle.taken_steps.specs.Findings.{ComesToIdle};
ghost use Rattle.taken_steps.specs.Taking.{Comes};

use crate::came::Came;
use crate::idle::Idle;
use crate::reasons::{refused, unmeant};
use agent::{Next, Refusal};
use mg_model::events::Event;
use mg_model::plans::PlanStep;
use mg_names::identifiers::CallNo;
use planned_calls::{PLAN_CALLS, RunFault, Shard, Stepped};

/// A call after a step, with its number, and what the step came to.
#[derive(Drop)]
pub struct Taken<'s> {
    /// The call behind it, or the one that began within it.
    pub next: Next<'s>,
    /// The number of that call.
    pub number: CallNo,
    /// What the step came to.
    pub came: Came,
}

/// The number of the next call to begin on the lines of one; nothing where the numbers end.
fn number_behind(number: CallNo) -> Option<CallNo>
    ensures { IfSome result (λ begins. begins.0 ≡ number.0 + plan_calls) }
{
    Some(CallNo(number.0.checked_add(PLAN_CALLS)?))
}

/// What a step comes to whose event was refused, where that can't happen for this reason.
fn came_of(fault: Refusal, why: Option<Idle>) -> Result<Came, RunFault>
    ensures { IfOk result (λ came. (fault ≡ NotEnabled) × ComesToIdle why came) }
{
    match (fault, why) {
        (Refusal::NotEnabled, Some(why)) => Ok(Came::Idle(why)),
        (Refusal::NoMemory, _) => Err(RunFault::NoMemory),
        _ => Err(RunFault::Disagree),
    }
}

/// A call takes a step of the plan, other than a restart, on its gateway. `Disagree` where the numbers of calls end, where the step means what no call of a
/// plan is asked for, where the gateway has the call elsewhere or counts another number of its events, or where a request is refused whose state has no target
/// for that; `NoMemory` where memory ran out. This profile's own.
pub fn take<'s>(
    shard: &mut Shard<'s>,
    next: Next<'s>,
    number: CallNo,
    step: &PlanStep,
) -> Result<Taken<'s>, RunFault>
    ensures { IfOk result (λ taken. Comes shard.old next.entry number.0 step.now taken.came shard.new taken.next taken.number.0) }
{
    let Some(begins) = number_behind(number) else {
        return Err(RunFault::Disagree);
    };
    let Some(event) = shard.meaning(number, begins, step) else {
        let Some(why) = unmeant(step) else {
            return Err(RunFault::Disagree);
        };
        let came = Came::Idle(why);
        return Ok(Taken { next, number, came });
    };
    let Event::OfCall {
        call,
        event: happens,
    } = event
    else {
        return Err(RunFault::Disagree);
    };
    let why = refused(shard, &next, call, happens);
    let (next, done) = shard.step(next, event);
    match done {
        Ok(Stepped::Done) => {
            let came = Came::Happened(event);
            Ok(Taken { next, number, came })
        }
        Ok(Stepped::Begun { retired: _ }) => {
            let came = Came::Happened(event);
            Ok(Taken {
                next,
                number: begins,
                came,
            })
        }
        Err(fault) => {
            let came = came_of(fault, why)?;
            Ok(Taken { next, number, came })
        }
    }
}
