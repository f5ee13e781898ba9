//! A step of a call of whichever kind, at what reaches it: the call comes back by what it is then, or as it was.
ghost use Rattle.std.specs.Prelude.{◌≡◌, is_some};
ghost use Rattle.agent.specs.AgentValue.{agent_of};
ghost use Rattle.agent.specs.Advancing.{IsAdvanced, IsHanded, advancing, takes};
ghost use Rattle.agent.specs.Calls.{value_of, variant_of};
ghost use Rattle.agent.specs.Preparing.{stepped_by};
ghost use Rattle.agent.specs.declared.call.Next.TheVariants as next;

use crate::call::{Call, Ended, Next, Refused, Resting, Waiting};
use crate::delivered::Delivery;
use crate::refusal::Refusal;

/// The answer of a step of a call that rests.
fn from_resting<'s>(done: Result<Next<'s>, Refused<'s, Resting>>) -> (Next<'s>, Result<(), Refusal>)
    ensures { IsHanded next.Resting done.entry result.0 result.1 }
{
    match done {
        Ok(next) => (next, Ok(())),
        Err(refused) => (Next::Resting(refused.call), Err(refused.why)),
    }
}

/// The answer of a step of a call that waits.
fn from_waiting<'s>(done: Result<Next<'s>, Refused<'s, Waiting>>) -> (Next<'s>, Result<(), Refusal>)
    ensures { IsHanded next.Waiting done.entry result.0 result.1 }
{
    match done {
        Ok(next) => (next, Ok(())),
        Err(refused) => (Next::Waiting(refused.call), Err(refused.why)),
    }
}

/// The answer of a step of a call that has ended.
fn from_ended<'s>(done: Result<Next<'s>, Refused<'s, Ended>>) -> (Next<'s>, Result<(), Refusal>)
    ensures { IsHanded next.Ended done.entry result.0 result.1 }
{
    match done {
        Ok(next) => (next, Ok(())),
        Err(refused) => (Next::Ended(refused.call), Err(refused.why)),
    }
}

/// A step of a call that rests.
fn advance_resting<'s>(
    call: Call<'s, Resting>,
    delivery: &Delivery<'_>,
) -> (Next<'s>, Result<(), Refusal>)
    ensures { IsAdvanced (next.Resting call.entry) delivery.now result.0 result.1 }
{
    match *delivery {
        Delivery::Note(note) => from_resting(call.note(note)),
        Delivery::Timer => from_resting(call.timer()),
        Delivery::Hear(association) => from_resting(call.hear(association)),
        Delivery::Reply(_) | Delivery::Pass => (Next::Resting(call), Err(Refusal::NotEnabled)),
    }
}

/// A step of a call that waits.
fn advance_waiting<'s>(
    call: Call<'s, Waiting>,
    delivery: &Delivery<'_>,
) -> (Next<'s>, Result<(), Refusal>)
    ensures { IsAdvanced (next.Waiting call.entry) delivery.now result.0 result.1 }
{
    match *delivery {
        Delivery::Reply(reply) => from_waiting(call.reply(reply)),
        Delivery::Pass => from_waiting(call.pass()),
        Delivery::Hear(association) => from_waiting(call.hear(association)),
        Delivery::Note(_) | Delivery::Timer => (Next::Waiting(call), Err(Refusal::NotEnabled)),
    }
}

/// A step of a call that has ended.
fn advance_ended<'s>(
    call: Call<'s, Ended>,
    delivery: &Delivery<'_>,
) -> (Next<'s>, Result<(), Refusal>)
    ensures { IsAdvanced (next.Ended call.entry) delivery.now result.0 result.1 }
{
    match *delivery {
        Delivery::Hear(association) => from_ended(call.hear(association)),
        _ => (Next::Ended(call), Err(Refusal::NotEnabled)),
    }
}

/// Whether a call of its kind has a step at what reaches it.
fn takes(next: &Next<'_>, delivery: &Delivery<'_>) -> bool
    ensures { result ≡ takes (variant_of next.now) delivery.now }
{
    match next {
        Next::Resting(_) => matches!(
            delivery,
            Delivery::Note(_) | Delivery::Timer | Delivery::Hear(_)
        ),
        Next::Waiting(_) => matches!(
            delivery,
            Delivery::Reply(_) | Delivery::Pass | Delivery::Hear(_)
        ),
        Next::Ended(_) => matches!(delivery, Delivery::Hear(_)),
    }
}

/// Whether the agent of a call can take the step at what reaches it.
fn can_step(next: &Next<'_>, delivery: &Delivery<'_>) -> bool
    ensures { result ≡ is_some (stepped_by (value_of next.now).script (agent_of (value_of next.now).agent) delivery.now) }
{
    match next {
        Next::Resting(call) => call.can_step(delivery),
        Next::Waiting(call) => call.can_step(delivery),
        Next::Ended(call) => call.can_step(delivery),
    }
}

impl<'s> Next<'s> {
    /// Whether the step at what reaches the call can be taken: where it can't, `advance` answers `NotEnabled`, want of memory apart. It takes no memory.
    pub fn can_take(&self, delivery: &Delivery<'_>) -> bool
        ensures { result ≡ is_some (advancing self.now delivery.now) }
    {
        if !takes(self, delivery) {
            return false;
        }
        can_step(self, delivery)
    }

    /// The step at what reaches the call, which comes back by what it is then. `NotEnabled` where a call of its kind has no such step, or where its agent can't
    /// take it, as each step says; `NoMemory` where memory ran out for a step that could be taken. Then the call comes back as it was.
    pub fn advance(self, delivery: &Delivery<'_>) -> (Next<'s>, Result<(), Refusal>)
        ensures { IsAdvanced self.entry delivery.now result.0 result.1 }
    {
        match self {
            Next::Resting(call) => advance_resting(call, delivery),
            Next::Waiting(call) => advance_waiting(call, delivery),
            Next::Ended(call) => advance_ended(call, delivery),
        }
    }
}
