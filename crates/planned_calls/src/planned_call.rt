//! A call of the plan on its way through a run: the call that stands, and what happened to those before it. The step of a plan is taken here.
ghost use Rattle.std.specs.Prelude.{◌≡◌, ◌+◌, ◌++◌, ◌<◌, true, false, IfErr, IfNone, IfOk, IfSome, OnOk};
ghost use Rattle.mg_model.specs.Numbers.{plan_calls};
ghost use Rattle.mg_model.specs.declared.plans.PlanStep.TheVariants as steps;
ghost use Rattle.agent.specs.declared.refusal.Refusal.TheVariants as refusals;
ghost use Rattle.agent.specs.declared.refusal.Refusal.TheVariants.{NotEnabled};
ghost use Rattle.shards.specs.CanOccur.{NeverOccurs};
ghost use Rattle.shards.specs.Meaning.{IsCountedAs};
ghost use Rattle.shards.specs.Shards.{HasSameOpening};
ghost use Rattle.shards.specs.Stepping.{IsStep};
ghost use Rattle.planned_calls.specs.Disagreements.{IsBecause, IsNotTaken, IsUntaken, last_number};
ghost use Rattle.planned_calls.specs.declared.fault.RunFault.TheVariants as faults;
ghost use Rattle.planned_calls.specs.Taking.{IsTaken, IsWritten, SettlesAs, first_of, left_of, stands_behind};

use crate::fault::RunFault;
use agent::{Next, Refusal, Retired};
use mg_model::events::Event;
use mg_model::plans::PlanStep;
use mg_names::identifiers::CallNo;
use shards::{Shard, Stepped};
use std::alloc::Global;

/// The `g`th call that begins within call `n` of the plan has the number `g` times this, and `n`.
pub const PLAN_CALLS: u32 = 10_000;

/// What a step of a call of the plan came to. This profile's own.
#[derive(Clone, Copy)]
pub struct TakenStep {
    /// The number of the call of the plan.
    pub first: u32,
    /// The state in which the call was that stood, by its place in the script.
    pub state: u8,
    /// The event that it was; nothing where it was idle.
    pub event: Option<Event>,
}

/// What is written down of a call of the plan on its way.
#[derive(Drop)]
pub struct CallLog {
    /// The transcripts of those that stood before the one that stands, one after the other.
    pub trail: Vec<Event>,
    /// How many steps were begun, over all epochs.
    pub begun: usize,
    /// How many of them in this epoch.
    pub place: usize,
}

/// A call of the plan on its way, with all that begin within it. This profile's own.
#[derive(Drop)]
pub struct PlannedCall<'s> {
    /// The call that stands: that of the plan, or the latest that began within it.
    pub next: Next<'s>,
    /// Its number.
    pub standing: CallNo,
    /// What is written down of it.
    pub log: CallLog,
}

impl TakenStep {
    /// A step in a state, and the event that it was.
    fn new(first: u32, state: u8, event: Option<Event>) -> TakenStep
        ensures { result ≡ record { first = first; state = state; event = event } }
    {
        TakenStep {
            first,
            state,
            event,
        }
    }
}

/// Whether a step is a restart, which is no step of one call alone.
pub fn is_restart(step: &PlanStep) -> bool
    ensures yes { result ≡ true → step.now ≡ steps.Restarts }
    ensures no { result ≡ false → step.now ≡ steps.Restarts → ⊥ }
{
    matches!(step, PlanStep::Restarts)
}

/// The number of the next call to begin within a call of the plan, behind the one that stands; nothing where the numbers end.
fn number_after(standing: CallNo) -> Option<CallNo>
    ensures next { IfSome result (λ next. next.0 ≡ standing.0 + plan_calls) }
    ensures none { IfNone result (last_number < standing.0 + plan_calls) }
{
    Some(CallNo(standing.0.checked_add(PLAN_CALLS)?))
}

impl CallLog {
    /// Keeps the transcript of the call that stood, where another began.
    fn keep(&mut self, retired: &Retired) -> Result<(), RunFault>
        ensures begun { self.new.begun ≡ self.old.begun }
        ensures place { self.new.place ≡ self.old.place }
        ensures kept { OnOk result (self.new.trail.items ≡ self.old.trail.items ++ retired.now.transcript.items) }
        ensures no_memory { IfErr result (IsBecause ⊥) }
    {
        self.trail.extend_from_slice(retired.transcript.as_slice())?;
        Ok(())
    }
}

/// Why a step isn't idle whose event is refused: it could happen otherwise, the shard counts another number of events, or memory ran out.
fn refused(shard: &Shard<'_>, event: Event, why: Refusal) -> Result<(), RunFault>
    ensures never { IfOk result (λ _. (why ≡ NotEnabled) × NeverOccurs shard.now event) }
    ensures untaken { IfErr result (IsBecause (IsUntaken shard.now event why)) }
    ensures memory { IfErr result (λ fault. fault ≡ faults.NoMemory → why ≡ refusals.NoMemory) }
{
    match (why, event) {
        (Refusal::NotEnabled, Event::OfCall { call, event }) => match shard.can_occur(call, event) {
            Some(false) => Ok(()),
            _ => Err(RunFault::Disagree),
        },
        (Refusal::NoMemory, _) => Err(RunFault::NoMemory),
        _ => Err(RunFault::Disagree),
    }
}

/// The event happens to the shard and to the call that is handed in. Where that is the call that stands, with as many events as its shard counts, the shard isn't
/// asked for it once more.
fn stepped<'s>(
    shard: &mut Shard<'s>,
    next: Next<'s>,
    standing: CallNo,
    events: usize,
    event: Event,
) -> (Next<'s>, Result<Stepped, Refusal>)
    requires { IsCountedAs shard.old standing.0 events }
    ensures { IsStep shard.old shard.new next.entry result.0 event result.1 }
{
    if next.call().0 != standing.0 {
        return shard.step(next, event);
    }
    if next.transcript().len() != events {
        return shard.step(next, event);
    }
    shard.step_held(next, event)
}

impl<'s> PlannedCall<'s> {
    /// A call of the plan as it opens.
    pub fn new(alloc: Global, next: Next<'s>, call: CallNo) -> PlannedCall<'s>
        ensures next { result.next ≡ next.entry }
        ensures standing { result.standing ≡ call }
    {
        PlannedCall {
            next,
            standing: call,
            log: CallLog {
                trail: Vec::new(alloc),
                begun: 0,
                place: 0,
            },
        }
    }
    /// What a step came to whose event was told to the shard, which stands as it is after it: the event, or nothing where it was idle. Where another call began,
    /// that one stands.
    fn settle(
        &mut self,
        shard: &Shard<'s>,
        event: Event,
        begins: CallNo,
        done: Result<Stepped, Refusal>,
    ) -> Result<Option<Event>, RunFault>
        ensures settled { SettlesAs shard.now event done result }
        ensures next { self.new.next ≡ self.old.next }
        ensures standing { self.new.standing ≡ stands_behind self.old.standing begins done }
        ensures kept { IfOk result (λ _. self.new.log.trail.items ≡ self.old.log.trail.items ++ left_of done) }
        ensures begun { self.new.log.begun ≡ self.old.log.begun }
        ensures place { self.new.log.place ≡ self.old.log.place }
    {
        match done {
            Ok(Stepped::Done) => Ok(Some(event)),
            Ok(Stepped::Begun { retired }) => {
                self.standing = begins;
                self.log.keep(&retired)?;
                Ok(Some(event))
            }
            Err(why) => {
                refused(shard, event, why)?;
                Ok(None)
            }
        }
    }

    /// A step of the plan other than a restart: the event that it means, as the shard tells, happens to the shard and to the call that stands, or the step is
    /// idle, since the event can't happen in the shard, whatever call is handed in. `Disagree` where the numbers of calls end, where the call that stands isn't
    /// open in the shard, or where the event could happen, but not to this call, or not with so many events; `NoMemory` where memory ran out.
    pub fn step(
        self,
        shard: &mut Shard<'s>,
        step: &PlanStep,
    ) -> (PlannedCall<'s>, Result<TakenStep, RunFault>)
        requires { step.now ≡ steps.Restarts → ⊥ }
        ensures opening { HasSameOpening shard.old shard.new }
        ensures taken { IfOk result.1 (λ told. IsTaken shard.old shard.new (first_of self.entry) step.now told) }
        ensures written { IfOk result.1 (λ told. IsWritten self.entry told.event result.0) }
        ensures begun { result.0.log.begun ≡ self.entry.log.begun }
        ensures place { result.0.log.place ≡ self.entry.log.place }
        ensures not_taken { IfErr result.1 (IsBecause (IsNotTaken shard.old self.entry step.now)) }
    {
        let mut planned = self;
        let Some(begins) = number_after(planned.standing) else {
            return (planned, Err(RunFault::Disagree));
        };
        let Some(told) = shard.meant(planned.standing, begins, step) else {
            return (planned, Err(RunFault::Disagree));
        };
        let first = planned.standing.0 % PLAN_CALLS;
        let state = told.standing.state;
        let Some(event) = told.event else {
            return (planned, Ok(TakenStep::new(first, state, None)));
        };
        shard.keeps_its_run();
        let PlannedCall {
            next,
            standing,
            log,
        } = planned;
        let (next, done) = stepped(shard, next, standing, told.events, event);
        planned = PlannedCall {
            next,
            standing,
            log,
        };
        match planned.settle(shard, event, begins, done) {
            Ok(event) => (planned, Ok(TakenStep::new(first, state, event))),
            Err(fault) => (planned, Err(fault)),
        }
    }
}
