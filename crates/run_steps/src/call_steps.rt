//! What each step of a call of a plan came to in its run.
ghost use Rattle.std.specs.Prelude.{◌≡◌, ◌==◌, ◌++◌, ◌∷◌, ◌≤◌, [], IfOk, IfSome, OnOk};
ghost use Rattle.std.specs.List.{All, filter};
ghost use Rattle.mg_model.specs.Plans as plans;
ghost use Rattle.run_account.specs.FinalState.{call_of};
ghost use Rattle.run_steps.specs.CallsTold.{IsCallTold, IsLineTold, event_told, events_told, idle_told, idle_told_in, is_part_of};
ghost use Rattle.run_steps.specs.Telling.{IsFirst, IsGone, own_steps};

use crate::merged_outcome::MergedOutcome;
use crate::showing::open_scene;
use crate::telling::Telling;
use crate::told_step::ToldStep;
use composition::Checked;
use mg_model::events::Event;
use mg_names::identifiers::{Assoc, CallNo};
use plans::{Plan, PlanCall};
use run_account::{Line, Outcome, PLAN_CALLS, RunFault, epochs_of, opened_call};
use std::alloc::{AllocError, Global};
use taken_steps::{Came, OpenFault, Shard};

/// A call of a plan, told step by step. This profile's own.
#[derive(Drop)]
pub struct CallSteps {
    /// Its lines in the report: its own, and those of the calls that began within it, in order.
    pub lines: Vec<Line>,
    /// Its steps, those of the calls that began within it too, and the restarts among them.
    pub steps: Vec<ToldStep>,
}

/// A run of a plan on one worker.
#[derive(Clone, Copy)]
pub struct Ran<'a, 's> {
    /// The script.
    pub checked: &'a Checked,
    /// The plan.
    pub plan: &'a Plan,
    /// What it came to, with its history.
    pub outcome: &'a MergedOutcome<'s>,
    /// The association of the gateways at each step of each call, as `PassedSteps` has it.
    pub marks: &'a [Vec<Assoc>],
}

/// A call of a plan that opens on a gateway of its own.
fn open<'s>(
    alloc: Global,
    checked: &'s Checked,
    number: u32,
    call: &PlanCall,
) -> Result<Telling<'s>, RunFault>
    ensures { IfOk result (λ telling. IsFirst checked.now.table (plans.opened_as number call.now) telling) }
{
    let mut calls = Vec::new(alloc);
    calls.push(opened_call(alloc, number, call)?)?;
    let (shard, mut nexts) = match Shard::open(alloc, checked, calls, 0, 1) {
        Ok(opened) => opened,
        Err(OpenFault::NoMemory) => return Err(RunFault::NoMemory),
        Err(_) => return Err(RunFault::Disagree),
    };
    let Some(next) = nexts.pop() else {
        return Err(RunFault::Disagree);
    };
    let number = CallNo(number);
    Ok(Telling {
        shard,
        next,
        number,
        scene: open_scene(alloc, checked.script(), number, call.lines())?,
        steps: Vec::new(alloc),
    })
}

/// Whether an event is one of a call of the plan, or of one that began within it, or a restart.
fn belongs(event: &Event, number: u32) -> bool
    ensures { result ≡ is_part_of number event.now }
{
    match *event {
        Event::OfCall { call, .. } => call.0 % PLAN_CALLS == number,
        Event::Restart => true,
    }
}

/// The events of a history that are of a call of the plan, and the restarts.
fn part_of(alloc: Global, history: &[Event], number: u32) -> Result<Vec<Event>, AllocError>
    ensures { IfOk result (λ part. part.items ≡ filter (is_part_of number) history.now) }
{
    let mut part = Vec::new(alloc);
    for event in history {
        if belongs(event, number) {
            part.push(*event)?;
        }
    }
    Ok(part)
}

/// Adds the event that is told of a step, where it is one of a call.
fn push_event(events: &mut Vec<Event>, step: &ToldStep, number: CallNo) -> Result<(), AllocError>
    ensures { OnOk result (events.new.items ≡ events.old.items ++ event_told number.0 step.now.call.0 step.now.came) }
{
    let Came::Happened(event) = step.came else {
        return Ok(());
    };
    if step.call.0 == number.0 {
        events.push(event)?;
    }
    Ok(())
}

/// The events that are told of a call.
fn events_told(alloc: Global, steps: &[ToldStep], number: CallNo) -> Result<Vec<Event>, AllocError>
    ensures { IfOk result (λ events. events.items ≡ events_told number.0 steps.now) }
{
    let mut events = Vec::new(alloc);
    for step in steps {
        push_event(&mut events, step, number)?;
    }
    Ok(events)
}

/// 1 for an idle step of a call, and 0 for any other.
fn idle_in(step: &ToldStep, number: CallNo) -> usize
    ensures counted { result ≡ idle_told_in number.0 step.now.call.0 step.now.came }
    ensures few { result ≤ 1 }
{
    let Came::Idle(_) = step.came else {
        return 0;
    };
    if step.call.0 == number.0 { 1 } else { 0 }
}

/// How many idle steps are told of a call.
fn idle_told(steps: &[ToldStep], number: CallNo) -> usize
    ensures { result ≡ idle_told number.0 steps.now }
{
    let mut idle = 0usize;
    for step in steps {
        idle = idle.saturating_add(idle_in(step, number));
    }
    idle
}

/// The number of the call of a line.
fn call_of(line: &Line) -> Option<CallNo>
    ensures { IfSome result (λ number. number.0 ≡ call_of line.now) }
{
    let begun = u32::try_from(line.begun).ok()?;
    let number = begun.checked_mul(PLAN_CALLS)?;
    Some(CallNo(number.checked_add(line.call)?))
}

/// Tests that what is told of the call of a line is what the run has of it. `Disagree` where it isn't.
fn agree(
    alloc: Global,
    outcome: &Outcome<'_>,
    steps: &[ToldStep],
    line: &Line,
) -> Result<(), RunFault>
    ensures { OnOk result (IsLineTold outcome.now.history steps.now line.now) }
{
    let Some(number) = call_of(line) else {
        return Err(RunFault::Disagree);
    };
    let transcript = outcome.transcript(alloc, number)?;
    let events = events_told(alloc, steps, number)?;
    let events = events.as_slice();
    if events != transcript.as_slice() {
        return Err(RunFault::Disagree);
    }
    if events.len() != line.events {
        return Err(RunFault::Disagree);
    }
    if idle_told(steps, number) != line.idle {
        return Err(RunFault::Disagree);
    }
    Ok(())
}

/// Adds a line of the report where it is of a call of the plan or of one that began within it, and has to be what is told. `Disagree` where it isn't.
fn push_line(
    lines: &mut Vec<Line>,
    alloc: Global,
    outcome: &Outcome<'_>,
    steps: &[ToldStep],
    number: u32,
    line: Line,
) -> Result<(), RunFault>
    ensures lines { OnOk result (lines.new.items ≡ lines.old.items ++ filter (λ l. l.call == number) (line ∷ [])) }
    ensures told { OnOk result (All (IsLineTold outcome.now.history steps.now) lines.old.items → All (IsLineTold outcome.now.history steps.now) lines.new.items) }
{
    if line.call != number {
        return Ok(());
    }
    agree(alloc, outcome, steps, &line)?;
    lines.push(line)?;
    Ok(())
}

/// The lines of a call of the plan and of those that began within it, each of which has to be what is told. `Disagree` where one isn't.
fn agreed_lines(
    alloc: Global,
    outcome: &Outcome<'_>,
    steps: &[ToldStep],
    number: u32,
) -> Result<Vec<Line>, RunFault>
    ensures lines { IfOk result (λ lines. lines.items ≡ filter (λ l. l.call == number) outcome.now.lines) }
    ensures told { IfOk result (λ lines. All (IsLineTold outcome.now.history steps.now) lines.items) }
{
    let mut lines = Vec::new(alloc);
    for line in outcome.lines() {
        let line: Line = *line;
        push_line(&mut lines, alloc, outcome, steps, number, line)?;
    }
    Ok(lines)
}

/// How often the gateways restart in a history.
fn restarts_in(history: &[Event]) -> u64 {
    let mut restarts = 0u64;
    for event in history {
        if let Event::Restart = event {
            restarts = restarts.saturating_add(1);
        }
    }
    restarts
}

/// The steps of a call of the plan, taken on a gateway of its own, which has to go through what the run's history has of it. `Disagree` where it doesn't.
fn gone(
    alloc: Global,
    ran: &Ran<'_, '_>,
    number: u32,
    call: &PlanCall,
    marks: &[Assoc],
) -> Result<Vec<ToldStep>, RunFault>
    ensures steps { IfOk result (λ steps. own_steps steps.items ≡ plans.steps_in (plans.epochs_of ran.now.plan.now.calls) call.now.epochs) }
    ensures gone { IfOk result (λ steps. IsGone ran.now.checked.now.table (plans.opened_as number call.now) steps.items (filter (is_part_of number) ran.now.outcome.now.history)) }
{
    let part = part_of(alloc, ran.outcome.history(), number)?;
    let last = Assoc(restarts_in(part.as_slice()).saturating_add(1));
    let telling = open(alloc, ran.checked, number, call)?;
    let telling = telling.take_epochs(epochs_of(ran.plan), call.epochs(), marks)?;
    let telling = telling.wait_for(last)?;
    if telling.shard.history() != part.as_slice() {
        return Err(RunFault::Disagree);
    }
    Ok(telling.steps)
}

/// What each step of the call of a plan with this number came to. `Disagree` where the plan has no such call, or where its outcome is of another run than
/// the marks; `NoMemory` where memory ran out. This profile's own.
pub fn call_steps(alloc: Global, ran: &Ran<'_, '_>, number: u32) -> Result<CallSteps, RunFault>
    ensures { IfOk result (λ told. IsCallTold ran.now.checked.now.table ran.now.plan.now ran.now.outcome.now number told) }
{
    let Some(call) = ran.plan.calls().get(number as usize) else {
        return Err(RunFault::Disagree);
    };
    let Some(marks) = ran.marks.get(number as usize) else {
        return Err(RunFault::Disagree);
    };
    let steps = gone(alloc, ran, number, call, marks.as_slice())?;
    let lines = agreed_lines(alloc, ran.outcome.outcome(), steps.as_slice(), number)?;
    Ok(CallSteps { lines, steps })
}
