//! The lines of the report of a run, with the steps of each call of the plan or of one.
use crate::line_text::LineText;
use crate::steps::write_step;
use check_facts::names::state_name;
use mg_names::identifiers::{Assoc, CallNo, LineNo};
use plans::Plan;
use run_reports::{Line, PLAN_CALLS, RunFault};
use run_steps::call_steps::{CallSteps, Ran, call_steps};
use run_steps::{Came, PassedSteps, ToldStep};
use script_table::Script;
use std::alloc::{AllocError, Global};

/// Adds a line of the report without its end, behind a comma where another stands before it.
fn write_line(
    alloc: Global,
    out: &mut String,
    script: &Script,
    line: &Line,
    gap: &str,
) -> Result<(), AllocError> {
    let text = LineText { script, line };
    let text = format!(in alloc; "{text}")?;
    let text = text.as_str().trim_end();
    let (call, begun, phase) = (line.call, line.begun, line.phase.text());
    let (state, events, idle) = (state_name(script, line.state), line.events, line.idle);
    write!(
        out,
        r#"{gap}{{"line":"{text}","call":{call},"begun":{begun}"#
    )?;
    write!(
        out,
        r#","state":"{state}","phase":"{phase}","events":{events},"idle":{idle}"#
    )
}

/// Whether a step is one of the plan's call, or the end of an epoch or a restart of another call.
fn is_own(came: Came) -> bool {
    !matches!(came, Came::EpochEnded | Came::OtherRestarted)
}

/// Whether a step is counted with a line.
fn is_of(step: &ToldStep, line: &Line) -> bool {
    let CallNo(number) = step.call;
    (number / PLAN_CALLS) as usize == line.begun
}

/// Adds the steps of a line, of all that are told of its call.
fn write_steps(
    out: &mut String,
    script: &Script,
    lines: &[LineNo],
    told: &[ToldStep],
    line: &Line,
) -> Result<(), AllocError> {
    out.push_str(r#","steps":["#)?;
    let mut place = 0usize;
    let mut gap = "";
    for step in told {
        if is_of(step, line) {
            out.push_str(gap)?;
            write_step(out, script, lines, place, step)?;
            gap = ",";
        }
        if is_own(step.came) {
            place = place.saturating_add(1);
        }
    }
    out.push_str("]}")
}

/// Adds the lines of a call of the plan, with their steps.
fn write_call(
    alloc: Global,
    out: &mut String,
    script: &Script,
    lines: &[LineNo],
    told: &CallSteps,
) -> Result<(), AllocError> {
    for line in told.lines.as_slice() {
        let gap = if out.is_empty() { "" } else { "," };
        write_line(alloc, out, script, line, gap)?;
        write_steps(out, script, lines, told.steps.as_slice(), line)?;
    }
    Ok(())
}

/// Adds the lines of the call of the plan with a number, with their steps.
fn tell(alloc: Global, out: &mut String, ran: &Ran<'_, '_>, number: u32) -> Result<(), RunFault> {
    let Some(call) = ran.plan.calls().get(number as usize) else {
        return Err(RunFault::Disagree);
    };
    let told = call_steps(alloc, ran, number)?;
    write_call(alloc, out, ran.checked.script(), call.lines(), &told)?;
    Ok(())
}

/// Whether a call is told, where one alone may be asked for.
fn is_told(only: Option<u32>, number: u32) -> bool {
    match only {
        Some(only) => only == number,
        None => true,
    }
}

/// The lines of the report of a run as the members of a JSON list: those of each call of the plan with their steps, or those of the one with a number and
/// of those that began within it. `Disagree` where the run isn't that of the marks, and `NoMemory` where memory ran out.
pub(crate) fn report_facts(
    alloc: Global,
    ran: &Ran<'_, '_>,
    only: Option<u32>,
) -> Result<String, RunFault> {
    let mut out = String::new(alloc);
    for line in ran.outcome.outcome().lines() {
        if !is_told(only, line.call) {
            write_untold(alloc, &mut out, ran.checked.script(), line)?;
        } else if line.begun == 0 {
            tell(alloc, &mut out, ran, line.call)?;
        }
    }
    Ok(out)
}

/// Adds a line of the report whose steps aren't told.
fn write_untold(
    alloc: Global,
    out: &mut String,
    script: &Script,
    line: &Line,
) -> Result<(), AllocError> {
    let gap = if out.is_empty() { "" } else { "," };
    write_line(alloc, out, script, line, gap)?;
    out.push_str("}")
}

/// The lines of the report of a run whose steps aren't what its marks and its history have, which no test has met. The only error is running out of
/// memory.
pub(crate) fn lines_alone(alloc: Global, ran: &Ran<'_, '_>) -> Result<String, AllocError> {
    let mut out = String::new(alloc);
    for line in ran.outcome.outcome().lines() {
        write_untold(alloc, &mut out, ran.checked.script(), line)?;
    }
    Ok(out)
}

/// The associations at the steps of the calls of a plan, of what passed in its run; none where another plan was run. The only error is running out of memory.
pub(crate) fn marks_of(
    alloc: Global,
    passed: PassedSteps,
    plan: &Plan,
) -> Result<Vec<Vec<Assoc>>, AllocError> {
    match passed.marks(alloc, plan) {
        Ok(marks) => Ok(marks),
        Err(RunFault::NoMemory) => Err(AllocError),
        Err(_) => Ok(Vec::new(alloc)),
    }
}
