//! What is told of a script with its certificate and a plan: what `mgcall run` writes for them on one worker, which is made by the same calls, and as JSON
//! each step.
ghost use Rattle.std.specs.Prelude.{◌≡◌, IfOk, string_bytes};
ghost use Rattle.check_lines.specs.Replies.{line_of};
ghost use Rattle.run_reports.specs.RunAnswers.{TellsPlanFault, TellsRunFault, call_lines};
ghost use Rattle.plans.specs.Accepted.{IsPlanFor};
ghost use Rattle.program_rim.specs.Statuses.{code_of};
ghost use Rattle.run_facts.specs.Saying.{IsPlanTold, IsReportValue, IsRunOfPlanTold, IsRunTold, IsUnderReport, report_value_text};

use crate::calls::{lines_alone, marks_of, report_facts};
use crate::line_text::report_text;
use crate::quoted_lines::quoted_lines;
use check_facts::form::Form;
use check_facts::said::{IN_WORDS, Said};
use check_facts::told::{fault_told, no_told, unread};
use check_lines::answer::Answer;
use check_lines::check::broken;
use check_lines::reply::Reply;
use composition::{Checked, Verdict, check};
use plans::{Plan, PlanFault};
use program_rim::status::Status;
use run_reports::RunFault;
use run_steps::call_steps::Ran;
use run_steps::{MergedOutcome, PassedSteps};
use runner::{Outcome, run};
use std::alloc::{AllocError, Global};
use std::sync::Wait;
use std::thread::Threads;
use typed_values::Unread;

/// What is said where a plan is not read.
fn plan_reply(unread: Unread<PlanFault>) -> Reply
    ensures { TellsPlanFault unread (line_of result) }
{
    match unread {
        Unread::Fault(fault) => Reply::PlanFault {
            number: fault.number(),
            name: fault.name(),
        },
        Unread::NoMemory => Reply::Checked(Answer::NoMemory),
    }
}

/// What is said where a plan has no report.
fn run_reply(fault: RunFault) -> Reply
    ensures { TellsRunFault fault (line_of result) }
{
    match fault {
        RunFault::NoMemory => Reply::Checked(Answer::NoMemory),
        _ => Reply::RunFault {
            number: fault.number(),
            name: fault.name(),
        },
    }
}

/// Why no steps are told where one call alone is asked for, as a member of a JSON object behind a comma; an empty text where the plan has that call.
fn unknown_call(alloc: Global, plan: &Plan, only: Option<u32>) -> Result<String, AllocError> {
    let calls = plan.calls().len();
    match only {
        Some(call) if call as usize >= calls => {
            format!(in alloc;
                r#","untold":{{"because":"no_such_call","call":{call},"calls":{calls}}}"#
            )
        }
        _ => Ok(String::new(alloc)),
    }
}

/// The JSON value of a report with these lines, and with more members behind them.
fn value_of(alloc: Global, lines: &str, more: &str) -> Result<String, AllocError>
    ensures { IfOk result (λ text. string_bytes text ≡ report_value_text lines.now more.now) }
{
    format!(in alloc; "{{\"format\":2,\"status\":0,\"lines\":[{lines}]{more}}}\n")
}

/// The lines of the report with the steps of their calls, and why steps aren't told, as members of a JSON object behind a comma.
fn step_members(alloc: Global, only: Option<u32>, ran: &Ran<'_, '_>) -> Result<String, AllocError> {
    match report_facts(alloc, ran, only) {
        Ok(told) => {
            let untold = unknown_call(alloc, ran.plan, only)?;
            format!(in alloc; r#","report":[{told}]{untold}"#)
        }
        Err(RunFault::NoMemory) => Err(AllocError),
        Err(_) => {
            let told = lines_alone(alloc, ran)?;
            format!(in alloc; r#","report":[{told}],"untold":{{"because":"steps_disagree"}}"#)
        }
    }
}

/// What is told of a run as a JSON value.
fn run_value(alloc: Global, only: Option<u32>, ran: &Ran<'_, '_>) -> Result<String, AllocError>
    ensures { IfOk result (λ text. IsReportValue (call_lines ran.now.checked.now.table ran.now.outcome.now.lines) (string_bytes text)) }
{
    let lines = quoted_lines(alloc, ran.checked.script(), ran.outcome.outcome().lines())?;
    let more = step_members(alloc, only, ran)?;
    value_of(alloc, lines.as_str(), more.as_str())
}

/// A text with the status of a report.
fn reported(text: String) -> Said
    ensures text { result.text ≡ text }
    ensures status { code_of result.status ≡ 0 }
{
    Said {
        text,
        status: Status::Yes,
    }
}

/// What is told of a run that ended well, of one call of it where that is asked for.
fn outcome_told(
    alloc: Global,
    asked: (Form, Option<u32>),
    ran: &Ran<'_, '_>,
) -> Result<Said, AllocError>
    ensures { IfOk result (IsUnderReport asked.0 ran.now.checked.now.table ran.now.outcome.now.lines) }
{
    let (form, only) = asked;
    match form {
        Form::Text => {
            let report = report_text(alloc, ran.checked.script(), ran.outcome.outcome().lines())?;
            let text = format!(in alloc; "{report}{IN_WORDS}")?;
            Ok(reported(text))
        }
        Form::Json => {
            let text = run_value(alloc, only, ran)?;
            Ok(reported(text))
        }
    }
}

/// What is told of a run that ended well and passed these steps.
fn run_well_told(
    alloc: Global,
    asked: (Form, Option<u32>),
    checked: &Checked,
    plan: &Plan,
    outcome: Outcome<'_>,
    passed: PassedSteps,
) -> Result<Said, AllocError>
    ensures { IfOk result (IsUnderReport asked.0 checked.now.table outcome.entry.lines) }
{
    let marks = marks_of(alloc, passed, plan)?;
    let outcome = MergedOutcome::new(alloc, outcome)?;
    let ran = Ran {
        checked,
        plan,
        outcome: &outcome,
        marks: marks.as_slice(),
    };
    outcome_told(alloc, asked, &ran)
}

/// What is told of a plan that was read, of a script that is checked. It is run on one worker.
fn steps_told<R: Threads + Wait + Sync>(
    rt: &R,
    alloc: Global,
    asked: (Form, Option<u32>),
    checked: &Checked,
    plan: &Plan,
) -> Result<Said, AllocError>
    requires { IsPlanFor checked.now.table plan.now }
    ensures { IfOk result (IsRunOfPlanTold checked.now.table plan.now asked.0) }
{
    let passed = PassedSteps::new(alloc);
    match run(rt, alloc, checked, plan, 1, &passed) {
        Ok(outcome) => run_well_told(alloc, asked, checked, plan, outcome, passed),
        Err(fault) => unread(alloc, asked.0, &run_reply(fault)),
    }
}

/// What is told of a plan of a script that is checked.
fn plan_told<R: Threads + Wait + Sync>(
    rt: &R,
    alloc: Global,
    asked: (Form, Option<u32>),
    checked: &Checked,
    plan: &[u8],
) -> Result<Said, AllocError>
    ensures { IfOk result (IsPlanTold checked.now.table plan.now asked.0) }
{
    match Plan::read(alloc, plan, checked.script()) {
        Ok(steps) => steps_told(rt, alloc, asked, checked, &steps),
        Err(why) => unread(alloc, asked.0, &plan_reply(why)),
    }
}

/// What is told of a script, a certificate and a plan, of which the call with a number alone is told where one is given. The only error is running out of
/// memory.
pub fn run_told<R: Threads + Wait + Sync>(
    rt: &R,
    alloc: Global,
    asked: (Form, Option<u32>),
    sections: (&[u8], &[u8], &[u8]),
) -> Result<Said, AllocError>
    ensures { IfOk result (IsRunTold sections.entry.0.now sections.entry.1.now sections.entry.2.now asked.0) }
{
    let (script, certificate, plan) = sections;
    match check(alloc, script, certificate) {
        Ok(Verdict::Yes(checked)) => plan_told(rt, alloc, asked, &checked, plan),
        Ok(Verdict::No(refuted)) => {
            let reply = Reply::Checked(broken(alloc, &refuted));
            no_told(alloc, asked.0, &reply, &refuted)
        }
        Err(fault) => fault_told(alloc, asked.0, fault),
    }
}
