//! `mgcall run`: a plan of a script that is checked is run, and its report written.
ghost use Rattle.std.specs.Prelude.{◌≡◌, ◌+◌, ◌-◌, ◌^◌, ◌<◌};
ghost use Rattle.check_lines.specs.Writing.{Serves};
ghost use Rattle.check_lines.specs.Replies.{line_of};
ghost use Rattle.run_reports.specs.RunAnswers.{AnswersPlan, AnswersRun, TellsPlanFault, TellsRunFault};
ghost use Rattle.program_rim.specs.Statuses.{failures_of};

use crate::report::write_report;
use check_lines::answer::Answer;
use check_lines::check::{broken, refused};
use check_lines::reply::Reply;
use check_lines::telling::write_reply;
use composition::{Checked, Verdict, check};
use plans::{Plan, PlanFault};
use program_rim::sink::Sink;
use program_rim::status::Status;
use runner::{NoGate, RunFault, run};
use std::alloc::Global;
use std::sync::Wait;
use std::thread::Threads;
use typed_values::Unread;

/// What is said where a plan is not read.
fn plan_reply(unread: Unread<PlanFault>) -> Reply
    ensures { TellsPlanFault unread (line_of result) }
{
    match unread {
        Unread::Fault(fault) => Reply::PlanFault {
            number: fault.number(),
            name: fault.name(),
        },
        Unread::NoMemory => Reply::Checked(Answer::NoMemory),
    }
}

/// What is said where a plan has no report.
fn run_reply(fault: RunFault) -> Reply
    ensures { TellsRunFault fault (line_of result) }
{
    match fault {
        RunFault::NoMemory => Reply::Checked(Answer::NoMemory),
        _ => Reply::RunFault {
            number: fault.number(),
            name: fault.name(),
        },
    }
}

/// Reads a plan of a script that is checked, runs it, and writes its report, or why it has none.
fn write_plan<W: Sink, T: Threads + Wait + Sync>(
    rt: &T,
    alloc: Global,
    checked: &Checked,
    plan: &[u8],
    workers: u16,
    sink: &mut W,
) -> Status
    requires { W.faults sink.old < 2 ^ 64 - 1 }
    ensures output { Serves (AnswersPlan checked.now.table workers plan.now) (W.contents sink.old) (W.contents sink.new) result }
    ensures counted { W.faults sink.new ≡ W.faults sink.old + failures_of result }
{
    let steps = match Plan::read(alloc, plan, checked.script()) {
        Ok(steps) => steps,
        Err(unread) => return write_reply(alloc, &plan_reply(unread), sink),
    };
    match run(rt, alloc, checked, &steps, usize::from(workers), &NoGate) {
        Ok(outcome) => write_report(sink, checked.script(), outcome.lines()),
        Err(fault) => write_reply(alloc, &run_reply(fault), sink),
    }
}

/// Checks a script with its certificate, and where that is a yes, runs a plan of it on so many workers. Writes the report, or what came before it.
pub fn write_run<W: Sink, T: Threads + Wait + Sync>(
    rt: &T,
    alloc: Global,
    sections: (&[u8], &[u8], &[u8]),
    workers: u16,
    sink: &mut W,
) -> Status
    requires { W.faults sink.old < 2 ^ 64 - 1 }
    ensures output { Serves (AnswersRun workers sections.entry.0.now sections.entry.1.now sections.entry.2.now) (W.contents sink.old) (W.contents sink.new) result }
    ensures counted { W.faults sink.new ≡ W.faults sink.old + failures_of result }
{
    let (script, certificate, plan) = sections;
    match check(alloc, script, certificate) {
        Ok(Verdict::Yes(checked)) => write_plan(rt, alloc, &checked, plan, workers, sink),
        Ok(Verdict::No(refuted)) => {
            write_reply(alloc, &Reply::Checked(broken(alloc, &refuted)), sink)
        }
        Err(fault) => write_reply(alloc, &Reply::Checked(refused(fault)), sink),
    }
}
