//! `embedding`: checks a script with its certificate, runs a plan of it, and prints what happened to the plan's first call and the state that it is left in.
//! Standard input has the three documents, divided by lines `%%`. `docs/change/EMBED.md` walks through it. It promises nothing of its own.
#![tactic(auto)]

use composition::{Checked, Verdict, check};
use mg_model::events::{CallEvent, Event};
use mg_names::identifiers::CallNo;
use plans::Plan;
use runner::{Line, NoGate, Outcome, run};
use script_table::Script;
use std::io::Read;
use std::process::ExitCode;
use std::sync::Wait;
use std::thread::Threads;

/// The word for an event.
fn word_of(event: &Event) -> &'static str {
    let Event::OfCall { event, .. } = event else {
        return "restart";
    };
    match event {
        CallEvent::OnLine { .. } => "line",
        CallEvent::Execute { .. } => "execute",
        CallEvent::Reply { .. } => "reply",
        CallEvent::Pass => "pass",
        CallEvent::Note { .. } => "note",
        CallEvent::Timer => "timer",
        CallEvent::Begin { .. } => "begin",
        CallEvent::Hear { .. } => "hear",
    }
}

/// Prints what happened to a call; whether it could be printed.
fn tell_events(rt: &HostRuntime, events: &[Event]) -> bool {
    for event in events {
        if println!(rt; "{}", word_of(event)).is_err() {
            return false;
        }
    }
    true
}

/// Prints the name of the state that a call is left in, and its phase.
fn tell_line(rt: &HostRuntime, script: &Script, line: &Line) -> bool {
    match script.state(line.state) {
        Some(state) => println!(rt; "{} {}", state.name(), line.phase.text()).is_ok(),
        None => false,
    }
}

/// Prints what happened to the first call, and the state that it is left in.
fn tell(rt: &HostRuntime, script: &Script, outcome: &Outcome<'_>) -> bool {
    match (
        outcome.transcript(rt.alloc(), CallNo(0)),
        outcome.lines().first(),
    ) {
        (Ok(events), Some(line)) => {
            tell_events(rt, events.as_slice()) && tell_line(rt, script, line)
        }
        _ => false,
    }
}

/// The second and the third call: reads a plan for the script, and runs it.
fn run_plan<T: Threads + Wait + Sync>(
    rt: &HostRuntime,
    threads: &T,
    checked: &Checked,
    plan: &str,
) -> bool {
    match Plan::read(rt.alloc(), plan.as_bytes(), checked.script()) {
        Ok(plan) => match run(threads, rt.alloc(), checked, &plan, 1, &NoGate) {
            Ok(outcome) => tell(rt, checked.script(), &outcome),
            Err(_) => false,
        },
        Err(_) => false,
    }
}

/// The three documents of an input.
fn sections(text: &str) -> Option<(&str, &str, &str)> {
    let (script, rest) = text.split_once("\n%%\n")?;
    let (certificate, plan) = rest.split_once("\n%%\n")?;
    Some((script, certificate, plan))
}

/// The first call: checks a script with its certificate. Nothing is told where a document is refused, memory runs out or a device fails.
fn all<T: Threads + Wait + Sync>(rt: &HostRuntime, threads: &T, text: &str) -> bool {
    let Some((script, certificate, plan)) = sections(text) else {
        return false;
    };
    match check(rt.alloc(), script.as_bytes(), certificate.as_bytes()) {
        Ok(Verdict::Yes(checked)) => run_plan(rt, threads, &checked, plan),
        _ => false,
    }
}

fn main(rt: HostRuntime) -> ExitCode {
    let mut text = String::new(rt.alloc());
    if rt.stdin().read_to_string(&mut text).is_ok() && all(&rt, &rt, text.as_str()) {
        ExitCode::SUCCESS
    } else {
        ExitCode::FAILURE
    }
}
