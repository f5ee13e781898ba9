//! `run_tour`: reads a script, its certificate and plans, divided by lines `%%`, runs each plan, and prints a line for each call, or the fault of the run. Its first
//! word says on how many workers, one where there is none. With a second word, `meet`, calls 1 and 2 wait for each other before their first steps, and a line
//! says whether they met. With `count` in its place, it prints how many events the calls of each run have in place of its lines, for `tools/bench` to time. With
//! `stop` and a number, workers are stopped at random, by that seed. `stdout` says what it must print for `stdin`. What happened to the call of each line is asked too, once
//! more where that wanted memory; where memory was wanted elsewhere the status is 4. Functions own little and have few exits, which is what their proofs cost by.
#![tactic(auto)]

mod meeting;
mod stopping;
mod tour_gate;

use crate::meeting::Meeting;
use crate::stopping::Stopping;
use crate::tour_gate::TourGate;
use composition::{CheckFault, Checked, Verdict, check};
use mg_names::identifiers::CallNo;
use plans::Plan;
use runner::{Line, Outcome, PLAN_CALLS, RunFault, run};
use script_table::Script;
use std::alloc::Global;
use std::env;
use std::io::{self, Read};
use std::process::ExitCode;
use std::sync::Wait;
use std::thread::Threads;
use typed_values::Unread;

/// What stands between the documents of an input.
const DIVIDER: &str = "\n%%\n";

/// How the tour ended.
#[derive(Clone, Copy)]
enum End {
    /// All is told.
    Well,
    /// Memory ran out.
    NoMemory,
    /// The input isn't what it should be, or an answer isn't, or it can't be read or written.
    Refused,
}

/// What the words ask for: on how many workers, whether events are counted in place of lines, and what is done before each step.
#[derive(Drop)]
struct Asked<'r> {
    workers: usize,
    is_counted: bool,
    gate: TourGate<'r>,
}

/// How it ended where something was printed or couldn't be.
fn printed(answer: io::Result<()>) -> End {
    match answer {
        Ok(()) => End::Well,
        Err(e) if e.kind() == io::ErrorKind::OutOfMemory => End::NoMemory,
        Err(_) => End::Refused,
    }
}

/// Prints the line of a call.
fn tell_line(rt: &HostRuntime, script: &Script, line: &Line) -> End {
    let (call, begun, events, idle) = (line.call, line.begun, line.events, line.idle);
    let name = match script.state(line.state) {
        Some(state) => state.name(),
        None => "-",
    };
    let word = line.phase.text();
    if begun == 0 {
        return printed(println!(rt; "call {call} {name} {word} events={events} idle={idle}"));
    }
    printed(println!(rt; "call {call}.{begun} {name} {word} events={events} idle={idle}"))
}

/// Whether a line counts what happened to its call.
fn counts(alloc: Global, outcome: &Outcome<'_>, line: &Line) -> End {
    let begun = u32::try_from(line.begun).unwrap_or(0);
    let number = begun.saturating_mul(PLAN_CALLS).saturating_add(line.call);
    match outcome.transcript(alloc, CallNo(number)) {
        Ok(events) => {
            if events.len() == line.events {
                End::Well
            } else {
                End::Refused
            }
        }
        Err(_) => End::NoMemory,
    }
}

/// Prints the lines of a run; what happened to a call is asked once more where that wanted memory.
fn tell_lines(rt: &HostRuntime, script: &Script, outcome: &Outcome<'_>) -> End {
    for line in outcome.lines() {
        let mut end = counts(rt.alloc(), outcome, line);
        if end == End::NoMemory {
            end = counts(rt.alloc(), outcome, line);
        }
        if end == End::Well {
            end = tell_line(rt, script, line);
        }
        if end != End::Well {
            return end;
        }
    }
    End::Well
}

/// How many events the calls of a run have in all.
fn events_of(outcome: &Outcome<'_>) -> usize {
    let mut events = 0usize;
    for line in outcome.lines() {
        events = events.saturating_add(line.events);
    }
    events
}

/// Prints what a run came to.
fn tell(rt: &HostRuntime, script: &Script, outcome: &Outcome<'_>, is_counted: bool) -> End {
    if is_counted {
        return printed(println!(rt; "{}", events_of(outcome)));
    }
    tell_lines(rt, script, outcome)
}

/// Prints the fault of a run.
fn tell_fault(rt: &HostRuntime, fault: RunFault) -> End {
    match fault {
        RunFault::NoMemory => End::NoMemory,
        fault => printed(println!(rt; "run fault {} {}", fault.number(), fault.name())),
    }
}

/// A plan for this script, read and run.
fn tour<T: Threads + Wait + Sync>(
    rt: &HostRuntime,
    threads: &T,
    checked: &Checked,
    text: &str,
    asked: &Asked<'_>,
) -> End {
    match Plan::read(rt.alloc(), text.as_bytes(), checked.script()) {
        Ok(plan) => {
            match run(
                threads,
                rt.alloc(),
                checked,
                &plan,
                asked.workers,
                &asked.gate,
            ) {
                Ok(outcome) => tell(rt, checked.script(), &outcome, asked.is_counted),
                Err(fault) => tell_fault(rt, fault),
            }
        }
        Err(Unread::NoMemory) => End::NoMemory,
        Err(Unread::Fault(_)) => End::Refused,
    }
}

/// The plans of a text for this script.
fn tour_all<T: Threads + Wait + Sync>(
    rt: &HostRuntime,
    threads: &T,
    checked: &Checked,
    plans: &str,
    asked: &Asked<'_>,
) -> End {
    for plan in plans.split(DIVIDER) {
        let end = tour(rt, threads, checked, plan, asked);
        if end != End::Well {
            return end;
        }
    }
    End::Well
}

/// The script, the certificate and the plans of an input.
fn sections(text: &str) -> Option<(&str, &str, &str)> {
    let (script, rest) = text.split_once(DIVIDER)?;
    let (certificate, plans) = rest.split_once(DIVIDER)?;
    Some((script, certificate, plans))
}

/// The plans of an input, with its script and its certificate.
fn all<T: Threads + Wait + Sync>(
    rt: &HostRuntime,
    threads: &T,
    text: &str,
    asked: &Asked<'_>,
) -> End {
    let Some((script, certificate, plans)) = sections(text) else {
        return End::Refused;
    };
    match check(rt.alloc(), script.as_bytes(), certificate.as_bytes()) {
        Ok(Verdict::Yes(checked)) => tour_all(rt, threads, &checked, plans, asked),
        Err(CheckFault::NoMemory) => End::NoMemory,
        _ => End::Refused,
    }
}

/// Prints whether calls met, where they were to.
fn tell_meeting(rt: &HostRuntime, gate: &TourGate<'_>) -> End {
    match gate {
        TourGate::Meeting(meeting) if meeting.was_late() => printed(println!(rt; "late")),
        TourGate::Meeting(_) => printed(println!(rt; "met")),
        _ => End::Well,
    }
}

/// The word at a place; an empty one where there is none.
fn word_at(words: &[String], place: usize) -> &str {
    match words.get(place) {
        Some(word) => word.as_str(),
        None => "",
    }
}

/// The gate that the words ask for.
fn gate_of<'r>(rt: &'r HostRuntime, words: &[String]) -> TourGate<'r> {
    match word_at(words, 2) {
        "meet" => TourGate::Meeting(Meeting::new()),
        "stop" => {
            let seed = word_at(words, 3).parse::<u64>().unwrap_or(0);
            TourGate::Stopping(Stopping::new(rt, seed))
        }
        _ => TourGate::Open,
    }
}

/// The input, as the words ask for.
fn tour_input<T: Threads + Wait + Sync>(rt: &HostRuntime, threads: &T, words: &[String]) -> End {
    let asked = Asked {
        workers: word_at(words, 1).parse::<usize>().unwrap_or(1),
        is_counted: word_at(words, 2) == "count",
        gate: gate_of(rt, words),
    };
    let mut text = String::new(rt.alloc());
    let end = match rt.stdin().read_to_string(&mut text) {
        Ok(_) => all(rt, threads, text.as_str(), &asked),
        Err(e) => printed(Err(e)),
    };
    if end == End::Well {
        return tell_meeting(rt, &asked.gate);
    }
    end
}

/// The words that the process was called with.
fn arguments(rt: &HostRuntime) -> io::Result<Vec<String>> {
    let words = env::args(rt)?.collect(rt.alloc())?;
    Ok(words)
}

fn main(rt: HostRuntime) -> ExitCode {
    let end = match arguments(&rt) {
        Ok(words) => tour_input(&rt, &rt, words.as_slice()),
        Err(e) => printed(Err(e)),
    };
    match end {
        End::Well => ExitCode::SUCCESS,
        End::NoMemory => ExitCode::from(4),
        End::Refused => ExitCode::FAILURE,
    }
}
