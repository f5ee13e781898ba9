//! A shard as a row opens it, of a script that is checked.
use agent::Next;
use composition::{CheckFault, Checked, Verdict, check};
use mg_names::identifiers::{CallNo, LineNo};
use shards::{OpenFault, OpenedCall, Shard};
use std::alloc::Global;
use test_layers::pages::{Answer, Page};
use test_layers::words::Words;

/// The most lines of a call, and the most calls, that a row names.
const MOST: usize = 16;

/// Adds the lines that words name by their numbers.
fn add_lines(lines: &mut Vec<LineNo>, words: &mut Words<'_>) -> Answer {
    for _ in 0..MOST {
        let Some(line) = words.number() else {
            return Answer::NoCall;
        };
        if lines.push(LineNo(line)).is_err() {
            return Answer::NoMemory;
        }
        if words.rest().is_empty() {
            return Answer::Told;
        }
    }
    Answer::NoCall
}

/// Adds a call with which a shard opens: `0 on 1 2`.
fn add_call(alloc: Global, calls: &mut Vec<OpenedCall>, text: &str) -> Answer {
    let mut words = Words::of(text);
    let call = CallNo(words.number().unwrap_or(0));
    let _on = words.next();
    let mut lines = Vec::new(alloc);
    match add_lines(&mut lines, &mut words) {
        Answer::Told => match calls.push(OpenedCall { call, lines }) {
            Ok(()) => Answer::Told,
            Err(_) => Answer::NoMemory,
        },
        answer => answer,
    }
}

/// Adds the calls with which a shard opens: `0 on 1 2, 1 on 3 4`.
fn add_calls(alloc: Global, calls: &mut Vec<OpenedCall>, text: &str) -> Answer {
    let mut parts = Words::of(text);
    for _ in 0..MOST {
        let answer = add_call(alloc, calls, parts.part(", "));
        if answer != Answer::Told || parts.rest().is_empty() {
            return answer;
        }
    }
    Answer::NoCall
}

/// The calls with which a shard opens.
fn opened_calls(alloc: Global, text: &str) -> Result<Vec<OpenedCall>, Answer> {
    let mut calls = Vec::new(alloc);
    match add_calls(alloc, &mut calls, text) {
        Answer::Told => Ok(calls),
        answer => Err(answer),
    }
}

/// A shard that a row opens, with its calls.
pub(crate) type Opened<'s> = (Shard<'s>, Vec<Next<'s>>);

/// A shard with these calls; what is wrong with them is written.
fn open<'s>(
    page: &mut Page,
    alloc: Global,
    checked: &'s Checked,
    calls: Vec<OpenedCall>,
) -> Result<Opened<'s>, Answer> {
    match Shard::open(alloc, checked, calls, 0, 1) {
        Ok(opened) => Ok(opened),
        Err(OpenFault::NoMemory) => Err(Answer::NoMemory),
        Err(OpenFault::WrongLines) => {
            page.say("WrongLines");
            Err(Answer::Told)
        }
        Err(OpenFault::Taken) => {
            page.say("Taken");
            Err(Answer::Told)
        }
    }
}

/// A shard with the calls that a row writes.
pub(crate) fn opened<'s>(
    page: &mut Page,
    alloc: Global,
    checked: &'s Checked,
    text: &str,
) -> Result<Opened<'s>, Answer> {
    match opened_calls(alloc, text) {
        Ok(calls) => open(page, alloc, checked, calls),
        Err(answer) => Err(answer),
    }
}

/// A script that is checked with its certificate, once more where that wanted memory.
pub(crate) fn checked(alloc: Global, script: &Page, cert: &Page) -> Result<Verdict, CheckFault> {
    let (script, cert) = (script.text().as_bytes(), cert.text().as_bytes());
    match check(alloc, script, cert) {
        Err(CheckFault::NoMemory) => check(alloc, script, cert),
        answer => answer,
    }
}
