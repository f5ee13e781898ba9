//! `mgexplain [SCRIPT CERTIFICATE [PLAN]] [--json] [--call N] [--strict] | -h | --help | --version`: reads a script and a certificate, from files or as `mgcall
//! check` does from standard input, and tells what that program's line is about. The first line is that line, by the same calls, and the exit status is the
//! same. With a plan behind them the first lines are those of `mgcall run`. `--json` tells the facts as one JSON value: of the check, or with a plan of
//! each step of a run; `--call` tells one call. Sentences and pictures are made of that value elsewhere.
//!
//! `check_facts` tells what the check comes to, with its line, and `run_facts` what a plan comes to, with its report. Here they are asked for what goes
//! with the input (`outcome`), in the form that the words ask for (`words`, with `call_number`), and bound to the process; `documents` reads files.
#![tactic(auto)]

ghost use Rattle.mgexplain.specs.Saying.{IsSent, status_of};

mod call_number;
mod documents;
mod outcome;
mod words;

use crate::documents::read_documents;
use crate::outcome::{Outcome, answered};
use crate::words::{Asked, Request, name_json, read_words};
use check_facts::form::Form;
use program_rim::host::Host;
use program_rim::input::{Input, read_all};
use program_rim::sink::write_all;
use program_rim::status::Status;
use std::process::ExitCode;
use std::sync::Wait;
use std::thread::Threads;
use std::{env, io};

/// How the program is called.
const USAGE: &str = "usage: mgexplain [SCRIPT CERTIFICATE [PLAN]] [--json] [--call N] [--strict]\n";

/// The same as a JSON value.
const USAGE_AS_JSON: &str =
    "{\"format\":2,\"line\":\"usage: mgexplain [SCRIPT CERTIFICATE [PLAN]] [--json] [--call N] [--strict]\",\"status\":2}\n";

/// What it says where there was no memory.
const NO_MEMORY: &str = "no memory\n";

/// The same as a JSON value.
const NO_MEMORY_AS_JSON: &str = "{\"format\":2,\"line\":\"no memory\",\"status\":4}\n";

/// What it says where help is asked for.
const HELP: &str = "usage: mgexplain [SCRIPT CERTIFICATE [PLAN]] [--json] [--call N] [--strict]
Reads the files of a script and a certificate, and tells what the line of mgcall check is about. With the file of a plan it tells what
mgcall run comes to for the three, and what each step of the plan came to. Where no file is named it reads standard input, as these
commands do: a script, a line %%, a certificate, and perhaps another line %% and a plan.
  --json     the facts as one JSON value; without it the line or the report alone
  --call N   the steps of one call of a plan alone
  --strict   status 1 for a yes under which something is warned of, alone or with --json; not with a plan
  -h, --help this
  --version  which version it is
The status is that of mgcall check, with a plan that of mgcall run. mgcall-why tells the facts in words.
";

/// Which version it is.
const VERSION: &str = "mgexplain 0.1.0\n";

/// The words that the process was called with, its own name first.
fn arguments(rt: &HostRuntime) -> io::Result<Vec<String>> {
    let words = env::args(rt)?.collect(rt.alloc())?;
    Ok(words)
}

/// What the words ask for; where they ask for nothing that the program does, how it is called, as JSON where a word asks for that.
fn request(words: &[String]) -> Result<Request, &'static str> {
    match read_words(words) {
        Some(request) => Ok(request),
        None if name_json(words) => Err(USAGE_AS_JSON),
        None => Err(USAGE),
    }
}

/// What is said in a form where there was no memory.
fn no_memory(form: Form) -> &'static str {
    match form {
        Form::Json => NO_MEMORY_AS_JSON,
        Form::Text => NO_MEMORY,
    }
}

/// How the program is called, in a form.
fn usage(form: Form) -> &'static str {
    match form {
        Form::Json => USAGE_AS_JSON,
        Form::Text => USAGE,
    }
}

/// The input: what these files hold, or standard input where there is none.
fn input_of(rt: &HostRuntime, files: &[String]) -> Input {
    if !files.is_empty() {
        return read_documents(rt, files);
    }
    let mut source = Host::new(rt.stdin());
    read_all(rt.alloc(), &mut source)
}

/// Writes a text that goes with a status. A write that fails has a status of its own.
fn send(rt: &HostRuntime, text: &str, status: Status) -> Status
    ensures { IsSent status result }
{
    let mut sink = Host::new(rt.stdout());
    match write_all(&mut sink, text.as_bytes()) {
        Ok(()) => status,
        Err(_) => Status::DeviceFailed,
    }
}

/// Says what came of an input.
fn say(rt: &HostRuntime, form: Form, outcome: Outcome) -> Status
    ensures { IsSent (status_of outcome) result }
{
    match outcome {
        Outcome::Told(said) => send(rt, said.text.as_str(), said.status),
        Outcome::Usage => send(rt, usage(form), Status::Usage),
        Outcome::NoMemory => send(rt, no_memory(form), Status::NoMemory),
        Outcome::ReadFailed => Status::DeviceFailed,
    }
}

/// So many words behind the program's name, which name files.
fn named(words: &[String], files: usize) -> &[String] {
    let [_, behind @ ..] = words else {
        return &[];
    };
    match behind.get(..files) {
        Some(named) => named,
        None => &[],
    }
}

/// Does what these words ask for.
fn answer<R: Threads + Wait + Sync>(rt: &HostRuntime, threads: &R, words: &[String]) -> Status {
    let Request { asked, files } = match request(words) {
        Ok(request) => request,
        Err(usage) => return send(rt, usage, Status::Usage),
    };
    let form = match asked {
        Asked::Saying(form, _) => form,
        Asked::Strictly(form) => form,
        Asked::Help => return send(rt, HELP, Status::Yes),
        Asked::Version => return send(rt, VERSION, Status::Yes),
    };
    let input = input_of(rt, named(words, files));
    let outcome = answered(threads, rt.alloc(), &asked, &input);
    say(rt, form, outcome)
}

fn run<R: Threads + Wait + Sync>(rt: &HostRuntime, threads: &R) -> Status {
    match arguments(rt) {
        Ok(words) => answer(rt, threads, words.as_slice()),
        Err(_) => send(rt, USAGE, Status::Usage),
    }
}

fn main(rt: HostRuntime) -> ExitCode {
    ExitCode::from(run(&rt, &rt).code())
}
