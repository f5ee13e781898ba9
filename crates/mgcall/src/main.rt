//! `mgcall check [--pieces N]`: reads a script and a certificate from standard input, and says in
//! one line whether every obligation holds. `mgcall run [--workers N]`: reads a script, a certificate and a plan, checks the
//! script, runs the plan and writes its report.
//!
//! The program is `engine`, in the crate of that name, over devices of its own; its contract says what it writes
//! for the words and the input, and with which status. What is here binds it to the process: the words of the command
//! line, standard input and output, its threads, and the exit status.
#![tactic(auto)]

use check_lines::answer::Answer;
use check_lines::reply::Reply;
use check_lines::telling::write_reply;
use engine::program::engine;
use program_rim::host::Host;
use program_rim::status::Status;
use std::alloc::Global;
use std::process::ExitCode;
use std::sync::Wait;
use std::thread::Threads;
use std::{env, io};

/// The words that the process was called with, its own name first.
fn arguments(rt: &HostRuntime) -> io::Result<Vec<String>> {
    let words = env::args(rt)?.collect(rt.alloc())?;
    Ok(words)
}

/// The reply where there are no words.
fn reply_to_failure(error: &io::Error) -> Reply {
    match error.kind() {
        io::ErrorKind::OutOfMemory => Reply::Checked(Answer::NoMemory),
        _ => Reply::Usage,
    }
}

fn run(alloc: Global, rt: &HostRuntime, threads: &(impl Threads + Wait + Sync)) -> Status {
    let mut sink = Host::new(rt.stdout());
    match arguments(rt) {
        Ok(words) => {
            let mut source = Host::new(rt.stdin());
            engine(threads, alloc, words.as_slice(), &mut source, &mut sink)
        }
        Err(error) => write_reply(alloc, &reply_to_failure(&error), &mut sink),
    }
}

fn main(rt: HostRuntime) -> ExitCode {
    ExitCode::from(run(rt.alloc(), &rt, &rt).code())
}
