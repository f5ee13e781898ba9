//! The program from its words and its input to its output.
ghost use Rattle.std.specs.Prelude.{◌≡◌, ◌+◌, ◌-◌, ◌^◌, ◌<◌, map, string_bytes};
ghost use Rattle.check_lines.specs.VerdictLines.{IsLineOfSections};
ghost use Rattle.engine.specs.Engine.{IsOutputOf, IsRunOutput, Runs, ServesRequest};
ghost use Rattle.check_lines.specs.Writing.{Serves};
ghost use Rattle.check_lines.specs.Replies.{line_of};
ghost use Rattle.program_rim.specs.Sections.{pair_of, sections_of, triple_of};
ghost use Rattle.program_rim.specs.Statuses.{failures_of};

use check_lines::answer::Answer;
use check_lines::check::answer;
use check_lines::reply::{InputFault, Reply};
use check_lines::telling::write_reply;
use program_rim::input::{Input, read_all};
use program_rim::sections::{three_sections, two_sections};
use program_rim::sink::Sink;
use program_rim::source::Source;
use program_rim::status::Status;
use program_rim::words::{Request, WordsFault, read_words};
use run_reports::run::write_run;
use std::alloc::Global;
use std::sync::Wait;
use std::thread::Threads;

/// The reply to a whole input within its limit, whose certificate is checked in so many pieces.
fn reply_to_check(rt: &(impl Threads + Sync), alloc: Global, input: &[u8], pieces: u8) -> Reply
    ensures { IsLineOfSections (pair_of (sections_of input.now)) (line_of result) }
{
    match two_sections(input) {
        Some((script, certificate)) => {
            Reply::Checked(answer(rt, alloc, script, certificate, pieces))
        }
        None => Reply::Input(InputFault::Sections),
    }
}

/// Answers a whole input within its limit, whose plan is run on so many workers.
fn serve_run<W: Sink, T: Threads + Wait + Sync>(
    rt: &T,
    alloc: Global,
    input: &[u8],
    workers: u16,
    sink: &mut W,
) -> Status
    requires { W.faults sink.old < 2 ^ 64 - 1 }
    ensures output { Serves (IsRunOutput workers (triple_of (sections_of input.now))) (W.contents sink.old) (W.contents sink.new) result }
    ensures counted { W.faults sink.new ≡ W.faults sink.old + failures_of result }
{
    match three_sections(input) {
        Some(sections) => write_run(rt, alloc, sections, workers, sink),
        None => write_reply(alloc, &Reply::Input(InputFault::Sections), sink),
    }
}

/// Answers a whole input within its limit.
fn serve_input<W: Sink, T: Threads + Wait + Sync>(
    rt: &T,
    alloc: Global,
    request: Request,
    input: &[u8],
    sink: &mut W,
) -> Status
    requires { W.faults sink.old < 2 ^ 64 - 1 }
    ensures output { Serves (IsOutputOf request input.now) (W.contents sink.old) (W.contents sink.new) result }
    ensures counted { W.faults sink.new ≡ W.faults sink.old + failures_of result }
{
    match request {
        Request::Check { pieces } => {
            write_reply(alloc, &reply_to_check(rt, alloc, input, pieces), sink)
        }
        Request::Run { workers } => serve_run(rt, alloc, input, workers, sink),
    }
}

/// Reads the input and answers it. Nothing is written where a read failed.
fn serve_source<S: Source, W: Sink, T: Threads + Wait + Sync>(
    rt: &T,
    alloc: Global,
    request: Request,
    source: &mut S,
    sink: &mut W,
) -> Status
    requires source { S.faults source.old < 2 ^ 64 - 1 }
    requires sink { W.faults sink.old < 2 ^ 64 - 1 }
    ensures output { ServesRequest request (S.remaining source.old) (S.remaining source.new) (W.contents sink.old) (W.contents sink.new) result }
    ensures counted { S.faults source.new + W.faults sink.new ≡ S.faults source.old + W.faults sink.old + failures_of result }
{
    match read_all(alloc, source) {
        Input::Whole(bytes) => serve_input(rt, alloc, request, bytes.as_slice(), sink),
        Input::TooLong => write_reply(alloc, &Reply::Input(InputFault::TooLong), sink),
        Input::NoMemory => write_reply(alloc, &Reply::Checked(Answer::NoMemory), sink),
        Input::Failed => Status::DeviceFailed,
    }
}

/// The whole program. Its status is 6 exactly where the source or the sink failed in this call.
pub fn engine<S: Source, W: Sink, T: Threads + Wait + Sync>(
    rt: &T,
    alloc: Global,
    words: &[String],
    source: &mut S,
    sink: &mut W,
) -> Status
    requires source { S.faults source.old < 2 ^ 64 - 1 }
    requires sink { W.faults sink.old < 2 ^ 64 - 1 }
    ensures output { Runs (map string_bytes words.now) (S.remaining source.old) (S.remaining source.new) (W.contents sink.old) (W.contents sink.new) result }
    ensures counted { S.faults source.new + W.faults sink.new ≡ S.faults source.old + W.faults sink.old + failures_of result }
{
    match read_words(alloc, words) {
        Ok(request) => serve_source(rt, alloc, request, source, sink),
        Err(WordsFault::Refused) => write_reply(alloc, &Reply::Usage, sink),
        Err(WordsFault::NoMemory) => write_reply(alloc, &Reply::Checked(Answer::NoMemory), sink),
    }
}
