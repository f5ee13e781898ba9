//! Writing a reply.
ghost use Rattle.std.specs.Prelude.{◌≡◌, ◌+◌, ◌-◌, ◌^◌, ◌<◌};
ghost use Rattle.check_lines.specs.Writing.{Sends, Tells};
ghost use Rattle.check_lines.specs.Replies.{line_of};
ghost use Rattle.program_rim.specs.Statuses.{failures_of};

use crate::reply::Reply;
use program_rim::sink::{Sink, write_all};
use program_rim::status::Status;
use std::alloc::Global;

/// Writes a line that goes with a status. A write that fails has a status of its own.
fn send<W: Sink>(sink: &mut W, line: &[u8], status: Status) -> Status
    requires { W.faults sink.old < 2 ^ 64 - 1 }
    ensures line { Sends (W.contents sink.old) (W.contents sink.new) line.now status result }
    ensures counted { failures_of status ≡ 0 → W.faults sink.new ≡ W.faults sink.old + failures_of result }
{
    match write_all(sink, line) {
        Ok(()) => status,
        Err(_) => Status::DeviceFailed,
    }
}

/// Writes the line of a reply.
pub fn write_reply<W: Sink>(alloc: Global, reply: &Reply, sink: &mut W) -> Status
    requires { W.faults sink.old < 2 ^ 64 - 1 }
    ensures line { Tells (line_of reply.now) (W.contents sink.old) (W.contents sink.new) result }
    ensures counted { W.faults sink.new ≡ W.faults sink.old + failures_of result }
{
    match format!(in alloc; "{reply}\n") {
        Ok(line) => send(sink, line.as_bytes(), reply.status()),
        Err(_) => send(sink, b"no memory\n", Status::NoMemory),
    }
}
