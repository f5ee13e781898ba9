//! The report of a run, line by line: it is gathered in a little room of its own and takes no memory, so what is written is never cut short for want of some.
ghost use Rattle.std.specs.Prelude.{◌≡◌, ◌+◌, ◌-◌, ◌^◌, ◌<◌, ◌++◌, decimal, is_ok, if◌then◌else◌};
ghost use Rattle.mg_model.specs.Tables.{state_of};
ghost use Rattle.program_rim.specs.Devices.{Passes, WritesFront};
ghost use Rattle.program_rim.specs.Statuses.{failures_of};
ghost use Rattle.check_lines.specs.Writing.{Writes};
ghost use Rattle.check_lines.specs.Output.{call_text, counts_text, number_text, place_text, report, written};
ghost use Rattle.run_reports.specs.RunAnswers.{call_line, call_lines};

use itoa::Buffer;
use program_rim::gathered::Gathered;
use program_rim::sink::Sink;
use program_rim::source::DeviceFault;
use program_rim::status::Status;
use runner::Line;
use script_table::Script;

/// The name of the state at a place; an empty one where the script has no such state. This profile's own.
pub fn state_name(script: &Script, place: u8) -> &str
    ensures { result.now ≡ (state_of script.now place).name }
{
    match script.state(place) {
        Some(state) => state.name(),
        None => "",
    }
}

/// Gathers a number behind a text.
fn put_number<W: Sink>(
    gathered: &mut Gathered,
    sink: &mut W,
    before: &str,
    number: u64,
) -> Result<(), DeviceFault>
    requires { W.faults sink.old < 2 ^ 64 - 1 }
    ensures bytes { Passes (W.contents sink.old) (W.contents sink.new) (gathered.old ++ (before.now ++ decimal number)) result gathered.new }
    ensures counted { W.faults sink.new ≡ W.faults sink.old + (if is_ok result then 0 else 1) }
{
    let mut digits = Buffer::new();
    gathered.put_two(sink, before, digits.format(number))
}

/// Gathers the number of a call.
fn put_call<W: Sink>(
    gathered: &mut Gathered,
    sink: &mut W,
    call: u32,
    begun: usize,
) -> Result<(), DeviceFault>
    requires { W.faults sink.old < 2 ^ 64 - 1 }
    ensures bytes { Passes (W.contents sink.old) (W.contents sink.new) (gathered.old ++ number_text call begun) result gathered.new }
    ensures counted { W.faults sink.new ≡ W.faults sink.old + (if is_ok result then 0 else 1) }
{
    put_number(gathered, sink, "call ", u64::from(call))?;
    if begun == 0 {
        return Ok(());
    }
    put_number(gathered, sink, ".", begun as u64)
}

/// Gathers the state of a call and its phase.
fn put_place<W: Sink>(
    gathered: &mut Gathered,
    sink: &mut W,
    state: &str,
    phase: &str,
) -> Result<(), DeviceFault>
    requires { W.faults sink.old < 2 ^ 64 - 1 }
    ensures bytes { Passes (W.contents sink.old) (W.contents sink.new) (gathered.old ++ place_text state.now phase.now) result gathered.new }
    ensures counted { W.faults sink.new ≡ W.faults sink.old + (if is_ok result then 0 else 1) }
{
    gathered.put_two(sink, " ", state)?;
    gathered.put_two(sink, " ", phase)
}

/// Gathers how many steps of a call were events and how many idle, and ends the line.
fn put_counts<W: Sink>(
    gathered: &mut Gathered,
    sink: &mut W,
    events: usize,
    idle: usize,
) -> Result<(), DeviceFault>
    requires { W.faults sink.old < 2 ^ 64 - 1 }
    ensures bytes { Passes (W.contents sink.old) (W.contents sink.new) (gathered.old ++ counts_text events idle) result gathered.new }
    ensures counted { W.faults sink.new ≡ W.faults sink.old + (if is_ok result then 0 else 1) }
{
    put_number(gathered, sink, " events=", events as u64)?;
    put_number(gathered, sink, " idle=", idle as u64)?;
    gathered.put(sink, "\n")
}

/// Gathers the line of a call.
fn put_line<W: Sink>(
    gathered: &mut Gathered,
    sink: &mut W,
    script: &Script,
    line: &Line,
) -> Result<(), DeviceFault>
    requires { W.faults sink.old < 2 ^ 64 - 1 }
    ensures bytes { Passes (W.contents sink.old) (W.contents sink.new) (gathered.old ++ call_text (call_line script.now line.now)) result gathered.new }
    ensures counted { W.faults sink.new ≡ W.faults sink.old + (if is_ok result then 0 else 1) }
{
    put_call(gathered, sink, line.call, line.begun)?;
    put_place(
        gathered,
        sink,
        state_name(script, line.state),
        line.phase.text(),
    )?;
    put_counts(gathered, sink, line.events, line.idle)
}

/// Writes the lines of a report.
fn write_lines<W: Sink>(sink: &mut W, script: &Script, lines: &[Line]) -> Result<(), DeviceFault>
    requires { W.faults sink.old < 2 ^ 64 - 1 }
    ensures bytes { WritesFront (W.contents sink.old) (W.contents sink.new) result (written (report (call_lines script.now lines.now))) }
    ensures counted { W.faults sink.new ≡ W.faults sink.old + (if is_ok result then 0 else 1) }
{
    let mut gathered = Gathered::new();
    for line in lines {
        put_line(&mut gathered, sink, script, line)?;
    }
    gathered.flush(sink)
}

/// Writes a report. A write that fails has a status of its own, and some front of the report was written.
pub fn write_report<W: Sink>(sink: &mut W, script: &Script, lines: &[Line]) -> Status
    requires { W.faults sink.old < 2 ^ 64 - 1 }
    ensures output { Writes (report (call_lines script.now lines.now)) (W.contents sink.old) (W.contents sink.new) result }
    ensures counted { W.faults sink.new ≡ W.faults sink.old + failures_of result }
{
    match write_lines(sink, script, lines) {
        Ok(()) => Status::Yes,
        Err(_) => Status::DeviceFailed,
    }
}
