//! The descriptors that a command gives to a line.
ghost use Rattle.std.specs.Prelude.{◌≡◌, ℕ, Some, IfOk, OnOk, OnErr, is_some, map, option_map, option_and_then};
ghost use Rattle.mg_model.specs.RequestRun.{with_signals, with_events, with_descriptors, described_row};
ghost use Rattle.line_events.specs.Rows.{row_of};
ghost use Rattle.mg_model.specs.Updates.{with_at};
ghost use Rattle.requests.specs.Commands.{rows_cleared, noted, raised_in, described_line};
ghost use Rattle.requests.specs.Views.{descriptors_of, line_described, line_in_target, command_of};

use crate::command::{LineDescriptors, Newcomer, RequestCommand, Target};
use crate::outcome::LineNote;
use line_events::{EventList, LineFault, LineSet, Note};
use mg_model::line_events::SignalSet;
use mg_names::identifiers::LineNo;
use std::alloc::AllocError;

/// A new Signals descriptor, where a command has one.
fn set_signals(lines: &mut LineSet, line: LineNo, signals: Option<SignalSet>)
    ensures { row_of lines.new ≡ with_at (row_of lines.old) line.0 (option_map (λ row. with_signals row signals) (row_of lines.old line.0)) }
{
    if let Some(set) = signals {
        let _ = lines.signal(line, set);
    }
}

/// A new Events descriptor, where a command has one, with the note that it raises.
fn set_events(
    lines: &mut LineSet,
    line: LineNo,
    events: &Option<EventList>,
    number: u32,
) -> Result<Option<Note>, AllocError>
    ensures rows { OnOk result (row_of lines.new ≡ with_at (row_of lines.old) line.0 (option_map (λ row. (with_events row events.now number).row) (row_of lines.old line.0))) }
    ensures note { IfOk result (λ note. note ≡ option_and_then (λ row. (with_events row events.now number).note) (row_of lines.old line.0)) }
    ensures unchanged { OnErr result (row_of lines.new ≡ row_of lines.old) }
{
    let Some(list) = events else {
        return Ok(None);
    };
    match lines.arm(line, list, number) {
        Ok(note) => Ok(note),
        Err(LineFault::NoMemory) => Err(AllocError),
        Err(_) => Ok(None),
    }
}

/// The descriptors of a command on its line: Signals first, then Events.
fn set_on(
    lines: &mut LineSet,
    line: LineNo,
    descriptors: &LineDescriptors,
    number: u32,
) -> Result<Option<Note>, AllocError>
    ensures rows { OnOk result (row_of lines.new ≡ with_at (row_of lines.old) line.0 (option_map (λ row. (with_descriptors row (descriptors_of descriptors.now) number).row) (row_of lines.old line.0))) }
    ensures note { IfOk result (λ note. note ≡ option_and_then (λ row. (with_descriptors row (descriptors_of descriptors.now) number).note) (row_of lines.old line.0)) }
    ensures there { (n : ℕ) → is_some (row_of lines.new n) ≡ is_some (row_of lines.old n) }
{
    set_signals(lines, line, descriptors.signals);
    set_events(lines, line, &descriptors.events, number)
}

/// The descriptors of a command, if they are for a line, with the note that they raise.
pub(crate) fn set_described(
    lines: &mut LineSet,
    described: &Option<(LineNo, &LineDescriptors)>,
    number: u32,
) -> Result<Option<LineNote>, AllocError>
    ensures rows { OnOk result ((n : ℕ) → row_of lines.new n ≡ option_map (λ row. described_row (line_described described.now) row n number) (row_of lines.old n)) }
    ensures note { IfOk result (λ note. noted note ≡ raised_in (row_of lines.old) (line_described described.now) number) }
    ensures there { (n : ℕ) → is_some (row_of lines.new n) ≡ is_some (row_of lines.old n) }
{
    let Some((line, descriptors)) = described else {
        return Ok(None);
    };
    match set_on(lines, *line, descriptors, number)? {
        Some(note) => Ok(Some(LineNote { line: *line, note })),
        None => Ok(None),
    }
}

/// Clears the lines that went to the null context.
pub(crate) fn clear_lines(lines: &mut LineSet, gone: &[LineNo])
    ensures { (n : ℕ) → row_of lines.new n ≡ rows_cleared (map (λ l. l.0) gone.now) (row_of lines.old) n }
{
    for line in gone {
        let _ = lines.clear(*line);
    }
}

/// The line that a target is, with its descriptors.
fn described_in(target: &Target) -> Option<(LineNo, &LineDescriptors)>
    ensures { line_described result ≡ line_in_target target.now }
{
    match target {
        Target::Line { line, descriptors } => Some((*line, descriptors)),
        Target::Ephemeral(_) => None,
    }
}

/// The line that the descriptors of a command are for, with them.
pub(crate) fn described(command: &RequestCommand) -> Option<(LineNo, &LineDescriptors)>
    ensures { line_described result ≡ described_line (command_of command.now) }
{
    match command {
        RequestCommand::Add {
            added: Newcomer::Line { line, descriptors },
            ..
        } => Some((*line, descriptors)),
        RequestCommand::Modify { target, .. } => described_in(target),
        RequestCommand::Move { target, .. } => described_in(target),
        _ => None,
    }
}
