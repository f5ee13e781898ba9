//! Notes, the signals that play, and who hears whom.
use crate::names::name_of;
use check_facts::names::line_name;
use gateway::{Method, SignalSet};
use mg_names::identifiers::LineNo;
use mg_names::signals::Signal;
use mg_names::slots::Slot;
use script_table::Script;
use std::alloc::AllocError;
use taken_steps::{Hearing, NoteSent};

/// The word of a method.
fn method_word(method: Method) -> &'static str {
    match method {
        Method::Unambiguous => "UM",
        Method::Full => "FM",
        Method::Partial => "PM",
    }
}

/// Adds how a digit map was completed that raised a note, and by which symbols; nothing where none did.
fn write_dialled(out: &mut String, note: &NoteSent) -> Result<(), AllocError> {
    let Some(method) = note.method else {
        return Ok(());
    };
    let method = method_word(method);
    write!(out, r#","method":"{method}","symbols":""#)?;
    for symbol in note.symbols.as_slice() {
        out.push_str(symbol.text())?;
    }
    out.push_str("\"")
}

/// Adds a note, by the lines of its call.
pub(crate) fn write_note(
    out: &mut String,
    script: &Script,
    lines: &[LineNo],
    note: &NoteSent,
) -> Result<(), AllocError> {
    let (number, line) = (note.number, name_of(script, lines, note.line));
    let (kind, request) = (note.kind.text(), note.request);
    write!(
        out,
        r#"{{"note_number":{number},"on_line":"{line}","note_kind":"{kind}","raised_by":{request}"#
    )?;
    write_dialled(out, note)?;
    out.push_str("}")
}

/// Adds notes in a list.
pub(crate) fn write_notes(
    out: &mut String,
    script: &Script,
    lines: &[LineNo],
    notes: &[NoteSent],
) -> Result<(), AllocError> {
    out.push_str(r#","notes":["#)?;
    let mut gap = "";
    for note in notes {
        out.push_str(gap)?;
        write_note(out, script, lines, note)?;
        gap = ",";
    }
    out.push_str("]")
}

/// Adds the signals of a set.
fn write_signals(out: &mut String, set: &SignalSet) -> Result<(), AllocError> {
    let all = [
        (set.ring, Signal::Ring),
        (set.dial_tone, Signal::DialTone),
        (set.ringing_tone, Signal::RingingTone),
        (set.busy_tone, Signal::BusyTone),
        (set.congestion_tone, Signal::CongestionTone),
    ];
    let mut gap = "";
    for (plays, signal) in &all {
        if *plays {
            let signal = signal.text();
            write!(out, r#"{gap}"{signal}""#)?;
            gap = ",";
        }
    }
    Ok(())
}

/// Adds what plays on a line, behind a comma where another stands before it.
fn write_line(out: &mut String, name: &str, set: &SignalSet, gap: &str) -> Result<(), AllocError> {
    write!(out, r#"{gap}{{"on_line":"{name}","signals":["#)?;
    write_signals(out, set)?;
    out.push_str("]}")
}

/// Adds the lines on which something plays, with what plays there, of the signals of each line in the order of the script.
pub(crate) fn write_plays(
    out: &mut String,
    script: &Script,
    plays: &[SignalSet],
) -> Result<(), AllocError> {
    out.push_str(r#","plays":["#)?;
    let mut gap = "";
    for slot in &Slot::all() {
        if let Some(set) = plays.get(slot.index())
            && *set != SignalSet::SILENT
        {
            write_line(out, line_name(script, *slot), set, gap)?;
            gap = ",";
        }
    }
    out.push_str("]")
}

/// Adds which lines hear which.
pub(crate) fn write_hears(
    out: &mut String,
    script: &Script,
    lines: &[LineNo],
    hears: &[Hearing],
) -> Result<(), AllocError> {
    out.push_str(r#","hears":["#)?;
    let mut gap = "";
    for one in hears {
        let (from, to) = (
            name_of(script, lines, one.from),
            name_of(script, lines, one.to),
        );
        write!(out, r#"{gap}{{"from":"{from}","to":"{to}"}}"#)?;
        gap = ",";
    }
    out.push_str("]")
}
