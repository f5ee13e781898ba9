//! What a yes is worth: what of the script and of its certificate no call uses, lines that no call hears, notes that no state takes, commands that no call gets
//! done, states in which calls are stuck, and telephones that are forgotten where they rest. What there is to warn of is found by `call_ways` and `call_ends`.
use crate::documents::Documents;
use crate::names::{NO_NAME, line_name, state_name};
use crate::telephone_warnings::write_forgotten;
use crate::worth::Worth;
use call_ends::ending::StateEnding;
use call_ways::crossings::Crossing;
use call_ways::{Warning, find_holder, find_unreached};
use mg_names::kinds::Kind;
use mg_names::slots::Slot;
use script_table::Script;
use std::alloc::{AllocError, Global};

/// Adds a warning of a state.
fn write_of_state(
    out: &mut String,
    script: &Script,
    word: &str,
    state: u8,
) -> Result<(), AllocError> {
    let state = state_name(script, state);
    write!(out, r#"{{"warning":"{word}","state":"{state}""#)
}

/// Adds the line that a warning is about.
fn write_line(out: &mut String, script: &Script, line: Slot) -> Result<(), AllocError> {
    let name = line_name(script, line);
    write!(out, r#","names":["{name}"]"#)
}

/// Adds a warning of a note in a state.
fn write_of_note(
    out: &mut String,
    script: &Script,
    word: &str,
    state: u8,
    line: Slot,
    kind: Kind,
) -> Result<(), AllocError> {
    write_of_state(out, script, word, state)?;
    write_line(out, script, line)?;
    let kind = kind.text();
    write!(out, r#","note_kind":"{kind}""#)
}

/// Adds the place of the command that a warning is about.
fn write_command(out: &mut String, place: usize) -> Result<(), AllocError> {
    write!(out, r#","command_place":{place}"#)
}

/// Adds a warning of a state and of what of it.
fn write_state_warning(
    out: &mut String,
    script: &Script,
    warning: &Warning,
) -> Result<(), AllocError> {
    match *warning {
        Warning::StateUnlisted(state) => write_of_state(out, script, "state_unlisted", state),
        Warning::StateNeverLeft(state) => write_of_state(out, script, "state_never_left", state),
        Warning::ArrowUnused(state, line, kind) => {
            write_of_note(out, script, "arrow_unused", state, line, kind)
        }
        Warning::NoteSwallowed(state, line, kind) => {
            write_of_note(out, script, "note_swallowed", state, line, kind)
        }
        Warning::MarkUnneeded(state, pair) => {
            write_of_state(out, script, "mark_unneeded", state)?;
            let (first, second) = (
                line_name(script, pair.first),
                line_name(script, pair.second),
            );
            write!(out, r#","names":["{first}","{second}"]"#)
        }
        Warning::LineDeaf(state, line) => {
            write_of_state(out, script, "line_deaf", state)?;
            write_line(out, script, line)
        }
        Warning::CommandUnsent(state, place) => {
            write_of_state(out, script, "command_unsent", state)?;
            write_command(out, place)
        }
        _ => Ok(()),
    }
}

/// The name of the state that the arrow at a place leads to.
fn state_over<'a>(script: &'a Script, crossings: &[Crossing], arrow: usize) -> &'a str {
    match crossings.get(arrow) {
        Some(crossing) => state_name(script, crossing.arrow.to),
        None => NO_NAME,
    }
}

/// Adds a warning of an arrow.
fn write_of_arrow(
    out: &mut String,
    script: &Script,
    crossings: &[Crossing],
    word: &str,
    arrow: usize,
) -> Result<(), AllocError> {
    let state = state_over(script, crossings, arrow);
    write!(
        out,
        r#"{{"warning":"{word}","state":"{state}","arrow_place":{arrow}"#
    )
}

/// Adds a warning of an arrow and of what of it.
fn write_arrow_warning(
    out: &mut String,
    script: &Script,
    crossings: &[Crossing],
    warning: &Warning,
) -> Result<(), AllocError> {
    match *warning {
        Warning::CommandRefused(arrow, place) => {
            write_of_arrow(out, script, crossings, "command_refused", arrow)?;
            write_command(out, place)
        }
        Warning::RequestEmpty(arrow) => {
            write_of_arrow(out, script, crossings, "request_empty", arrow)
        }
        _ => write_state_warning(out, script, warning),
    }
}

/// Adds a warning of an entry.
fn write_of_entry(out: &mut String, word: &str, place: usize) -> Result<(), AllocError> {
    write!(out, r#"{{"warning":"{word}","entry_place":{place}"#)
}

/// Adds a warning of what a yes is worth.
fn write_warning(
    out: &mut String,
    documents: Documents<'_>,
    worth: &Worth,
    warning: &Warning,
) -> Result<(), AllocError> {
    match *warning {
        Warning::EntryUnreached(place) => write_of_entry(out, "entry_unreached", place),
        Warning::EntryHeld(place) => {
            write_of_entry(out, "entry_held", place)?;
            match find_holder(documents.cert, place) {
                Some(holder) => write!(out, r#","held_by":{holder}"#),
                None => Ok(()),
            }
        }
        Warning::PointUnreached(place) => {
            write_of_entry(out, "point_unreached", place)?;
            match find_unreached(documents.cert, &worth.reached, place) {
                Some(number) => write!(out, r#","point_number":{number}"#),
                None => Ok(()),
            }
        }
        _ => write_arrow_warning(out, documents.script, worth.crossings.as_slice(), warning),
    }
}

/// Adds a warning of calls that are stuck in a state, behind a comma where another stands before it; says whether none stands there yet.
fn write_stuck(
    out: &mut String,
    script: &Script,
    word: &str,
    state: u8,
    is_first: bool,
) -> Result<bool, AllocError> {
    out.push_str(if is_first { "" } else { "," })?;
    write_of_state(out, script, word, state)?;
    out.push_str("}")?;
    Ok(false)
}

/// Adds what is to warn of in how calls that are in a state can be brought to their ends; says whether nothing stands there yet.
fn write_ending(
    out: &mut String,
    script: &Script,
    one: &StateEnding,
    is_first: bool,
) -> Result<bool, AllocError> {
    let mut is_none = is_first;
    if !one.can_be_moved {
        is_none = write_stuck(out, script, "cannot_be_moved", one.state, is_none)?;
    }
    if !one.can_end {
        is_none = write_stuck(out, script, "cannot_end", one.state, is_none)?;
    }
    Ok(is_none)
}

/// Adds the warnings of how calls can be brought to their ends, state by state, behind those that stand there, if any do; says whether nothing stands there
/// yet.
fn write_endings(
    out: &mut String,
    script: &Script,
    endings: &[StateEnding],
    is_first: bool,
) -> Result<bool, AllocError> {
    let mut is_none = is_first;
    for one in endings {
        is_none = write_ending(out, script, one, is_none)?;
    }
    Ok(is_none)
}

/// The warnings of a yes, in their order, as a member of a JSON object behind a comma. The only error is running out of memory.
pub(crate) fn warning_facts(
    alloc: Global,
    documents: Documents<'_>,
    worth: &Worth,
) -> Result<String, AllocError> {
    let mut out = String::new(alloc);
    out.push_str(r#","warnings":["#)?;
    let mut gap = "";
    for warning in worth.warnings.as_slice() {
        out.push_str(gap)?;
        write_warning(&mut out, documents, worth, warning)?;
        out.push_str("}")?;
        gap = ",";
    }
    let script = documents.script;
    let is_none = worth.warnings.is_empty();
    let is_none = write_endings(&mut out, script, worth.endings.as_slice(), is_none)?;
    write_forgotten(&mut out, script, worth.telephones.as_slice(), is_none)?;
    out.push_str("]")?;
    Ok(out)
}
