//! The warnings of telephones that are forgotten where calls rest.
use crate::names::{line_name, state_name};
use crate::telephones::{LineTelephones, is_left_lifted};
use mg_names::slots::Slot;
use script_table::Script;
use std::alloc::AllocError;

/// Adds a warning of the telephone at a line in a state, behind a comma where another stands before it.
fn write_warning(
    out: &mut String,
    script: &Script,
    word: &str,
    state: u8,
    line: Slot,
    is_first: bool,
) -> Result<(), AllocError> {
    let gap = if is_first { "" } else { "," };
    let (state, line) = (state_name(script, state), line_name(script, line));
    write!(
        out,
        r#"{gap}{{"warning":"{word}","state":"{state}","names":["{line}"]}}"#
    )
}

/// The warning of a telephone that is left lifted in a state.
fn left_lifted(script: &Script, state: u8) -> &'static str {
    if script.ends_in(state) {
        "lifted_at_end"
    } else {
        "lifted_in_silence"
    }
}

/// Adds what is warned of the telephone at a line in a state; says whether none stands there yet.
fn write_if_forgotten(
    out: &mut String,
    script: &Script,
    of_line: &LineTelephones,
    state: u8,
    is_first: bool,
) -> Result<bool, AllocError> {
    let Some(one) = of_line.states.get(state as usize) else {
        return Ok(is_first);
    };
    let mut is_none = is_first;
    if is_left_lifted(script, state, one) {
        let word = left_lifted(script, state);
        write_warning(out, script, word, state, of_line.line, is_none)?;
        is_none = false;
    }
    if one.is_heard {
        write_warning(out, script, "heard_put_down", state, of_line.line, is_none)?;
        is_none = false;
    }
    Ok(is_none)
}

/// Adds the warnings of the telephone at a line, state by state; says whether none stands there yet.
fn write_of_line(
    out: &mut String,
    script: &Script,
    of_line: &LineTelephones,
    is_first: bool,
) -> Result<bool, AllocError> {
    let mut is_none = is_first;
    for state in 0..script.states() {
        is_none = write_if_forgotten(out, script, of_line, state as u8, is_none)?;
    }
    Ok(is_none)
}

/// Adds the warnings of telephones, line by line, behind those that stand there, if any do. The only error is running out of memory.
pub(crate) fn write_forgotten(
    out: &mut String,
    script: &Script,
    telephones: &[LineTelephones],
    is_first: bool,
) -> Result<(), AllocError> {
    let mut is_none = is_first;
    for of_line in telephones {
        is_none = write_of_line(out, script, of_line, is_none)?;
    }
    Ok(())
}
