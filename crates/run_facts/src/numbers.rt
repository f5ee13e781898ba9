//! The numbers that a gateway gave: to the names of a script, as a call knows them, and to what a command of a request did.
use crate::names::name_of;
use check_facts::names::{context_name, ephemeral_name};
use mg_names::identifiers::LineNo;
use mg_names::slots::Slot;
use script_table::Script;
use std::alloc::AllocError;
use taken_steps::{CommandResult, NamesBound};

/// Adds the contexts of the script that a call knows the number of.
fn write_contexts(out: &mut String, script: &Script, bound: &NamesBound) -> Result<(), AllocError> {
    let mut gap = "";
    for slot in &Slot::all() {
        if let Some(number) = bound.context(*slot) {
            let name = context_name(script, *slot);
            write!(out, r#"{gap}{{"name":"{name}","number":{number}}}"#)?;
            gap = ",";
        }
    }
    Ok(())
}

/// Adds the ephemerals of the script that a call knows the number of.
fn write_ephemerals(
    out: &mut String,
    script: &Script,
    bound: &NamesBound,
) -> Result<(), AllocError> {
    let mut gap = "";
    for slot in &Slot::all() {
        if let Some(number) = bound.ephemeral(*slot) {
            let name = ephemeral_name(script, *slot);
            write!(out, r#"{gap}{{"name":"{name}","number":{number}}}"#)?;
            gap = ",";
        }
    }
    Ok(())
}

/// Adds the names of the script that a call knows the number of.
pub(crate) fn write_bound(
    out: &mut String,
    script: &Script,
    bound: &NamesBound,
) -> Result<(), AllocError> {
    out.push_str(r#","contexts":["#)?;
    write_contexts(out, script, bound)?;
    out.push_str(r#"],"ephemerals":["#)?;
    write_ephemerals(out, script, bound)?;
    out.push_str("]")
}

/// Adds a number with its key, where there is one.
fn write_number(out: &mut String, key: &str, number: Option<u32>) -> Result<(), AllocError> {
    match number {
        Some(number) => write!(out, r#","{key}":{number}"#),
        None => Ok(()),
    }
}

/// Adds the names of lines of the gateway.
fn write_lines(
    out: &mut String,
    script: &Script,
    lines: &[LineNo],
    named: &[LineNo],
) -> Result<(), AllocError> {
    let mut gap = "";
    for line in named {
        let name = name_of(script, lines, *line);
        write!(out, r#"{gap}"{name}""#)?;
        gap = ",";
    }
    Ok(())
}

/// Adds numbers with commas between them.
fn write_numbers(out: &mut String, numbers: &[u32]) -> Result<(), AllocError> {
    let mut gap = "";
    for number in numbers {
        write!(out, "{gap}{number}")?;
        gap = ",";
    }
    Ok(())
}

/// Adds what a reply says of the command at a place, behind a comma where another stands before it.
fn write_result(
    out: &mut String,
    script: &Script,
    lines: &[LineNo],
    place: usize,
    done: &CommandResult,
) -> Result<(), AllocError> {
    let gap = if place == 0 { "" } else { "," };
    write!(out, r#"{gap}{{"command_place":{place}"#)?;
    write_number(out, "context", done.context)?;
    write_number(out, "created", done.created)?;
    out.push_str(r#","subtracted_lines":["#)?;
    write_lines(out, script, lines, done.lines.as_slice())?;
    out.push_str(r#"],"subtracted_ephemerals":["#)?;
    write_numbers(out, done.ephemerals.as_slice())?;
    out.push_str("]}")
}

/// Adds what a reply says of the commands that were done, by the lines of the call.
pub(crate) fn write_results(
    out: &mut String,
    script: &Script,
    lines: &[LineNo],
    results: &[CommandResult],
) -> Result<(), AllocError> {
    out.push_str(r#","results":["#)?;
    for (place, done) in results.iter().enumerate() {
        write_result(out, script, lines, place, done)?;
    }
    out.push_str("]")
}
