//! The arrows of a script of which a yes was told: whether calls go over each, and what becomes there of each command of the state that it leads to. What there
//! is to tell is found by `call_ways`.
use crate::names::{line_name, state_name};
use call_ways::arrows::{Arrow, EnteredBy};
use call_ways::crossings::Crossing;
use call_ways::fate_sets::FateSet;
use script_table::Script;
use std::alloc::AllocError;

/// Adds what an arrow is gone over by.
fn write_by(out: &mut String, script: &Script, by: EnteredBy) -> Result<(), AllocError> {
    match by {
        EnteredBy::Reply => out.push_str(r#""by":"ok""#),
        EnteredBy::Failure => out.push_str(r#""by":"fault""#),
        EnteredBy::Note(line, kind) => {
            let (line, kind) = (line_name(script, line), kind.text());
            write!(out, r#""by":"note","line":"{line}","note_kind":"{kind}""#)
        }
        EnteredBy::Timer => out.push_str(r#""by":"timer""#),
        EnteredBy::Restart => out.push_str(r#""by":"restart""#),
    }
}

/// Adds the state that an arrow leads from; none of a restart, which is heard of in any.
fn write_from(out: &mut String, script: &Script, arrow: &Arrow) -> Result<(), AllocError> {
    if let EnteredBy::Restart = arrow.by {
        return out.push_str(r#""from":null,"#);
    }
    let state = state_name(script, arrow.from);
    write!(out, r#""from":"{state}","#)
}

/// Adds what becomes of a command.
fn write_fates(out: &mut String, fates: &FateSet) -> Result<(), AllocError> {
    let (left_out, not_reached) = (fates.left_out, fates.not_reached);
    let (refused, done) = (fates.refused, fates.done);
    write!(
        out,
        r#"{{"left_out":{left_out},"not_reached":{not_reached},"refused":{refused},"done":{done}}}"#
    )
}

/// Adds what becomes of each command of the state that an arrow leads to.
fn write_commands(
    out: &mut String,
    script: &Script,
    crossing: &Crossing,
) -> Result<(), AllocError> {
    let mut gap = "";
    for place in 0..script.commands_of(crossing.arrow.to).len() {
        out.push_str(gap)?;
        write_fates(out, &crossing.fates_of(place))?;
        gap = ",";
    }
    Ok(())
}

/// Adds an arrow.
fn write_crossing(
    out: &mut String,
    script: &Script,
    crossing: &Crossing,
) -> Result<(), AllocError> {
    out.push_str("{")?;
    write_from(out, script, &crossing.arrow)?;
    write_by(out, script, crossing.arrow.by)?;
    let state = state_name(script, crossing.arrow.to);
    let (entered, empty) = (crossing.entered, crossing.empty);
    write!(
        out,
        r#","to":"{state}","entered":{entered},"empty":{empty},"commands":["#
    )?;
    write_commands(out, script, crossing)?;
    out.push_str("]}")
}

/// Adds the arrows of a yes, in their order, as a member of a JSON object behind a comma. The only error is running out of memory.
pub(crate) fn write_arrows(
    out: &mut String,
    script: &Script,
    crossings: &[Crossing],
) -> Result<(), AllocError> {
    out.push_str(r#","arrows":["#)?;
    let mut gap = "";
    for crossing in crossings {
        out.push_str(gap)?;
        write_crossing(out, script, crossing)?;
        gap = ",";
    }
    out.push_str("]")
}
