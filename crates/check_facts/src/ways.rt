//! The way on which a call comes to the point of a No, move by move with what each changes; or that none does, with the part of the point's entry that
//! calls come to.
use crate::configurations::{write_change, write_configuration, write_entry};
use crate::documents::Documents;
use call_ways::way::{Move, Way, WayStep};
use closure::steps::opening;
use configuration::config::Config;
use explanation::Located;
use explanation::part::{Part, find_part};
use script_table::Script;
use std::alloc::{AllocError, Global};

/// The words of a move: those of its step, as the line of the check has them, or `hear`.
fn words(alloc: Global, script: &Script, by: &Move) -> Result<String, AllocError> {
    match by {
        Move::Takes(name) => script.step_words(alloc, name),
        Move::Hears => String::from_str(alloc, "hear"),
    }
}

/// Adds a move with what it changes.
fn write_move(
    alloc: Global,
    out: &mut String,
    script: &Script,
    step: &WayStep,
    before: &Config,
) -> Result<(), AllocError> {
    let words = words(alloc, script, &step.by)?;
    write!(out, r#"{{"step":"{words}","#)?;
    write_change(alloc, out, script, &step.to, before)?;
    out.push_str("}")
}

/// Adds the moves of a way from the opening.
fn write_moves(
    alloc: Global,
    out: &mut String,
    script: &Script,
    way: &[WayStep],
) -> Result<(), AllocError> {
    let mut before = opening(script);
    let mut gap = "";
    for step in way {
        out.push_str(gap)?;
        write_move(alloc, out, script, step, &before)?;
        before = step.to;
        gap = ",";
    }
    Ok(())
}

/// Adds a way from the opening.
pub(crate) fn write_steps(
    alloc: Global,
    out: &mut String,
    script: &Script,
    way: &[WayStep],
) -> Result<(), AllocError> {
    out.push_str(r#""opening":"#)?;
    write_configuration(alloc, out, script, &opening(script))?;
    out.push_str(r#","moves":["#)?;
    write_moves(alloc, out, script, way)?;
    out.push_str("]")
}

/// Adds the way on which a call comes to a point.
fn write_comes(
    alloc: Global,
    out: &mut String,
    script: &Script,
    way: &[WayStep],
) -> Result<(), AllocError> {
    out.push_str(r#","way":{"comes":true,"#)?;
    write_steps(alloc, out, script, way)?;
    out.push_str("}")
}

/// Adds what of a point's entry calls come to, where none comes to the point.
fn write_part(
    alloc: Global,
    out: &mut String,
    documents: Documents<'_>,
    point: &Located,
) -> Result<(), AllocError> {
    match find_part(alloc, documents.script, documents.cert, point.place)? {
        Part::Within(entry) => {
            let has_point = entry.contains(&point.config);
            write!(
                out,
                r#","part":{{"reached":"some","has_point":{has_point},"entry":"#
            )?;
            write_entry(out, documents.script, &entry)?;
            out.push_str("}")
        }
        Part::Nothing => out.push_str(r#","part":{"reached":"none"}"#),
        Part::Unknown => out.push_str(r#","part":{"reached":"unknown"}"#),
    }
}

/// Adds what is known of the ways to a point. The only error is running out of memory.
pub(crate) fn write_way(
    alloc: Global,
    out: &mut String,
    documents: Documents<'_>,
    point: &Located,
    way: &Way,
) -> Result<(), AllocError> {
    match way {
        Way::Comes(moves) => write_comes(alloc, out, documents.script, moves.as_slice()),
        Way::NeverComes => {
            out.push_str(r#","way":{"comes":false}"#)?;
            write_part(alloc, out, documents, point)
        }
        Way::TooFar => out.push_str(r#","way":{}"#),
    }
}
