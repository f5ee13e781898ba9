//! A step of a call: what it came to, where the call is before and behind it, its messages, what plays and who hears whom.
use crate::idle_reason::write_reason;
use crate::notes::{write_hears, write_note, write_notes, write_plays};
use crate::plan_words::PlanWords;
use crate::request_facts::{write_executed, write_reply, write_sent};
use check_facts::names::state_name;
use mg_names::identifiers::LineNo;
use run_steps::{Came, Position, ToldStep};
use script_table::Script;
use std::alloc::AllocError;
use taken_steps::Shown;

/// The word of what a step came to.
fn came_word(came: Came) -> &'static str {
    match came {
        Came::Happened(_) => "event",
        Came::Idle(_) => "idle",
        Came::Restarted => "restart",
        Came::EpochEnded => "end of an epoch",
        Came::OtherRestarted => "restart of another call",
    }
}

/// Adds the place of a step of the call; nothing of what is no step of it.
fn write_place(out: &mut String, came: Came, place: usize) -> Result<(), AllocError> {
    match came {
        Came::EpochEnded | Came::OtherRestarted => Ok(()),
        _ => write!(out, r#""step_place":{place},"#),
    }
}

/// Adds where a call is, with a key.
fn write_position(
    out: &mut String,
    script: &Script,
    key: &str,
    position: Position,
) -> Result<(), AllocError> {
    let (state, phase) = (state_name(script, position.state), position.phase.text());
    write!(out, r#","{key}":{{"state":"{state}","phase":"{phase}"}}"#)
}

/// Adds the messages that reached their ends at a step.
fn write_reached(
    out: &mut String,
    script: &Script,
    lines: &[LineNo],
    shown: &Shown,
) -> Result<(), AllocError> {
    if let Some(executed) = &shown.executed {
        write_executed(out, script, lines, executed)?;
    }
    if let Some(reply) = &shown.reply {
        write_reply(out, reply)?;
    }
    if let Some(note) = &shown.note {
        out.push_str(r#","note":"#)?;
        write_note(out, script, lines, note)?;
    }
    Ok(())
}

/// Adds what was sent at a step, what plays behind it, and who hears whom then.
fn write_shown(
    out: &mut String,
    script: &Script,
    lines: &[LineNo],
    shown: &Shown,
) -> Result<(), AllocError> {
    write_reached(out, script, lines, shown)?;
    write_notes(out, script, lines, shown.notes.as_slice())?;
    if let Some(sent) = &shown.sent {
        write_sent(out, script, sent)?;
    }
    write_plays(out, script, shown.plays.as_slice())?;
    write_hears(out, script, lines, shown.hears.as_slice())
}

/// Adds a step of a call with these lines, at a place among its steps. The only error is running out of memory.
pub(crate) fn write_step(
    out: &mut String,
    script: &Script,
    lines: &[LineNo],
    place: usize,
    told: &ToldStep,
) -> Result<(), AllocError> {
    let words = PlanWords {
        script,
        step: told.step,
    };
    let came = came_word(told.came);
    out.push_str("{")?;
    write_place(out, told.came, place)?;
    write!(out, r#""step":"{words}","came":"{came}""#)?;
    write_reason(out, script, lines, told.came)?;
    write_position(out, script, "before", told.before)?;
    write_position(out, script, "after", told.after)?;
    write_shown(out, script, lines, &told.shown)?;
    out.push_str("}")
}
