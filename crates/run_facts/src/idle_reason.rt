//! The reason for which a step is idle, and what it names.
use crate::names::name_of;
use mg_names::identifiers::LineNo;
use run_steps::{Came, Idle};
use script_table::Script;
use std::alloc::AllocError;
use taken_steps::Numbers;

/// The word of a reason.
fn reason_word(why: Idle) -> &'static str {
    match why {
        Idle::NothingSent => "nothing_sent",
        Idle::NoNoteWaits => "no_note_waits",
        Idle::Waits => "waits",
        Idle::Rests => "rests",
        Idle::HasEnded => "has_ended",
        Idle::Lost { .. } => "lost",
        Idle::NotAwaited { .. } => "not_awaited",
        Idle::NotNew { .. } => "not_new",
        Idle::OtherAssociation { .. } => "other_association",
        Idle::NoTimer => "no_timer",
        Idle::NothingToHear => "nothing_to_hear",
        Idle::NotBegun { .. } => "not_begun",
        Idle::NotOfCall { .. } => "not_of_call",
        Idle::NotOnLine { .. } => "not_on_line",
        Idle::NotReleased => "not_released",
        Idle::NumbersEnd { .. } => "numbers_end",
    }
}

/// The word of messages whose numbers have ended.
fn numbers_word(which: Numbers) -> &'static str {
    match which {
        Numbers::Notes => "notes",
        Numbers::Requests => "requests",
    }
}

/// Adds the requests whose replies a call waits for and has been brought, one of them at least.
fn write_answers(
    out: &mut String,
    expected: Option<u32>,
    came: Option<u32>,
) -> Result<(), AllocError> {
    match (expected, came) {
        (Some(expected), Some(came)) => {
            write!(out, r#","named":{{"expected":{expected},"came":{came}}}"#)
        }
        (Some(expected), None) => write!(out, r#","named":{{"expected":{expected}}}"#),
        (None, Some(came)) => write!(out, r#","named":{{"came":{came}}}"#),
        (None, None) => Ok(()),
    }
}

/// Adds the line of a call that a reason names.
fn write_line(
    out: &mut String,
    script: &Script,
    lines: &[LineNo],
    line: LineNo,
) -> Result<(), AllocError> {
    let name = name_of(script, lines, line);
    write!(out, r#","named":{{"on_line":"{name}"}}"#)
}

/// Adds what a reason names; nothing of one that names nothing.
fn write_named(
    out: &mut String,
    script: &Script,
    lines: &[LineNo],
    why: Idle,
) -> Result<(), AllocError> {
    match why {
        Idle::Lost { own, current } => {
            let (own, current) = (own.0, current.0);
            write!(
                out,
                r#","named":{{"call_association":{own},"gateway_association":{current}}}"#
            )
        }
        Idle::NotAwaited { expected, came } => write_answers(out, expected, came),
        Idle::NotNew { number } | Idle::OtherAssociation { number } => {
            write!(out, r#","named":{{"note_number":{number}}}"#)
        }
        Idle::NotBegun { association } => {
            let number = association.0;
            write!(out, r#","named":{{"association":{number}}}"#)
        }
        Idle::NotOfCall { line } | Idle::NotOnLine { line } => {
            write_line(out, script, lines, line)
        }
        Idle::NumbersEnd { which } => {
            let which = numbers_word(which);
            write!(out, r#","named":{{"which":"{which}"}}"#)
        }
        _ => Ok(()),
    }
}

/// Adds the reason for which a step of a call with these lines is idle, where it is.
pub(crate) fn write_reason(
    out: &mut String,
    script: &Script,
    lines: &[LineNo],
    came: Came,
) -> Result<(), AllocError> {
    let Came::Idle(why) = came else {
        return Ok(());
    };
    let word = reason_word(why);
    write!(out, r#","reason":"{word}""#)?;
    write_named(out, script, lines, why)
}
