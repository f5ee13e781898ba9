//! What is so of the telephones where calls rest in a state.
use crate::names::{line_name, signal_word};
use crate::telephones::LineTelephones;
use mg_model::line_events::SignalSet;
use mg_names::signals::Signal;
use script_table::Script;
use std::alloc::AllocError;

/// Adds the signals of a set.
fn write_signals(out: &mut String, set: &SignalSet) -> Result<(), AllocError> {
    let all = [
        (set.ring, Signal::Ring),
        (set.dial_tone, Signal::DialTone),
        (set.ringing_tone, Signal::RingingTone),
        (set.busy_tone, Signal::BusyTone),
        (set.congestion_tone, Signal::CongestionTone),
    ];
    let mut gap = "";
    for (is_told, signal) in &all {
        if *is_told {
            let word = signal_word(*signal);
            write!(out, r#"{gap}"{word}""#)?;
            gap = ",";
        }
    }
    Ok(())
}

/// Adds what a line may have been given last, or what may play on it, set by set.
fn write_told(out: &mut String, sets: &[SignalSet]) -> Result<(), AllocError> {
    let mut gap = "";
    for set in sets {
        write!(out, "{gap}[")?;
        write_signals(out, set)?;
        out.push_str("]")?;
        gap = ",";
    }
    Ok(())
}

/// Adds what is so of the telephone at a line where calls rest in a state.
fn write_telephone(
    out: &mut String,
    script: &Script,
    of_line: &LineTelephones,
    state: u8,
) -> Result<(), AllocError> {
    let Some(one) = of_line.states.get(state as usize) else {
        return Ok(());
    };
    let line = line_name(script, of_line.line);
    write!(out, r#"{{"on_line":"{line}","told":["#)?;
    write_told(out, one.told.as_slice())?;
    out.push_str(r#"],"plays":["#)?;
    write_told(out, one.plays.as_slice())?;
    let (lifted, silent, heard) = (one.is_lifted, one.is_silent, one.is_heard);
    write!(
        out,
        r#"],"lifted":{lifted},"silent":{silent},"heard_put_down":{heard}}}"#
    )
}

/// Adds what is so of the telephone at each line where calls rest in a state. The only error is running out of memory.
pub(crate) fn write_telephones(
    out: &mut String,
    script: &Script,
    telephones: &[LineTelephones],
    state: u8,
) -> Result<(), AllocError> {
    let mut gap = "";
    for of_line in telephones {
        out.push_str(gap)?;
        write_telephone(out, script, of_line, state)?;
        gap = ",";
    }
    Ok(())
}
