//! What of a point breaks an obligation: for joined lines with the way that media takes between them, hop by hop, and where a call comes there with the
//! command that left it so. What breaks it and what brought it about is found by `explanation`.
use crate::command_text::CommandText;
use crate::names::{context_name, ephemeral_name, line_name, state_name, termination_name};
use call_ways::way::WayStep;
use configuration::config::Config;
use explanation::{Breach, Cause, Crossing, find_breaches, find_cause, find_path};
use mg_model::commands::Termination;
use mg_model::components::Spot;
use mg_model::transitions::Pair;
use mg_names::obligations::Obligation;
use mg_names::slots::Slot;
use script_table::Script;
use std::alloc::{AllocError, Global};

/// The word of a breach.
fn word(breach: &Breach) -> &'static str {
    match *breach {
        Breach::Joined(_) => "joined",
        Breach::Away(_) => "away",
        Breach::Playing(_) => "playing",
        Breach::NotArmed(_) => "not_armed",
        Breach::Remaining(_) => "remaining",
        Breach::BoundContext(_) => "bound_context",
        Breach::BoundEphemeral(_) => "bound_ephemeral",
        Breach::StaleContext(_) => "stale_context",
        Breach::GoneRemote(_) => "gone_remote",
    }
}

/// The name that a breach is about; of a pair of lines that of the first.
fn name_of<'a>(script: &'a Script, breach: &Breach) -> &'a str {
    match *breach {
        Breach::Joined(pair) => line_name(script, pair.first),
        Breach::Away(line) | Breach::Playing(line) | Breach::NotArmed(line) => {
            line_name(script, line)
        }
        Breach::Remaining(name) | Breach::BoundEphemeral(name) | Breach::GoneRemote(name) => {
            ephemeral_name(script, name)
        }
        Breach::BoundContext(name) | Breach::StaleContext(name) => context_name(script, name),
    }
}

/// Adds a hop of media from one termination to another within their context.
fn write_hop(
    out: &mut String,
    script: &Script,
    config: &Config,
    from: &Termination,
    to: &Termination,
) -> Result<(), AllocError> {
    let (first, second) = (
        termination_name(script, *from),
        termination_name(script, *to),
    );
    let context = match config.spot(*from) {
        Spot::In(context) => context_name(script, context),
        _ => "-",
    };
    write!(
        out,
        r#"{{"from":"{first}","to":"{second}","context":"{context}"}}"#
    )
}

/// Adds the crossing of media from one ephemeral to the other, each of which is the other's Remote.
fn write_crossing(
    out: &mut String,
    script: &Script,
    crossing: &Crossing,
) -> Result<(), AllocError> {
    let first = ephemeral_name(script, crossing.from);
    let second = ephemeral_name(script, crossing.to);
    write!(
        out,
        r#",{{"from":"{first}","to":"{second}","context":null}},"#
    )
}

/// Adds the way of media from one line to another over these crossings, hop by hop.
fn write_hops(
    out: &mut String,
    script: &Script,
    config: &Config,
    from: Slot,
    crossings: &[Crossing],
    to: Slot,
) -> Result<(), AllocError> {
    out.push_str(r#","path":["#)?;
    let mut at = Termination::Line(from);
    for crossing in crossings {
        write_hop(
            out,
            script,
            config,
            &at,
            &Termination::Ephemeral(crossing.from),
        )?;
        write_crossing(out, script, crossing)?;
        at = Termination::Ephemeral(crossing.to);
    }
    write_hop(out, script, config, &at, &Termination::Line(to))?;
    out.push_str("]")
}

/// Adds the way of media from one line to another, and says whether there is one.
fn write_path(
    alloc: Global,
    out: &mut String,
    script: &Script,
    config: &Config,
    from: Slot,
    to: Slot,
) -> Result<bool, AllocError> {
    let Some(crossings) = find_path(alloc, config, from, to)? else {
        return Ok(false);
    };
    write_hops(out, script, config, from, crossings.as_slice(), to)?;
    Ok(true)
}

/// Adds the other line of two that are joined, and the way that media takes between them, from the first to the second if it goes there.
fn write_joined(
    alloc: Global,
    out: &mut String,
    script: &Script,
    config: &Config,
    pair: &Pair,
) -> Result<(), AllocError> {
    let (first, second) = (pair.first, pair.second);
    let name = line_name(script, second);
    write!(out, r#","{name}"]"#)?;
    if write_path(alloc, out, script, config, first, second)? {
        return Ok(());
    }
    write_path(alloc, out, script, config, second, first)?;
    Ok(())
}

/// Adds the command that left a point so.
fn write_cause(out: &mut String, script: &Script, cause: &Cause) -> Result<(), AllocError> {
    let (move_place, place) = (cause.move_place, cause.command_place);
    let Some(command) = cause.commands.as_slice().get(place) else {
        return Ok(());
    };
    let state = state_name(script, cause.state);
    let command = CommandText { script, command };
    write!(
        out,
        r#","left_by":{{"move_place":{move_place},"state":"{state}","command_place":{place},"command":"{command}"}}"#
    )
}

/// Adds a breach without its end: what it is, and the names that it is about.
fn write_breach(
    alloc: Global,
    out: &mut String,
    script: &Script,
    config: &Config,
    breach: &Breach,
) -> Result<(), AllocError> {
    let (word, name) = (word(breach), name_of(script, breach));
    write!(out, r#"{{"breach":"{word}","names":["{name}""#)?;
    match breach {
        Breach::Joined(pair) => write_joined(alloc, out, script, config, pair),
        _ => out.push_str("]"),
    }
}

/// Adds the command of a way that brought a breach about; nothing where none did, as where the call opens so or hears of a restart.
fn write_left_by(
    alloc: Global,
    out: &mut String,
    script: &Script,
    way: &[WayStep],
    breach: &Breach,
) -> Result<(), AllocError> {
    match find_cause(alloc, script, way, breach)? {
        Some(cause) => write_cause(out, script, &cause),
        None => Ok(()),
    }
}

/// Adds all that breaks an obligation of a configuration, to which a way leads; an empty one where none is known. The only error is running out of memory.
pub(crate) fn write_breaches(
    alloc: Global,
    out: &mut String,
    script: &Script,
    config: &Config,
    obligation: Obligation,
    way: &[WayStep],
) -> Result<(), AllocError> {
    let found = find_breaches(alloc, script, config, obligation)?;
    out.push_str(r#","breaches":["#)?;
    let mut gap = "";
    for breach in found.as_slice() {
        out.push_str(gap)?;
        write_breach(alloc, out, script, config, breach)?;
        write_left_by(alloc, out, script, way, breach)?;
        out.push_str("}")?;
        gap = ",";
    }
    out.push_str("]")
}
