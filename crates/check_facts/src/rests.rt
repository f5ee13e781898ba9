//! What is so where calls rest, state by state: who hears whom, which notes the lists of the lines raise, how far a request has come where a mark is needed,
//! what is so of the telephones, and whether calls can be moved and brought to their ends. Each is what `call_ways` or `call_ends` answers of the configurations
//! that calls come to.
use crate::names::{line_name, state_name};
use crate::telephone_facts::write_telephones;
use crate::telephones::LineTelephones;
use crate::worth::Worth;
use call_ends::ending::StateEnding;
use call_ways::reached::Reached;
use call_ways::{Sight, is_shown};
use mg_model::transitions::Pair;
use mg_names::kinds::Kind;
use mg_names::phases::LinkPhase;
use mg_names::slots::Slot;
use script_table::Script;
use std::alloc::{AllocError, Global};

/// A script with the configurations that calls come to, and what is known of their ends and their telephones.
#[derive(Clone, Copy)]
struct Seen<'a> {
    alloc: Global,
    script: &'a Script,
    reached: &'a Reached,
    endings: &'a [StateEnding],
    telephones: &'a [LineTelephones],
}

impl Seen<'_> {
    /// Whether some of the configurations shows something.
    fn shows(&self, sight: &Sight) -> Result<bool, AllocError> {
        is_shown(self.alloc, self.script, self.reached, sight)
    }
}

/// In which configurations something is so, by whether it is in some, and whether it isn't in some.
fn share(is_so: bool, is_not_so: bool) -> &'static str {
    if !is_so {
        "none"
    } else if is_not_so {
        "some"
    } else {
        "all"
    }
}

/// Adds whether one line hears another where calls rest in a state.
fn write_heard(
    out: &mut String,
    seen: &Seen<'_>,
    state: u8,
    from: Slot,
    to: Slot,
) -> Result<(), AllocError> {
    let hears = seen.shows(&Sight::Hears(state, from, to))?;
    let misses = seen.shows(&Sight::Misses(state, from, to))?;
    let (first, second) = (line_name(seen.script, from), line_name(seen.script, to));
    let part = share(hears, misses);
    write!(out, r#"{{"from":"{first}","to":"{second}","in":"{part}"}}"#)
}

/// Adds which of the other lines hear a line where calls rest in a state.
fn write_hearers(
    out: &mut String,
    seen: &Seen<'_>,
    state: u8,
    from: Slot,
) -> Result<(), AllocError> {
    let slots = Slot::all();
    for to in &slots {
        if to.index() < seen.script.lines() && to.index() != from.index() {
            let is_first = from.index() == 0 && to.index() == 1;
            out.push_str(if is_first { "" } else { "," })?;
            write_heard(out, seen, state, from, *to)?;
        }
    }
    Ok(())
}

/// Adds who hears whom where calls rest in a state.
fn write_hears(out: &mut String, seen: &Seen<'_>, state: u8) -> Result<(), AllocError> {
    let slots = Slot::all();
    for from in &slots {
        if from.index() < seen.script.lines() {
            write_hearers(out, seen, state, *from)?;
        }
    }
    Ok(())
}

/// Adds a note that a line's list raises in a state, behind a comma where it isn't the first.
fn write_note(
    out: &mut String,
    script: &Script,
    state: u8,
    line: Slot,
    kind: Kind,
    is_first: bool,
) -> Result<(), AllocError> {
    let gap = if is_first { "" } else { "," };
    let is_awaited = script.target_of(state, line, kind).is_some();
    let (line, kind) = (line_name(script, line), kind.text());
    write!(
        out,
        r#"{gap}{{"on_line":"{line}","note_kind":"{kind}","awaited":{is_awaited}}}"#
    )
}

/// Adds the notes that a line's lists raise where calls rest in a state, and says whether there is none yet, as there was none before or not.
fn write_notes_of(
    out: &mut String,
    seen: &Seen<'_>,
    state: u8,
    line: Slot,
    is_first: bool,
) -> Result<bool, AllocError> {
    let kinds = [Kind::On, Kind::Of, Kind::Fl, Kind::Full, Kind::Part];
    let mut is_none = is_first;
    for kind in &kinds {
        if seen.shows(&Sight::Raises(state, line, *kind))? {
            write_note(out, seen.script, state, line, *kind, is_none)?;
            is_none = false;
        }
    }
    Ok(is_none)
}

/// Adds the notes that lists raise where calls rest in a state.
fn write_notes(out: &mut String, seen: &Seen<'_>, state: u8) -> Result<(), AllocError> {
    let slots = Slot::all();
    let mut is_none = true;
    for line in &slots {
        if line.index() < seen.script.lines() {
            is_none = write_notes_of(out, seen, state, *line, is_none)?;
        }
    }
    Ok(())
}

/// Adds how far a state's request has come where a mark of it is needed: where a call joins its lines.
fn write_needed(
    out: &mut String,
    seen: &Seen<'_>,
    state: u8,
    pair: &Pair,
) -> Result<(), AllocError> {
    let links = [
        LinkPhase::Sent,
        LinkPhase::Answered,
        LinkPhase::Failed,
        LinkPhase::Resting,
    ];
    let mut gap = "";
    for link in &links {
        if seen.shows(&Sight::JoinsAt(state, *link, *pair))? {
            let word = link.text();
            write!(out, r#"{gap}"{word}""#)?;
            gap = ",";
        }
    }
    Ok(())
}

/// Adds the marks of a state.
fn write_marks(out: &mut String, seen: &Seen<'_>, state: u8) -> Result<(), AllocError> {
    let mut gap = "";
    for pair in seen.script.talk_of(state) {
        let first = line_name(seen.script, pair.first);
        let second = line_name(seen.script, pair.second);
        write!(out, r#"{gap}{{"names":["{first}","{second}"],"needed":["#)?;
        write_needed(out, seen, state, pair)?;
        out.push_str("]}")?;
        gap = ",";
    }
    Ok(())
}

/// Adds whether calls that are in a state can be moved where they rest, and brought to their ends.
fn write_ending(out: &mut String, endings: &[StateEnding], state: u8) -> Result<(), AllocError> {
    match endings.get(state as usize) {
        Some(one) => {
            let (can_end, can_be_moved) = (one.can_end, one.can_be_moved);
            write!(out, r#","can_be_moved":{can_be_moved},"can_end":{can_end}"#)
        }
        None => Ok(()),
    }
}

/// Adds what is so where calls rest in a state.
fn write_state(out: &mut String, seen: &Seen<'_>, state: u8) -> Result<(), AllocError> {
    let rests = seen.shows(&Sight::Rests(state))?;
    let name = state_name(seen.script, state);
    write!(out, r#"{{"state":"{name}","at_rest":{rests},"hears":["#)?;
    if rests {
        write_hears(out, seen, state)?;
    }
    out.push_str(r#"],"notes":["#)?;
    if rests {
        write_notes(out, seen, state)?;
    }
    out.push_str(r#"],"marks":["#)?;
    write_marks(out, seen, state)?;
    out.push_str(r#"],"telephones":["#)?;
    if rests {
        write_telephones(out, seen.script, seen.telephones, state)?;
    }
    out.push_str("]")?;
    write_ending(out, seen.endings, state)?;
    out.push_str("}")
}

/// Adds what is so where calls rest, state by state, as a member of a JSON object behind a comma. The only error is running out of memory.
pub(crate) fn write_rests(
    alloc: Global,
    out: &mut String,
    script: &Script,
    worth: &Worth,
) -> Result<(), AllocError> {
    let seen = Seen {
        alloc,
        script,
        reached: &worth.reached,
        endings: worth.endings.as_slice(),
        telephones: worth.telephones.as_slice(),
    };
    out.push_str(r#","rests":["#)?;
    let mut gap = "";
    for state in 0..script.states() {
        out.push_str(gap)?;
        write_state(out, &seen, state as u8)?;
        gap = ",";
    }
    out.push_str("]")
}
