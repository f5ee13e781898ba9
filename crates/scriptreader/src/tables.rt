//! The tables of a document.
ghost use Rattle.std.specs.Prelude.{◌≡◌, codes, IfOk};
ghost use Rattle.toml.specs.View.{view, table_view};
ghost use Rattle.toml.specs.Data.{get_member};
ghost use Rattle.typed_values.specs.Shape.{Gives};
ghost use Rattle.typed_values.specs.Keys.{has_only};
ghost use Rattle.scriptreader.specs.Documents.{on_at, lines_of, line_of, kinds_of, transition_of, added_to, document_keys, document_in};

use crate::syntax::{
    Document, WrittenCommand, WrittenEvents, WrittenItem, WrittenMap, WrittenPair, WrittenSignal,
    WrittenSignals, WrittenState, WrittenTransition,
};
use crate::{commands, items};
use mg_names::kinds::Kind;
use mg_names::signals::Signal;
use std::alloc::{AllocError, Global};
use toml::{Table, Value};
use typed_values::{
    Missing, Reads, Word, entries, has_only, is_name, listed, member, needed, needed_list,
    optional, table, text, words,
};

impl Reads for WrittenItem {
    ghost use Rattle.scriptreader.specs.Documents.{item_meant};
    ghost use Rattle.scriptreader.specs.declared.syntax.WrittenItem.{WrittenItem};

    ghost Seen = { WrittenItem };

    ghost seen = { λ x. x };

    ghost meaning = { item_meant };

    fn read(alloc: Global, value: &Value) -> Result<WrittenItem, Missing> {
        let text = text(value)?;
        items::item(alloc, text)
    }
}

impl Reads for WrittenSignal {
    ghost use Rattle.scriptreader.specs.Documents.{signal_meant};
    ghost use Rattle.mg_names.specs.declared.signals.Signal.{Signal};

    ghost Seen = { Signal };

    ghost seen = { λ x. x };

    ghost meaning = { signal_meant };

    fn read(_alloc: Global, value: &Value) -> Result<WrittenSignal, Missing> {
        let text = text(value)?;
        match Signal::read(text) {
            Some(signal) => Ok(WrittenSignal { signal }),
            None => Err(Missing::Nothing),
        }
    }
}

impl Reads for WrittenPair {
    ghost use Rattle.scriptreader.specs.Documents.{pair_meant};
    ghost use Rattle.scriptreader.specs.declared.syntax.WrittenPair.{WrittenPair};

    ghost Seen = { WrittenPair };

    ghost seen = { λ x. x };

    ghost meaning = { pair_meant };

    fn read(alloc: Global, value: &Value) -> Result<WrittenPair, Missing> {
        let text = text(value)?;
        items::pair(alloc, text)
    }
}

impl Reads for WrittenCommand {
    ghost use Rattle.scriptreader.specs.Documents.{command_meant};
    ghost use Rattle.scriptreader.specs.declared.syntax.WrittenCommand.{WrittenCommand};

    ghost Seen = { WrittenCommand };

    ghost seen = { λ x. x };

    ghost meaning = { command_meant };

    fn read(alloc: Global, value: &Value) -> Result<WrittenCommand, Missing> {
        let text = text(value)?;
        let words = words(alloc, text)?;
        commands::command(alloc, words.as_slice())
    }
}

impl Reads for WrittenEvents {
    ghost use Rattle.scriptreader.specs.Documents.{events_meant};
    ghost use Rattle.scriptreader.specs.Written.{Events};

    ghost Seen = { Events };

    ghost seen = { λ x. x };

    ghost meaning = { events_meant };

    #[tactic(auto, unfolding(crate::specs::Documents::events_in))]
    fn read(alloc: Global, value: &Value) -> Result<WrittenEvents, Missing> {
        let table = table(value)?;
        if !has_only(alloc, table, &["name", "list"])? {
            return Err(Missing::Nothing);
        }
        let name = needed(alloc, table, "name")?;
        let items = needed_list(alloc, table, "list")?;
        Ok(WrittenEvents { name, items })
    }
}

impl Reads for WrittenSignals {
    ghost use Rattle.scriptreader.specs.Documents.{signals_meant};
    ghost use Rattle.scriptreader.specs.Written.{Signals};

    ghost Seen = { Signals };

    ghost seen = { λ x. x };

    ghost meaning = { signals_meant };

    #[tactic(auto, unfolding(crate::specs::Documents::signals_in))]
    fn read(alloc: Global, value: &Value) -> Result<WrittenSignals, Missing> {
        let table = table(value)?;
        if !has_only(alloc, table, &["name", "list"])? {
            return Err(Missing::Nothing);
        }
        let name = needed(alloc, table, "name")?;
        let items = needed_list(alloc, table, "list")?;
        Ok(WrittenSignals { name, items })
    }
}

impl Reads for WrittenMap {
    ghost use Rattle.scriptreader.specs.Documents.{map_meant};
    ghost use Rattle.scriptreader.specs.declared.syntax.WrittenMap.{WrittenMap};

    ghost Seen = { WrittenMap };

    ghost seen = { λ x. x };

    ghost meaning = { map_meant };

    #[tactic(auto, unfolding(crate::specs::Documents::map_in))]
    fn read(alloc: Global, value: &Value) -> Result<WrittenMap, Missing> {
        let table = table(value)?;
        if !has_only(alloc, table, &["name", "map"])? {
            return Err(Missing::Nothing);
        }
        let name = needed(alloc, table, "name")?;
        let text = needed(alloc, table, "map")?;
        Ok(WrittenMap { name, text })
    }
}

impl Reads for WrittenState {
    ghost use Rattle.scriptreader.specs.Documents.{state_meant};
    ghost use Rattle.scriptreader.specs.Written.{State};

    ghost Seen = { State };

    ghost seen = { λ x. x };

    ghost meaning = { state_meant };

    #[tactic(auto, unfolding(crate::specs::Documents::state_in))]
    fn read(alloc: Global, value: &Value) -> Result<WrittenState, Missing> {
        let table = table(value)?;
        if !has_only(
            alloc,
            table,
            &["name", "do", "talk", "end", "ok", "fault", "timer", "on"],
        )? {
            return Err(Missing::Nothing);
        }
        let name = needed(alloc, table, "name")?;
        let commands = listed(alloc, table, "do")?;
        let talk = listed(alloc, table, "talk")?;
        let is_end = optional(alloc, table, "end")?.unwrap_or(false);
        let ok = optional(alloc, table, "ok")?;
        let fault = optional(alloc, table, "fault")?;
        let timer = optional(alloc, table, "timer")?;
        let on = transitions(alloc, table)?;
        Ok(WrittenState {
            name,
            commands,
            talk,
            is_end,
            ok,
            fault,
            timer,
            on,
        })
    }
}

/// Where a state's notes lead.
fn transitions(alloc: Global, state: &Table) -> Result<Vec<WrittenTransition>, Missing>
    ensures { Gives (λ v. v.items) result (on_at (get_member (codes "on") (table_view state.now))) }
{
    match member(state, "on") {
        Some(on) => of_lines(alloc, table(on)?),
        None => Ok(Vec::new(alloc)),
    }
}

/// Where the notes of these lines lead.
#[tactic(auto, unfolding(crate::specs::Documents::lines_of))]
fn of_lines(alloc: Global, on: &Table) -> Result<Vec<WrittenTransition>, Missing>
    ensures { Gives (λ v. v.items) result (lines_of (table_view on.now)) }
{
    let entries = entries(alloc, on)?;
    let mut found = Vec::new(alloc);
    for entry in &entries {
        of_line(alloc, entry.0.as_str(), entry.1, &mut found)?;
    }
    Ok(found)
}

/// Adds where the notes of one line lead.
#[tactic(auto, unfolding(crate::specs::Documents::line_of))]
fn of_line(
    alloc: Global,
    line: &str,
    kinds: &Value,
    found: &mut Vec<WrittenTransition>,
) -> Result<(), Missing>
    ensures { Gives (λ _. found.new.items) result (added_to found.old.items (line_of line.now (view kinds.now))) }
{
    if !is_name(line) {
        return Err(Missing::Nothing);
    }
    of_kinds(alloc, line, table(kinds)?, found)
}

/// Adds where the kinds of notes of one line lead.
#[tactic(auto, unfolding(crate::specs::Documents::kinds_of))]
fn of_kinds(
    alloc: Global,
    line: &str,
    kinds: &Table,
    found: &mut Vec<WrittenTransition>,
) -> Result<(), Missing>
    ensures { Gives (λ _. found.new.items) result (added_to found.old.items (kinds_of line.now (table_view kinds.now))) }
{
    let entries = entries(alloc, kinds)?;
    for entry in &entries {
        found.push(transition(alloc, line, entry.0.as_str(), entry.1)?)?;
    }
    Ok(())
}

/// Where one kind of note leads.
fn transition(
    alloc: Global,
    line: &str,
    kind: &str,
    target: &Value,
) -> Result<WrittenTransition, Missing>
    ensures { Gives (λ t. t) result (transition_of line.now kind.now (view target.now)) }
{
    let Some(kind) = Kind::read(kind) else {
        return Err(Missing::Nothing);
    };
    let target = text(target)?;
    let target = Word::copy(alloc, target)?;
    let line = Word::copy(alloc, line)?;
    Ok(WrittenTransition { line, kind, target })
}

/// The keys of a document.
const DOCUMENT_KEYS: [&str; 9] = [
    "lines",
    "contexts",
    "ephemerals",
    "start",
    "restart",
    "events",
    "signals",
    "maps",
    "state",
];

/// Whether a table has no other keys than those of a document.
fn has_document_keys(alloc: Global, table: &Table) -> Result<bool, AllocError>
    ensures { IfOk result (λ r. r ≡ has_only document_keys (table_view table.now)) }
{
    has_only(alloc, table, &DOCUMENT_KEYS)
}

/// The document that a whole tree is.
#[tactic(auto, unfolding(crate::specs::Documents::document_in))]
pub fn read_document(alloc: Global, table: &Table) -> Result<Document, Missing>
    ensures { Gives (λ d. d) result (document_in (table_view table.now)) }
{
    if !has_document_keys(alloc, table)? {
        return Err(Missing::Nothing);
    }
    let lines: Vec<Word> = needed_list(alloc, table, "lines")?;
    let contexts = listed(alloc, table, "contexts")?;
    let ephemerals = listed(alloc, table, "ephemerals")?;
    let start = optional(alloc, table, "start")?;
    let restart = optional(alloc, table, "restart")?;
    let events = listed(alloc, table, "events")?;
    let signals = listed(alloc, table, "signals")?;
    let maps = listed(alloc, table, "maps")?;
    let states = listed(alloc, table, "state")?;
    if lines.len() < 2 {
        return Err(Missing::Nothing);
    }
    Ok(Document {
        lines,
        contexts,
        ephemerals,
        start,
        restart,
        events,
        signals,
        maps,
        states,
    })
}
