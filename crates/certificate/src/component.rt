//! The values that a written entry gives each component of a configuration.
ghost use Rattle.std.specs.Prelude.{◌≡◌, false, option_and_then, option_map};
ghost use Rattle.mg_names.specs.Words.{context_value_named, link_named, mode_named};
ghost use Rattle.certificate.specs.Ranks.{context_rank, events_rank, link_rank, mode_rank, remote_rank, spot_rank, switch_rank};
ghost use Rattle.certificate.specs.Components.{component_meant, set_of, set_or};
ghost use Rattle.certificate.specs.NamedRows.{IsNamed};
ghost use Rattle.certificate.specs.Naming.{cut_named, ephemeral_spot_named, line_spot_named, plays_named, remote_named};
ghost use Rattle.mg_model.specs.Entries.{contexts, cuts, events, links, modes, plays, remotes, spots};
ghost use Rattle.entry_table.specs.Shown.{shown};
ghost use Rattle.typed_values.specs.Shape.{Gives};
ghost use Rattle.script_table.specs.Table.{list_named};

use crate::entry_rows::NamedRows;
use crate::key::Key;
use crate::ranked::Ranked;
use crate::vocabulary::{
    ContextNames, ContextValues, Cuts, EphemeralNames, EphemeralSpots, LineNames, LineSpots, Links,
    Lists, Modes, Plays, Remotes, Vocabulary, read_set,
};
use crate::written::{WrittenEntry, WrittenEphemeral, WrittenLine};
use entry_table::{Component, Values};
use mg_model::commands::{EventsName, Termination};
use mg_model::components::{Remote, Spot};
use mg_names::context_values::ContextValue;
use mg_names::modes::Mode;
use mg_names::phases::LinkPhase;
use mg_names::slots::Slot;
use script_table::Script;
use std::alloc::Global;
use typed_values::{Missing, Words};

/// The set that some words name, or the default alone where nothing is written.
fn set_or<T: Ranked + Drop, V: Vocabulary<T>>(
    alloc: Global,
    vocabulary: &V,
    default: T,
    words: Option<&Words>,
) -> Result<Values<T>, Missing>
    ensures { Gives (λ set. set) result
        (set_or T.place (V.named vocabulary.now) default (option_map (λ w. w.now) words.entry)) }
{
    let Some(words) = words else {
        return Ok(Values::one(default));
    };
    read_set(alloc, vocabulary, words.as_slice())
}

/// The links of an entry.
fn links(alloc: Global, entry: &WrittenEntry) -> Result<Component, Missing>
    ensures { Gives shown result (option_map links (set_of link_rank link_named entry.now.link)) }
{
    let values = read_set(alloc, &Links, entry.link.as_slice())?;
    Ok(Component::Links(values))
}

/// Where a line may stand.
fn line_spots(
    alloc: Global,
    script: &Script,
    slot: Slot,
    line: Option<&WrittenLine>,
) -> Result<Component, Missing>
    ensures { Gives shown result (option_map (spots (Termination.Line slot)) (set_or spot_rank (line_spot_named script.now) Spot.Null
        (option_and_then (λ line. line.at) (option_map (λ x. x.now) line.entry)))) }
{
    let words = match line {
        Some(line) => line.at.as_ref(),
        None => None,
    };
    let values = set_or(alloc, &LineSpots(script), Spot::Null, words)?;
    Ok(Component::Spots(Termination::Line(slot), values))
}

/// Where an ephemeral may stand.
fn ephemeral_spots(
    alloc: Global,
    script: &Script,
    slot: Slot,
    ephemeral: Option<&WrittenEphemeral>,
) -> Result<Component, Missing>
    ensures { Gives shown result (option_map (spots (Termination.Ephemeral slot)) (set_or spot_rank (ephemeral_spot_named script.now) Spot.Absent
        (option_and_then (λ ephemeral. ephemeral.at) (option_map (λ x. x.now) ephemeral.entry)))) }
{
    let words = match ephemeral {
        Some(ephemeral) => ephemeral.at.as_ref(),
        None => None,
    };
    let values = set_or(alloc, &EphemeralSpots(script), Spot::Absent, words)?;
    Ok(Component::Spots(Termination::Ephemeral(slot), values))
}

/// The modes of a line.
fn line_modes(alloc: Global, slot: Slot, line: Option<&WrittenLine>) -> Result<Component, Missing>
    ensures { Gives shown result (option_map (modes (Termination.Line slot)) (set_or mode_rank mode_named Mode.Inactive
        (option_and_then (λ line. line.mode) (option_map (λ x. x.now) line.entry)))) }
{
    let words = match line {
        Some(line) => line.mode.as_ref(),
        None => None,
    };
    let values = set_or(alloc, &Modes, Mode::Inactive, words)?;
    Ok(Component::Modes(Termination::Line(slot), values))
}

/// The modes of an ephemeral.
fn ephemeral_modes(
    alloc: Global,
    slot: Slot,
    ephemeral: Option<&WrittenEphemeral>,
) -> Result<Component, Missing>
    ensures { Gives shown result (option_map (modes (Termination.Ephemeral slot)) (set_or mode_rank mode_named Mode.Inactive
        (option_and_then (λ ephemeral. ephemeral.mode) (option_map (λ x. x.now) ephemeral.entry)))) }
{
    let words = match ephemeral {
        Some(ephemeral) => ephemeral.mode.as_ref(),
        None => None,
    };
    let values = set_or(alloc, &Modes, Mode::Inactive, words)?;
    Ok(Component::Modes(Termination::Ephemeral(slot), values))
}

/// The events lists of a line.
fn events(
    alloc: Global,
    script: &Script,
    slot: Slot,
    line: Option<&WrittenLine>,
) -> Result<Component, Missing>
    ensures { Gives shown result (option_map (events slot) (set_or events_rank (λ word. list_named word script.now.lists) EventsName.Armed
        (option_and_then (λ line. line.events) (option_map (λ x. x.now) line.entry)))) }
{
    let words = match line {
        Some(line) => line.events.as_ref(),
        None => None,
    };
    let values = set_or(alloc, &Lists(script), EventsName::Armed, words)?;
    Ok(Component::Events(slot, values))
}

/// Whether a line may play a signal.
fn plays(alloc: Global, slot: Slot, line: Option<&WrittenLine>) -> Result<Component, Missing>
    ensures { Gives shown result (option_map (plays slot) (set_or switch_rank plays_named false
        (option_and_then (λ line. line.plays) (option_map (λ x. x.now) line.entry)))) }
{
    let words = match line {
        Some(line) => line.plays.as_ref(),
        None => None,
    };
    let values = set_or(alloc, &Plays, false, words)?;
    Ok(Component::Plays(slot, values))
}

/// The Remotes of an ephemeral.
fn remotes(
    alloc: Global,
    script: &Script,
    slot: Slot,
    ephemeral: Option<&WrittenEphemeral>,
) -> Result<Component, Missing>
    ensures { Gives shown result (option_map (remotes slot) (set_or remote_rank (remote_named script.now) Remote.Unset
        (option_and_then (λ ephemeral. ephemeral.remote) (option_map (λ x. x.now) ephemeral.entry)))) }
{
    let words = match ephemeral {
        Some(ephemeral) => ephemeral.remote.as_ref(),
        None => None,
    };
    let values = set_or(alloc, &Remotes(script), Remote::Unset, words)?;
    Ok(Component::Remotes(slot, values))
}

/// What a context name stands for.
fn contexts(alloc: Global, slot: Slot, words: Option<&Words>) -> Result<Component, Missing>
    ensures { Gives shown result (option_map (contexts slot) (set_or context_rank context_value_named ContextValue.Free
        (option_map (λ w. w.now) words.entry))) }
{
    let values = set_or(alloc, &ContextValues, ContextValue::Free, words)?;
    Ok(Component::Contexts(slot, values))
}

/// Whether media from one termination to another is cut.
fn cuts(
    alloc: Global,
    source: &Termination,
    sink: &Termination,
    words: Option<&Words>,
) -> Result<Component, Missing>
    ensures { Gives shown result (option_map (cuts source.now sink.now) (set_or switch_rank cut_named false
        (option_map (λ w. w.now) words.entry))) }
{
    let values = set_or(alloc, &Cuts, false, words)?;
    Ok(Component::Cuts(*source, *sink, values))
}

/// The component that an entry gives for a key. The rows are those of the entry, by what their names stand for in the script.
pub fn read_component(
    alloc: Global,
    script: &Script,
    entry: &WrittenEntry,
    rows: &NamedRows<'_>,
    key: &Key,
) -> Result<Component, Missing>
    requires { IsNamed script.now entry.now rows.now }
    ensures { Gives shown result (component_meant script.now entry.now key.now) }
{
    match *key {
        Key::Link => links(alloc, entry),
        Key::Spot(Termination::Line(slot)) => line_spots(alloc, script, slot, rows.line(slot)),
        Key::Spot(Termination::Ephemeral(slot)) => {
            ephemeral_spots(alloc, script, slot, rows.ephemeral(slot))
        }
        Key::Mode(Termination::Line(slot)) => line_modes(alloc, slot, rows.line(slot)),
        Key::Mode(Termination::Ephemeral(slot)) => {
            ephemeral_modes(alloc, slot, rows.ephemeral(slot))
        }
        Key::Events(slot) => events(alloc, script, slot, rows.line(slot)),
        Key::Plays(slot) => plays(alloc, slot, rows.line(slot)),
        Key::Context(slot) => contexts(alloc, slot, rows.context(slot)),
        Key::Remote(slot) => remotes(alloc, script, slot, rows.ephemeral(slot)),
        Key::Cut(source, sink) => cuts(alloc, &source, &sink, rows.cut(&source, &sink)),
    }
}
