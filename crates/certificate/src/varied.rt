//! The components of an entry that have another number of values than one. These alone tell what the limits look at: a component of one
//! value empties no entry and makes none larger. For most keys of an entry nothing is written, and then nothing is made for them.
ghost use Rattle.std.specs.Prelude.{◌≡◌, ◌==◌, ◌++◌, length, map, option_map, OnOk};
ghost use Rattle.std.specs.List.{flat_map};
ghost use Rattle.certificate.specs.Components.{component_meant};
ghost use Rattle.certificate.specs.FoundRows.{at_pair};
ghost use Rattle.certificate.specs.NamedRows.{IsNamed};
ghost use Rattle.certificate.specs.Outlines.{cuts_meant, has_none_like, is_left_out, varied};
ghost use Rattle.entry_table.specs.Shown.{shown, shown_all};
ghost use Rattle.typed_values.specs.Shape.{Gives, each};

use crate::component::read_component;
use crate::entry_rows::NamedRows;
use crate::key::Key;
use crate::reads::Row;
use crate::vocabulary::{Cuts, read_set};
use crate::written::WrittenEntry;
use entry_table::Component;
use mg_model::commands::Termination;
use script_table::Script;
use std::alloc::{AllocError, Global};
use typed_values::Missing;

/// Whether there are no rows.
fn are_none<T>(rows: &[Row<T>]) -> bool
    ensures { result ≡ (length rows.now == 0) }
{
    rows.is_empty()
}

fn has_no_lines(entry: &WrittenEntry) -> bool
    ensures { result ≡ (length entry.now.lines == 0) }
{
    are_none(entry.lines.as_slice())
}

fn has_no_contexts(entry: &WrittenEntry) -> bool
    ensures { result ≡ (length entry.now.contexts == 0) }
{
    are_none(entry.contexts.as_slice())
}

fn has_no_ephemerals(entry: &WrittenEntry) -> bool
    ensures { result ≡ (length entry.now.ephemerals == 0) }
{
    are_none(entry.ephemerals.as_slice())
}

fn has_no_cuts(entry: &WrittenEntry) -> bool
    ensures { result ≡ (length entry.now.cuts == 0) }
{
    are_none(entry.cuts.as_slice())
}

/// Whether an entry writes nothing for the terminations that are like this one.
fn has_none_like(entry: &WrittenEntry, termination: &Termination) -> bool
    ensures { result ≡ has_none_like entry.now termination.now }
{
    match termination {
        Termination::Line(_) => has_no_lines(entry),
        Termination::Ephemeral(_) => has_no_ephemerals(entry),
    }
}

/// Whether an entry writes nothing of the kind of a key.
fn is_left_out(entry: &WrittenEntry, key: &Key) -> bool
    ensures { result ≡ is_left_out entry.now key.now }
{
    match key {
        Key::Link => false,
        Key::Spot(termination) | Key::Mode(termination) => has_none_like(entry, termination),
        Key::Events(_) | Key::Plays(_) => has_no_lines(entry),
        Key::Context(_) => has_no_contexts(entry),
        Key::Remote(_) => has_no_ephemerals(entry),
        Key::Cut(_, _) => has_no_cuts(entry),
    }
}

/// Keeps a component, unless it has one value.
fn keep(component: Component, found: &mut Vec<Component>) -> Result<(), AllocError>
    ensures { OnOk result (shown_all found.new.items ≡ shown_all found.old.items ++ varied (shown component)) }
{
    if component.count() == 1 {
        return Ok(());
    }
    found.push(component)?;
    Ok(())
}

/// Keeps the cuts that the rows give a pair of terminations, unless they have one value. Nothing is made where nothing is written.
fn keep_cuts(
    alloc: Global,
    rows: &NamedRows<'_>,
    source: &Termination,
    sink: &Termination,
    found: &mut Vec<Component>,
) -> Result<(), Missing>
    ensures { Gives (λ _. shown_all found.new.items) result
        (option_map (λ component. shown_all found.old.items ++ varied component)
        (cuts_meant source.now sink.now (at_pair rows.now.cuts.items source.now sink.now))) }
{
    let Some(words) = rows.cut(source, sink) else {
        return Ok(());
    };
    let values = read_set(alloc, &Cuts, words.as_slice())?;
    keep(Component::Cuts(*source, *sink, values), found)?;
    Ok(())
}

/// Keeps the component that an entry gives for a key, unless it has one value. The rows are those of the entry.
#[tactic(auto, using(crate::proofs::VariedLemmas::left_out))]
fn keep_at(
    alloc: Global,
    script: &Script,
    entry: &WrittenEntry,
    rows: &NamedRows<'_>,
    key: &Key,
    found: &mut Vec<Component>,
) -> Result<(), Missing>
    requires { IsNamed script.now entry.now rows.now }
    ensures { Gives (λ _. shown_all found.new.items) result
        (option_map (λ component. shown_all found.old.items ++ varied component) (component_meant script.now entry.now key.now)) }
{
    if is_left_out(entry, key) {
        return Ok(());
    }
    if let Key::Cut(source, sink) = key {
        return keep_cuts(alloc, rows, source, sink, found);
    }
    let component = read_component(alloc, script, entry, rows, key)?;
    keep(component, found)?;
    Ok(())
}

/// The components of an entry that have another number of values than one, for their keys in order. The rows are those of the entry.
pub(crate) fn varied(
    alloc: Global,
    script: &Script,
    entry: &WrittenEntry,
    rows: &NamedRows<'_>,
    keys: &[Key],
) -> Result<Vec<Component>, Missing>
    requires { IsNamed script.now entry.now rows.now }
    ensures { Gives (λ v. shown_all v.items) result
        (option_map (flat_map varied) (each (component_meant script.now entry.now) keys.now)) }
{
    let mut found = Vec::new(alloc);
    for key in keys {
        keep_at(alloc, script, entry, rows, key, &mut found)?;
    }
    Ok(found)
}
