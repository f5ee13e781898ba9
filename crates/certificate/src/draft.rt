//! Entries whose names were looked up, before the limits are checked.
ghost use Rattle.std.specs.Prelude.{◌≡◌, ◌==◌, length, nat_lt, false, IfOk};
ghost use Rattle.std.specs.List.{list_any};
ghost use Rattle.script_table.specs.Table.{state_named};
ghost use Rattle.certificate.specs.Certificate.{has_empty, is_large, listed_meant};
ghost use Rattle.certificate.specs.Components.{component_meant, keys_of};
ghost use Rattle.entry_table.specs.Listed.{choices_of, size_of};
ghost use Rattle.certificate.specs.NamedRows.{IsNamed};
ghost use Rattle.typed_values.specs.Shape.{Gives, each};
ghost use Rattle.entry_table.specs.Shown.{shown_all};

use crate::component::read_component;
use crate::entry_rows::{NamedRows, named_rows};
use crate::key::Key;
use crate::written::WrittenEntry;
use entry_table::{Component, Entry, product_of};
use script_table::Script;
use std::alloc::{AllocError, Global};
use std::marker::Model;
use typed_values::Missing;

/// How many points an entry may have.
const POINTS: u32 = 65_536;

/// An entry whose names were looked up.
#[derive(Drop)]
pub(crate) struct Draft {
    pub(crate) state: u8,
    pub(crate) lines: usize,
    pub(crate) components: Vec<Component>,
}

impl Model for Draft {
    ghost use Rattle.std.specs.Prelude.{◌≤◌};
    ghost use Rattle.entry_table.specs.Listed.{Listed};

    ghost Value = { Listed };

    ghost use Rattle.entry_table.specs.Shown.{shown_all};

    ghost view = { λ d. record { state = d.state; lines = d.lines; components = shown_all d.components.items } };

    ghost invariant = { λ d. d.lines ≤ 4 };
}

/// The state of an entry.
pub(crate) fn state_of(script: &Script, entry: &WrittenEntry) -> Option<u8>
    ensures { result ≡ state_named entry.now.state script.now.states }
{
    script.state_named(entry.state.as_str())
}

/// The components of an entry, for their keys in order.
fn components(
    alloc: Global,
    script: &Script,
    entry: &WrittenEntry,
    rows: &NamedRows<'_>,
    keys: &[Key],
) -> Result<Vec<Component>, Missing>
    requires { IsNamed script.now entry.now rows.now }
    ensures { Gives (λ v. shown_all v.items) result (each (component_meant script.now entry.now) keys.now) }
{
    let mut found = Vec::with_capacity(alloc, keys.len())?;
    for key in keys {
        found.push(read_component(alloc, script, entry, rows, key)?)?;
    }
    Ok(found)
}

/// Looks up the names of an entry. The keys are those of the script.
pub(crate) fn read_draft(
    alloc: Global,
    script: &Script,
    keys: &[Key],
    entry: &WrittenEntry,
) -> Result<Draft, Missing>
    requires { keys.now ≡ keys_of script.now }
    ensures { Gives (λ d. d) result (listed_meant script.now entry.now) }
{
    let rows = named_rows(alloc, script, entry)?;
    let Some(state) = state_of(script, entry) else {
        return Err(Missing::Nothing);
    };
    let components = components(alloc, script, entry, &rows, keys)?;
    let lines = script.lines();
    Ok(Draft {
        state,
        lines,
        components,
    })
}

/// Looks up the names of each entry.
pub(crate) fn drafts(
    alloc: Global,
    script: &Script,
    keys: &[Key],
    entries: &[WrittenEntry],
) -> Result<Vec<Draft>, Missing>
    requires { keys.now ≡ keys_of script.now }
    ensures { Gives (λ v. v.items) result (each (listed_meant script.now) entries.now) }
{
    let mut found = Vec::new(alloc);
    for entry in entries {
        found.push(read_draft(alloc, script, keys, entry)?)?;
    }
    Ok(found)
}

/// Whether a component has no values.
pub(crate) fn has_empty(draft: &Draft) -> bool
    ensures { result ≡ has_empty draft.now }
{
    any_empty(draft.components.as_slice())
}

/// Whether one of some components has no values.
pub(crate) fn any_empty(components: &[Component]) -> bool
    ensures { result ≡ list_any (λ component. length (choices_of component) == 0) (shown_all components.now) }
{
    for component in components {
        if component.count() == 0 {
            return true;
        }
    }
    false
}

/// Whether some components have more points together than an entry may have.
pub(crate) fn are_large(components: &[Component]) -> bool
    ensures { result ≡ nat_lt 65536 (size_of (shown_all components.now)) }
{
    product_of(components) > u64::from(POINTS)
}

/// Whether an entry has more points than it may.
pub(crate) fn is_large(draft: &Draft) -> bool
    ensures { result ≡ is_large draft.now }
{
    are_large(draft.components.as_slice())
}

/// The entry of a draft.
fn sized(alloc: Global, draft: Draft) -> Result<Entry, AllocError>
    requires some { has_empty draft ≡ false }
    requires within { is_large draft ≡ false }
    ensures { IfOk result (λ entry. entry ≡ draft) }
{
    let Draft {
        state,
        lines,
        components,
    } = draft;
    Entry::new(alloc, state, lines, components)
}

/// The entries of drafts that are within the limits.
pub(crate) fn entries(alloc: Global, drafts: Vec<Draft>) -> Result<Vec<Entry>, AllocError>
    requires some { list_any has_empty drafts.items ≡ false }
    requires within { list_any is_large drafts.items ≡ false }
    ensures { IfOk result (λ v. v.items ≡ drafts.items) }
{
    let mut found = Vec::new(alloc);
    for draft in drafts {
        found.push(sized(alloc, draft)?)?;
    }
    Ok(found)
}
