//! What the limits look at of an entry. Every entry is looked at in this form before any is kept whole, so a document
//! past the limits takes no more memory than its texts.
ghost use Rattle.std.specs.Prelude.{◌≡◌, map, option_map};
ghost use Rattle.std.specs.List.{list_any};
ghost use Rattle.certificate.specs.Certificate.{listed_meant};
ghost use Rattle.certificate.specs.Components.{keys_of};
ghost use Rattle.certificate.specs.Outlines.{has_crowd_in, limit_passed, outline_meant, outline_of, outlined_for};
ghost use Rattle.typed_values.specs.Shape.{Gives, each};

use crate::draft::{self, are_large, state_of};
use crate::entry_rows::named_rows;
use crate::fault::CertFault;
use crate::key::Key;
use crate::varied::varied;
use crate::written::WrittenEntry;
use script_table::Script;
use std::alloc::Global;
use typed_values::Missing;

/// How many entries a state may have. This profile's own.
pub const MOST_ENTRIES: usize = 256;

/// What the limits look at of an entry.
#[derive(Clone, Copy)]
pub(crate) struct Outline {
    pub(crate) state: u8,
    pub(crate) is_empty: bool,
    pub(crate) is_large: bool,
}

/// The outline of an entry. The keys are those of the script.
#[tactic(auto, using(crate::proofs::VariedLemmas::unknown_word))]
fn read_outline(
    alloc: Global,
    script: &Script,
    keys: &[Key],
    entry: &WrittenEntry,
) -> Result<Outline, Missing>
    requires { keys.now ≡ keys_of script.now }
    ensures { Gives (λ o. o) result (outline_meant script.now entry.now) }
{
    let rows = named_rows(alloc, script, entry)?;
    let Some(state) = state_of(script, entry) else {
        return Err(Missing::Nothing);
    };
    let varied = varied(alloc, script, entry, &rows, keys)?;
    Ok(Outline {
        state,
        is_empty: draft::any_empty(varied.as_slice()),
        is_large: are_large(varied.as_slice()),
    })
}

/// The outline of each entry.
pub(crate) fn outlines(
    alloc: Global,
    script: &Script,
    keys: &[Key],
    entries: &[WrittenEntry],
) -> Result<Vec<Outline>, Missing>
    requires { keys.now ≡ keys_of script.now }
    ensures { Gives (λ v. v.items) result (each (outline_meant script.now) entries.now) }
{
    let mut found = Vec::new(alloc);
    for entry in entries {
        found.push(read_outline(alloc, script, keys, entry)?)?;
    }
    Ok(found)
}

fn any_empty(outlines: &[Outline]) -> bool
    ensures { result ≡ list_any (λ o. o.is_empty) outlines.now }
{
    outlines.iter().any(|outline| outline.is_empty)
}

fn any_large(outlines: &[Outline]) -> bool
    ensures { result ≡ list_any (λ o. o.is_large) outlines.now }
{
    outlines.iter().any(|outline| outline.is_large)
}

/// How many entries a state has.
fn entries_for(outlines: &[Outline], state: u8) -> usize
    ensures { result ≡ outlined_for outlines.now state }
{
    outlines
        .iter()
        .filter(|outline| outline.state == state)
        .count()
}

/// Whether a state of the script has more entries than it may.
fn has_crowd(script: &Script, outlines: &[Outline]) -> bool
    ensures { result ≡ has_crowd_in script.now outlines.now }
{
    for state in 0..script.states() {
        if entries_for(outlines, state as u8) > MOST_ENTRIES {
            return true;
        }
    }
    false
}

/// The first limit that some entries pass, in the order of the faults' numbers.
pub(crate) fn limit_passed(script: &Script, outlines: &[Outline]) -> Option<CertFault>
    ensures { result ≡ limit_passed script.now outlines.now }
{
    if any_empty(outlines) {
        return Some(CertFault::EmptySet);
    }
    if has_crowd(script, outlines) {
        return Some(CertFault::TooManyEntries);
    }
    if any_large(outlines) {
        return Some(CertFault::TooManyPoints);
    }
    None
}
