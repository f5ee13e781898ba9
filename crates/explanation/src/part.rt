//! The part of an entry that calls come to.
ghost use Rattle.std.specs.Prelude.{◌≡◌, IfOk, Some, slice_get};
ghost use Rattle.mg_model.specs.Entries.{Entry as Listed};
ghost use Rattle.explanation.specs.Parts.{IsPartOf};
ghost use Rattle.explanation.specs.declared.part.Part.TheVariants as Part;
ghost use Rattle.call_ways.specs.Ways.{AreAll, ComeToMany};

use crate::narrowed::narrowed;
use call_ways::find::find_all;
use call_ways::reached::Reached;
use entry_table::{Cert, Entry};
use script_table::Script;
use std::alloc::{AllocError, Global};

/// What of an entry calls come to. This profile's own.
#[derive(Drop)]
pub enum Part {
    /// None of its configurations.
    Nothing,
    /// The configurations of this entry; it may have more that no call comes to, since an entry is a product. It is the whole entry where what calls
    /// come to makes no other one that fits.
    Within(Entry),
    /// Isn't known: calls come to as many configurations as are sought from.
    Unknown,
}

/// The part of the entry at a place that calls come to from the opening, through configurations that some entry has: of those that they come to.
/// It is always known. The only error is running out of memory.
pub fn part_of(
    alloc: Global,
    script: &Script,
    cert: &Cert,
    reached: &Reached,
    place: usize,
) -> Result<Part, AllocError>
    requires all { AreAll script.now cert.now reached.now }
    ensures part { IfOk result (λ found. (entry : Listed) → slice_get cert.now place ≡ Some entry → IsPartOf script.now cert.now entry found) }
    ensures known { IfOk result (λ found. found ≡ Part.Unknown → ⊥) }
{
    let Some(entry) = cert.entries().get(place) else {
        return Ok(Part::Nothing);
    };
    match narrowed(alloc, script, entry, reached.configs())? {
        Some(narrow) => Ok(Part::Within(narrow)),
        None => Ok(Part::Nothing),
    }
}

/// The part of the entry at a place that calls come to from the opening, through configurations that some entry has. `Unknown` only where calls
/// come to a million configurations. The only error is running out of memory.
pub fn find_part(
    alloc: Global,
    script: &Script,
    cert: &Cert,
    place: usize,
) -> Result<Part, AllocError>
    ensures part { IfOk result (λ found. (entry : Listed) → slice_get cert.now place ≡ Some entry → IsPartOf script.now cert.now entry found) }
    ensures unknown { IfOk result (λ found. found ≡ Part.Unknown → ComeToMany script.now cert.now) }
{
    let Some(reached) = find_all(alloc, script, cert)? else {
        return Ok(Part::Unknown);
    };
    part_of(alloc, script, cert, &reached, place)
}
