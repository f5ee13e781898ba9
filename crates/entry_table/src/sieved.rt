//! The sieves of a certificate's entries: which of a state's entries allow a configuration's values, asked of all at once.
ghost use Rattle.std.specs.Prelude.{◌≡◌, ◌↔◌, ◌<◌, ℕ, IsTrue, IfOk, OnOk, length, map};
ghost use Rattle.std.specs.List.{All};
ghost use Rattle.configuration.specs.Config.{configuration_of};
ghost use Rattle.configuration.specs.Packed.{Words, IsPacked};
ghost use Rattle.entry_table.specs.Sieves.{is_left};
ghost use Rattle.entry_table.specs.Index.{IsIndex};
ghost use Rattle.entry_table.specs.Listed.{Allows};
ghost use Rattle.entry_table.specs.Sieved.{AreSieved, IsSieved};

use crate::entry::Entry;
use crate::regions::set_of;
use crate::sieves::Sieves;
use std::alloc::{AllocError, Global};

/// Narrows the list with a number by the components of an entry. The only error is running out of memory.
fn narrow_by(sieves: &mut Sieves, number: usize, entry: &Entry) -> Result<(), AllocError>
    requires { number < sieves.old.count }
    ensures here { OnOk result ((w : Words) → IsPacked w → IsTrue (is_left sieves.new number w)
        ↔ (IsTrue (is_left sieves.old number w) × All (Allows (configuration_of w)) entry.now.components)) }
    ensures others { OnOk result ((other : ℕ) (w : Words) → (other ≡ number → ⊥)
        → is_left sieves.new other w ≡ is_left sieves.old other w) }
    ensures count { sieves.new.count ≡ sieves.old.count }
{
    for component in entry.components() {
        sieves.narrow(number, &set_of(component))?;
    }
    Ok(())
}

/// The sieves of the entries at some places. The only error is running out of memory.
fn sieves_for(alloc: Global, entries: &[Entry], places: &[usize]) -> Result<Sieves, AllocError>
    requires { All (λ place. place < length entries.now) places.now }
    ensures { IfOk result (AreSieved entries.now places.now) }
{
    let mut sieves = Sieves::new(alloc, places.len())?;
    for (number, place) in places.iter().enumerate() {
        narrow_by(&mut sieves, number, &entries[*place])?;
    }
    sieves.settle(alloc)?;
    Ok(sieves)
}

/// The sieves of the entries of each state, whose places are given. The only error is running out of memory.
pub(crate) fn all_sieves(
    alloc: Global,
    entries: &[Entry],
    places: &[Vec<usize>],
) -> Result<Vec<Sieves>, AllocError>
    requires { IsIndex (map (λ v. v.items) places.now) entries.now }
    ensures { IfOk result (λ v. IsSieved v.items entries.now) }
{
    let mut found = Vec::new(alloc);
    for list in places {
        found.push(sieves_for(alloc, entries, list.as_slice())?)?;
    }
    Ok(found)
}
