//! The numbers under which a map keeps something, in rising order, bare or as names of lines, contexts and calls.

ghost use Rattle.std.specs.Prelude.{◌≡◌, IfOk, OnOk, map, nat_eq};
ghost use Rattle.std.specs.HashMap.{IsUnique, keys};
ghost use Rattle.std.specs.List.Sorted.{IsPermutation, IsSorted};
ghost use Rattle.std.specs.Ordering.{nat_cmp};
ghost use Rattle.mg_model.specs.Items.{Lists};
ghost use Rattle.terminations.specs.Kept.{is_kept};

use crate::numbered::Numbered;
use std::alloc::{AllocError, Global};
use std::collections::HashMap;

/// The keys of a map, sorted.
fn sorted<V>(alloc: Global, from: &HashMap<u32, V>) -> Result<Vec<u32>, AllocError>
    ensures keys { IfOk result (λ found. IsPermutation (keys from.now) found.items) }
    ensures sorted { IfOk result (λ found. IsSorted nat_cmp found.items) }
    ensures unique { OnOk result (IsUnique nat_eq from.now) }
{
    let mut found: Vec<u32> = from.keys().copied().collect(alloc)?;
    found.sort_unstable();
    Ok(found)
}

/// The numbers under which a map keeps something, in rising order.
fn numbers<V>(alloc: Global, from: &HashMap<u32, V>) -> Result<Vec<u32>, AllocError>
    ensures { IfOk result (λ found. Lists (is_kept from.now.entries) found.items) }
{
    let found = sorted(alloc, from)?;
    Ok(found)
}

/// What these numbers name, in their order.
pub fn named<N: Numbered>(alloc: Global, numbers: &[u32]) -> Result<Vec<N>, AllocError>
    ensures { IfOk result (λ found. map N.number_of found.items ≡ numbers.now) }
{
    let mut found = Vec::new(alloc);
    for number in numbers {
        found.push(N::named(*number))?;
    }
    Ok(found)
}

/// What is named by the numbers under which a map keeps something, in rising order of these numbers.
pub fn names<N: Numbered, V>(alloc: Global, from: &HashMap<u32, V>) -> Result<Vec<N>, AllocError>
    ensures { IfOk result (λ found. Lists (is_kept from.now.entries) (map N.number_of found.items)) }
{
    let numbers = numbers(alloc, from)?;
    let found = named(alloc, numbers.as_slice())?;
    Ok(found)
}
