//! The calls of a plan in its order.
ghost use Rattle.std.specs.Prelude.{◌≡◌, IfOk, vec_len};

use planned_calls::{PlannedCall, RunFault};
use std::alloc::Global;

/// The calls of a plan by their numbers, from 0; none at a number whose call is away. This profile's own.
pub type Places<'s> = Vec<Option<PlannedCall<'s>>>;

/// So many empty places.
pub(crate) fn empty<'s>(alloc: Global, count: usize) -> Result<Places<'s>, RunFault>
    ensures { IfOk result (λ places. vec_len places ≡ count) }
{
    let mut places = Vec::new(alloc);
    for _ in 0..count {
        places.push(None)?;
    }
    Ok(places)
}
