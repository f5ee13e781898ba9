//! A list of one.
ghost use Rattle.std.specs.Prelude.{◌≡◌, [], ◌∷◌, IfOk};

use std::alloc::{AllocError, Global};

/// A list of one.
pub(crate) fn list<T: Copy>(alloc: Global, only: T) -> Result<Vec<T>, AllocError>
    ensures { IfOk result (λ found. found.items ≡ only ∷ []) }
{
    let mut found = Vec::new(alloc);
    found.push(only)?;
    Ok(found)
}
