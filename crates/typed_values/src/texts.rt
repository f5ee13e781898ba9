//! The parts of a text.
ghost use Rattle.std.specs.Prelude.{◌≡◌, IfOk, map};
ghost use Rattle.typed_values.specs.Texts.{words_of};

use std::alloc::{AllocError, Global};

/// The words of a text, between its spaces: two spaces side by side have an empty word between them.
pub fn words(alloc: Global, text: &str) -> Result<Vec<&str>, AllocError>
    ensures { IfOk result (λ v. map (λ w. w.now) v.items ≡ words_of text.now) }
{
    text.split(' ').collect(alloc)
}
