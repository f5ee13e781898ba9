//! Why nothing is given where something was asked for.
use std::alloc::{AllocError, AllocFailed};

/// Why nothing is given: the two ways in which reading the shape of a document, or looking up what its names mean, ends early.
#[derive(Clone, Copy)]
pub enum Missing {
    /// There is nothing: a key or a value is bad, a name means nothing in its place, or a limit is passed.
    Nothing,
    /// Memory ran out.
    Memory,
}

impl From<AllocError> for Missing {
    ghost use Rattle.std.specs.Prelude.{◌≡◌};
    ghost use Rattle.typed_values.specs.declared.missing.Missing.TheVariants.{Memory};

    ghost from_gives = { λ _ e. e ≡ Memory };

    fn from(_e: AllocError) -> Missing {
        Missing::Memory
    }
}

impl<T: Drop> From<AllocFailed<T>> for Missing {
    ghost use Rattle.std.specs.Prelude.{◌≡◌};
    ghost use Rattle.typed_values.specs.declared.missing.Missing.TheVariants.{Memory};

    ghost from_gives = { λ _ e. e ≡ Memory };

    fn from(_e: AllocFailed<T>) -> Missing {
        Missing::Memory
    }
}
