//! What is named by a number alone.
ghost use Rattle.std.specs.Prelude.{◌≡◌, ℕ};

use mg_names::identifiers::{CallNo, ContextId, LineNo};

/// What is named by a number alone.
pub trait Numbered: Drop {
    // The number that names it.
    ghost number_of: { Self → ℕ };

    /// What the number names.
    fn named(number: u32) -> Self
        ensures { number_of result ≡ number };
}

impl Numbered for LineNo {
    ghost number_of = { λ line. line.0 };

    fn named(number: u32) -> LineNo {
        LineNo(number)
    }
}

impl Numbered for ContextId {
    ghost number_of = { λ context. context.0 };

    fn named(number: u32) -> ContextId {
        ContextId(number)
    }
}

impl Numbered for CallNo {
    ghost number_of = { λ call. call.0 };

    fn named(number: u32) -> CallNo {
        CallNo(number)
    }
}
