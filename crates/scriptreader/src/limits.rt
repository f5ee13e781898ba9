//! This profile's limits of a document.
ghost use Rattle.std.specs.Prelude.{◌≡◌, nat_lt, length};
ghost use Rattle.std.specs.List.{list_any};
ghost use Rattle.scriptreader.specs.Limits.{is_too_large};

use crate::syntax::{Document, WrittenState};

/// Whether a document is past this profile's limits.
pub fn is_too_large(document: &Document) -> bool
    ensures { result ≡ is_too_large document.now }
{
    document.lines.len() > 4
        || document.contexts.len() > 4
        || document.ephemerals.len() > 4
        || document.states.len() > 64
        || document.events.len() > 16
        || document.signals.len() > 16
        || document.maps.len() > 16
        || has_long_state(document.states.as_slice())
}

/// Whether a state has too many commands.
fn has_long_state(states: &[WrittenState]) -> bool
    ensures { result ≡ list_any (λ s. nat_lt 16 (length s.commands)) states.now }
{
    states.iter().any(|state| state.commands.len() > 16)
}
