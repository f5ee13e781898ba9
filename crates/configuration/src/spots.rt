//! Tests of single values of a configuration: where a termination stands, what a name stands for.
ghost use Rattle.std.specs.Prelude.{◌≡◌, ℕ, ◌<◌, ◌||◌, not, length, slice_index_or};
ghost use Rattle.std.specs.List.{list_all, list_any};
ghost use Rattle.mg_names.specs.declared.context_values.ContextValue.TheVariants.{Free};
ghost use Rattle.mg_model.specs.Configuration.{is_same, is_in, is_live, is_free, is_null, is_present, is_to};

use mg_model::commands::Termination;
use mg_model::components::{Remote, Spot};
use mg_names::context_values::ContextValue;
use mg_names::slots::Slot;

/// Whether two terminations are one.
pub fn is_same(one: &Termination, other: &Termination) -> bool
    ensures { result ≡ is_same one.now other.now }
{
    match one {
        Termination::Line(i) => match other {
            Termination::Line(j) => i.index() == j.index(),
            Termination::Ephemeral(_) => false,
        },
        Termination::Ephemeral(i) => match other {
            Termination::Ephemeral(j) => i.index() == j.index(),
            Termination::Line(_) => false,
        },
    }
}

/// Whether a spot is in a context.
pub fn is_in(spot: Spot, context: Slot) -> bool
    ensures { result ≡ is_in spot context }
{
    match spot {
        Spot::In(slot) => slot.index() == context.index(),
        Spot::Null => false,
        Spot::Absent => false,
    }
}

/// Whether a termination that stands there exists.
pub fn is_present(spot: Spot) -> bool
    ensures { result ≡ is_present spot }
{
    match spot {
        Spot::In(_) => true,
        Spot::Null => true,
        Spot::Absent => false,
    }
}

/// Whether a spot is in the null context.
pub fn is_null(spot: Spot) -> bool
    ensures { result ≡ is_null spot }
{
    match spot {
        Spot::Null => true,
        Spot::In(_) => false,
        Spot::Absent => false,
    }
}

/// Whether a context exists.
pub fn is_live(value: ContextValue) -> bool
    ensures { result ≡ is_live value }
{
    match value {
        ContextValue::Live => true,
        ContextValue::Free => false,
        ContextValue::Stale => false,
    }
}

/// Whether a context name is not bound.
pub fn is_free(value: ContextValue) -> bool
    ensures { result ≡ is_free value }
{
    match value {
        ContextValue::Free => true,
        ContextValue::Live => false,
        ContextValue::Stale => false,
    }
}

/// Whether a Remote names an ephemeral.
pub fn is_to(remote: Remote, ephemeral: Slot) -> bool
    ensures { result ≡ is_to remote ephemeral }
{
    match remote {
        Remote::To(slot) => slot.index() == ephemeral.index(),
        Remote::Gone => false,
        Remote::Unset => false,
    }
}
