//! The numbers of some values, as bits of a word.
ghost use Rattle.std.specs.Prelude.{◌≡◌, ◌≤◌, ℕ, ◌<◌, ◌↔◌, IsTrue, Contains};
ghost use Rattle.configuration.specs.Bits.{has};

use crate::codes;
use mg_model::commands::EventsName;
use mg_model::components::{Remote, Spot};
use mg_names::context_values::ContextValue;
use mg_names::modes::Mode;
use mg_names::phases::LinkPhase;

/// The numbers of a component's values.
pub(crate) trait Numbers<T> {
    ghost code: { T → ℕ };

    ghost value_at: { ℕ → T };

    /// The number of a value.
    fn number(value: T) -> u64
        ensures value { result ≡ code value }
        ensures small { result < 32 }
        ensures back { value_at (code value) ≡ value };
}

/// A word with a bit for the number of each value.
pub(crate) fn numbers_of<T: Copy, N: Numbers<T>>(values: &[T]) -> u64
    ensures { (n : ℕ) → n < 64 → N.code (N.value_at n) ≡ n → IsTrue (has result n) ↔ Contains values.now (N.value_at n) }
{
    let mut bits = 0;
    for value in values {
        bits |= 1 << N::number(*value);
    }
    bits
}

/// Of links.
pub(crate) struct LinkNumbers;

impl Numbers<LinkPhase> for LinkNumbers {
    ghost use Rattle.configuration.specs.Codes.{link_code, link_at};

    ghost code = { link_code };

    ghost value_at = { link_at };

    fn number(value: LinkPhase) -> u64 {
        codes::link_code(value)
    }
}

/// Of where lines stand.
pub(crate) struct LineSpotNumbers;

impl Numbers<Spot> for LineSpotNumbers {
    ghost use Rattle.configuration.specs.Codes.{line_spot_code, line_spot_at};

    ghost code = { line_spot_code };

    ghost value_at = { line_spot_at };

    fn number(value: Spot) -> u64 {
        codes::line_spot_code(value)
    }
}

/// Of where ephemerals stand.
pub(crate) struct EphemeralSpotNumbers;

impl Numbers<Spot> for EphemeralSpotNumbers {
    ghost use Rattle.configuration.specs.Codes.{ephemeral_spot_code, ephemeral_spot_at};

    ghost code = { ephemeral_spot_code };

    ghost value_at = { ephemeral_spot_at };

    fn number(value: Spot) -> u64 {
        codes::ephemeral_spot_code(value)
    }
}

/// Of modes.
pub(crate) struct ModeNumbers;

impl Numbers<Mode> for ModeNumbers {
    ghost use Rattle.configuration.specs.Codes.{mode_code, mode_at};

    ghost code = { mode_code };

    ghost value_at = { mode_at };

    fn number(value: Mode) -> u64 {
        codes::mode_code(value)
    }
}

/// Of events lists.
pub(crate) struct EventsNumbers;

impl Numbers<EventsName> for EventsNumbers {
    ghost use Rattle.configuration.specs.Codes.{events_code, events_at};

    ghost code = { events_code };

    ghost value_at = { events_at };

    fn number(value: EventsName) -> u64 {
        codes::events_code(value)
    }
}

/// Of flags.
pub(crate) struct FlagNumbers;

impl Numbers<bool> for FlagNumbers {
    ghost use Rattle.configuration.specs.Codes.{flag_code, flag_at};

    ghost code = { flag_code };

    ghost value_at = { flag_at };

    fn number(value: bool) -> u64 {
        codes::flag_code(value)
    }
}

/// Of what context names stand for.
pub(crate) struct ContextNumbers;

impl Numbers<ContextValue> for ContextNumbers {
    ghost use Rattle.configuration.specs.Codes.{context_code, context_at};

    ghost code = { context_code };

    ghost value_at = { context_at };

    fn number(value: ContextValue) -> u64 {
        codes::context_code(value)
    }
}

/// Of Remotes.
pub(crate) struct RemoteNumbers;

impl Numbers<Remote> for RemoteNumbers {
    ghost use Rattle.configuration.specs.Codes.{remote_code, remote_at};

    ghost code = { remote_code };

    ghost value_at = { remote_at };

    fn number(value: Remote) -> u64 {
        codes::remote_code(value)
    }
}
