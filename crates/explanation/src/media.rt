//! Where media of a configuration goes at once: from one termination to another of its context, and from one ephemeral to the one that it
//! is joined with by their Remotes.
ghost use Rattle.std.specs.Prelude.{◌≡◌, ℕ, true, false, IfSome, IfNone};
ghost use Rattle.mg_model.specs.Paths.{crosses, hops, is_shared, passes_in, passes_out};
ghost use Rattle.configuration.specs.Config.{configuration_of};

use configuration::config::Config;
use configuration::spots::{is_in, is_present, is_same, is_to};
use mg_model::commands::Termination;
use mg_model::components::{Remote, Spot};
use mg_names::modes::Mode;
use mg_names::slots::Slot;

/// Whether a termination of this mode passes received media into its context (H.248.1 section 7.1.7).
fn passes_in(mode: Mode) -> bool
    ensures { result ≡ passes_in mode }
{
    match mode {
        Mode::ReceiveOnly => true,
        Mode::SendReceive => true,
        Mode::Inactive => false,
        Mode::SendOnly => false,
    }
}

/// Whether a termination of this mode passes media of its context out (H.248.1 section 7.1.7).
fn passes_out(mode: Mode) -> bool
    ensures { result ≡ passes_out mode }
{
    match mode {
        Mode::SendOnly => true,
        Mode::SendReceive => true,
        Mode::Inactive => false,
        Mode::ReceiveOnly => false,
    }
}

/// Whether two spots are one context that is not the null context.
fn is_shared(one: Spot, other: Spot) -> bool
    ensures { result ≡ is_shared one other }
{
    match one {
        Spot::In(context) => is_in(other, context),
        Spot::Null => false,
        Spot::Absent => false,
    }
}

/// Whether media goes from one termination to another of its context (H.248.1 sections 7.1.7 and 7.1.18).
pub(crate) fn hops(config: &Config, from: Termination, to: Termination) -> bool
    ensures { result ≡ hops (configuration_of config.now) from to }
{
    if is_same(&from, &to) {
        return false;
    }
    if !is_shared(config.spot(from), config.spot(to)) {
        return false;
    }
    passes_in(config.mode(from)) && passes_out(config.mode(to)) && !config.cut(from, to)
}

/// Whether media crosses from one ephemeral to another. This profile's own.
fn crosses(config: &Config, from: Slot, to: Slot) -> bool
    ensures { result ≡ crosses (configuration_of config.now) from to }
{
    if from.index() == to.index() {
        return false;
    }
    let first = config.spot(Termination::Ephemeral(from));
    let second = config.spot(Termination::Ephemeral(to));
    if !is_present(first) || !is_present(second) {
        return false;
    }
    is_to(config.remote(from), to) && is_to(config.remote(to), from)
}

/// The ephemeral that media crosses to from one, if there is such: its Remote alone can be it.
pub(crate) fn crossed_from(config: &Config, ephemeral: Slot) -> Option<Slot>
    ensures some { IfSome result (λ to. crosses (configuration_of config.now) ephemeral to ≡ true) }
    ensures none { IfNone result ((to : ℕ) → crosses (configuration_of config.now) ephemeral to ≡ false) }
{
    match config.remote(ephemeral) {
        Remote::To(to) => {
            if crosses(config, ephemeral, to) {
                Some(to)
            } else {
                None
            }
        }
        Remote::Unset => None,
        Remote::Gone => None,
    }
}
