//! Hulls in which the same names are bound: what stands for a name that is bound in one configuration and not in another is taken from there.
ghost use Rattle.std.specs.Prelude.{◌≡◌, ◌<◌, ◌==◌, ℕ, false, if◌then◌else◌, IsTrue};
ghost use Rattle.mg_model.specs.Configuration.{with_of};
ghost use Rattle.mg_model.specs.Updates.{with_at};
ghost use Rattle.mg_model.specs.declared.commands.Termination.TheVariants as Terminations;
ghost use Rattle.configuration.specs.Config.{configuration_of};
ghost use Rattle.closure.specs.Naming.{as_other, is_context_bound, is_ephemeral_bound, is_number_bound, named_as, named_at};

use crate::requests::{exists, is_bound};
use configuration::config::Config;
use mg_model::commands::Termination;
use mg_model::components::Spot;
use mg_names::context_values::ContextValue;
use mg_names::slots::Slot;

/// What a context name stands for in a configuration, if it is bound there as in another one, or else in that.
fn context_as(config: &Config, one: &Config, slot: Slot) -> ContextValue
    ensures { result ≡ (named_as (configuration_of one.now) (configuration_of config.now)).context slot }
{
    match (is_bound(config, slot), is_bound(one, slot)) {
        (true, true) => config.context(slot),
        (true, false) => one.context(slot),
        (false, true) => one.context(slot),
        (false, false) => config.context(slot),
    }
}

/// The same of where an ephemeral stands.
fn spot_as(config: &Config, one: &Config, slot: Slot) -> Spot
    ensures { result ≡ (named_as (configuration_of one.now) (configuration_of config.now)).spot (Terminations.Ephemeral slot) }
{
    let termination = Termination::Ephemeral(slot);
    match (exists(config, slot), exists(one, slot)) {
        (true, true) => config.spot(termination),
        (true, false) => one.spot(termination),
        (false, true) => one.spot(termination),
        (false, false) => config.spot(termination),
    }
}

/// Gives a configuration what these make of the names of a slot.
fn name_slot(named: &mut Config, config: &Config, one: &Config, slot: Slot)
    ensures { configuration_of named.new ≡ named_at (configuration_of one.now) (configuration_of config.now) slot (configuration_of named.old) }
{
    named.set_context(slot, context_as(config, one, slot));
    named.set_spot(Termination::Ephemeral(slot), spot_as(config, one, slot));
}

/// A configuration in which the same names are bound as in another one.
pub(crate) fn named_as(config: &Config, one: &Config) -> Config
    ensures { configuration_of result ≡ named_as (configuration_of one.now) (configuration_of config.now) }
{
    let [first, second, third, fourth] = Slot::all();
    let mut named = *config;
    name_slot(&mut named, config, one, first);
    name_slot(&mut named, config, one, second);
    name_slot(&mut named, config, one, third);
    name_slot(&mut named, config, one, fourth);
    named
}

/// Whether a name with a number below eight is bound.
pub(crate) fn is_number_bound(config: &Config, number: usize) -> bool
    requires { number < 8 }
    ensures { result ≡ is_number_bound (configuration_of config.now) number }
{
    let slots = Slot::all();
    if number < 4 {
        is_bound(config, slots[number])
    } else {
        exists(config, slots[number - 4])
    }
}

/// Whether two names are bound, or neither is.
pub(crate) fn is_as_bound(one: bool, other: bool) -> bool
    ensures same { IsTrue result → one ≡ other }
    ensures apart { result ≡ false → one ≡ other → ⊥ }
{
    one == other
}

/// A configuration with what another one has for a context name.
pub(crate) fn with_context_of(one: &Config, slot: Slot, other: &Config) -> Config
    ensures { configuration_of result
        ≡ record (configuration_of one.now) { context = with_at (configuration_of one.now).context slot ((configuration_of other.now).context slot) } }
{
    let mut with = *one;
    with.set_context(slot, other.context(slot));
    with
}

/// A configuration in which an ephemeral stands where it does in another one.
fn with_spot_of(one: &Config, slot: Slot, other: &Config) -> Config
    ensures { configuration_of result ≡ record (configuration_of one.now) {
      spot = with_of (configuration_of one.now).spot (Terminations.Ephemeral slot) ((configuration_of other.now).spot (Terminations.Ephemeral slot));
    } }
{
    let spot = other.spot(Termination::Ephemeral(slot));
    let mut with = *one;
    with.set_spot(Termination::Ephemeral(slot), spot);
    with
}

/// A configuration with what another one has for the name with a number.
pub(crate) fn with_name_of(one: &Config, number: usize, other: &Config) -> Config
    requires { number < 8 }
    ensures { (m : ℕ) → m < 8 → is_number_bound (configuration_of result) m
        ≡ (if m == number then is_number_bound (configuration_of other.now) m else is_number_bound (configuration_of one.now) m) }
{
    let slots = Slot::all();
    if number < 4 {
        with_context_of(one, slots[number], other)
    } else {
        with_spot_of(one, slots[number - 4], other)
    }
}
