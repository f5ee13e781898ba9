//! What context names stand for once terminations came or went: a bound name is live exactly where a termination stands
//! in its context.
ghost use Rattle.std.specs.Prelude.{◌≡◌, ℕ, ◌≤◌};
ghost use Rattle.mg_model.specs.Configuration.{settled, value_of};
ghost use Rattle.mg_model.specs.Effects.{put_in};
ghost use Rattle.closure.specs.Elementwise.{settled_at};
ghost use Rattle.configuration.specs.Config.{configuration_of};

use configuration::config::Config;
use configuration::well_formed::stands_in;
use mg_model::commands::Termination;
use mg_model::components::Spot;
use mg_names::context_values::ContextValue;
use mg_names::slots::Slot;

/// What a bound context name stands for, given whether its context exists.
pub(crate) fn value_of(value: ContextValue, exists: bool) -> ContextValue
    ensures { result ≡ value_of value exists }
{
    match value {
        ContextValue::Free => ContextValue::Free,
        ContextValue::Live | ContextValue::Stale => {
            if exists {
                ContextValue::Live
            } else {
                ContextValue::Stale
            }
        }
    }
}

/// Makes one context name say what the places of the terminations make it.
fn settle_one(config: &mut Config, context: Slot)
    ensures settled { configuration_of config.new ≡ settled_at (configuration_of config.old) context }
    ensures slots { (j : ℕ) → 4 ≤ j → (configuration_of config.old).context j ≡ ContextValue.Free }
{
    let exists = stands_in(config, context);
    let value = config.context(context);
    config.set_context(context, value_of(value, exists));
}

/// Makes the context names say what the places of the terminations make them.
pub(super) fn settle(config: &mut Config)
    ensures { configuration_of config.new ≡ settled (configuration_of config.old) }
{
    let slots = Slot::all();
    settle_one(config, slots[0]);
    settle_one(config, slots[1]);
    settle_one(config, slots[2]);
    settle_one(config, slots[3]);
}

/// Puts a termination into a context, which exists then.
pub(super) fn put_in(config: &mut Config, termination: Termination, context: Slot)
    ensures { configuration_of config.new ≡ put_in (configuration_of config.old) termination context }
{
    config.set_spot(termination, Spot::In(context));
    config.set_context(context, ContextValue::Live);
    settle(config);
}
