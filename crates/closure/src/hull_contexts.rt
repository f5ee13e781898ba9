//! Whether a context exists in the whole hull of a few configurations, and what that makes of its name. Where it is so in some and not in others
//! the name is taken to stand for either.
ghost use Rattle.std.specs.Prelude.{◌≡◌, IsTrue, IfOk, OnOk, Contains, map};
ghost use Rattle.mg_model.specs.Configuration.{Configuration, is_in, stands_in};
ghost use Rattle.configuration.specs.Config.{configuration_of};
ghost use Rattle.closure.specs.Elementwise.{settled_at};
ghost use Rattle.closure.specs.Hulls.{HasOne, IsInHull};
ghost use Rattle.closure.specs.Placing.{valued_at};

use crate::effects::value_of;
use crate::hull::{Hull, TooMany};
use crate::requests::is_bound;
use configuration::config::Config;
use configuration::spots;
use configuration::well_formed::{all_terminations, stands_in};
use mg_model::commands::Termination;
use mg_names::context_values::ContextValue;
use mg_names::slots::Slot;

/// Whether a termination stands in a context in each of some configurations.
pub(crate) fn does_each_stand(hull: &Hull, termination: &Termination, context: Slot) -> bool
    ensures { IsTrue result → (d : Configuration) → Contains (map configuration_of hull.now) d → IsTrue (is_in (d.spot termination.now) context) }
{
    hull.all(|config| spots::is_in(config.spot(*termination), context))
}

/// Whether one termination stands in a context in each of them.
fn does_one_stand(hull: &Hull, context: Slot) -> bool
    ensures { IsTrue result → (c : Configuration) → IsInHull (map configuration_of hull.now) c → IsTrue (stands_in c.spot context) }
{
    let all = all_terminations();
    for termination in &all {
        if does_each_stand(hull, termination, context) {
            return true;
        }
    }
    false
}

/// A configuration in which a context name, if it is bound, stands for what exists or not.
fn valued_at(config: &Config, context: Slot, exists: bool) -> Config
    ensures { configuration_of result ≡ valued_at context exists (configuration_of config.now) }
{
    let mut valued = *config;
    valued.set_context(context, value_of(config.context(context), exists));
    valued
}

/// The same of some configurations.
pub(crate) fn valued_each(hull: &Hull, context: Slot, exists: bool) -> Result<Hull, TooMany>
    ensures { IfOk result (λ m. map configuration_of m ≡ map (valued_at context exists) (map configuration_of hull.now)) }
{
    hull.map(|config| valued_at(config, context, exists))
}

/// Whether two values of a context name are one.
fn is_same_value(one: ContextValue, other: ContextValue) -> bool
    ensures { IsTrue result → one ≡ other }
{
    one == other
}

/// Adds a configuration in which a context name stands for a value, unless it does in one that is there.
fn add_context(
    hull: &mut Hull,
    context: Slot,
    value: ContextValue,
    one: &Config,
) -> Result<(), TooMany>
    ensures kept { OnOk result ((d : Configuration) → Contains (map configuration_of hull.old) d → Contains (map configuration_of hull.new) d) }
    ensures there { OnOk result (HasOne (map configuration_of hull.new) (λ d. d.context context) value) }
{
    if let Some(_there) = hull.find(|config| is_same_value(config.context(context), value)) {
        return Ok(());
    }
    let mut with = *one;
    with.set_context(context, value);
    hull.push(&with)?;
    Ok(())
}

/// Configurations whose hull has all in the hull of some, once one of their context names says whether its context exists.
pub(crate) fn settled_each(hull: Hull, context: Slot) -> Result<Hull, TooMany>
    ensures { IfOk result (λ m. (c : Configuration) → IsInHull (map configuration_of hull) c → IsInHull (map configuration_of m) (settled_at c context)) }
{
    if does_one_stand(&hull, context) {
        return valued_each(&hull, context, true);
    }
    if hull.all(|config| !stands_in(config, context)) {
        return valued_each(&hull, context, false);
    }
    let Some(one) = hull.find(|config| is_bound(config, context)) else {
        return Ok(hull);
    };
    let mut made = hull;
    add_context(&mut made, context, ContextValue::Live, &one)?;
    add_context(&mut made, context, ContextValue::Stale, &one)?;
    Ok(made)
}
