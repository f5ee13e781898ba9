//! The hull of a block: one configuration, in which each component has its first value, and it with each other value of each component. All that the
//! components make is in their hull.
ghost use Rattle.std.specs.Prelude.{◌≡◌, ◌<◌, ◌≤◌, ℕ, OnOk, IfOk, Contains, length, map};
ghost use Rattle.std.specs.List.{slice_index_or};
ghost use Rattle.mg_model.specs.Configuration.{Configuration};
ghost use Rattle.mg_model.specs.Entries.{choices_of, same_choice};
ghost use Rattle.configuration.specs.Config.{configuration_of};
ghost use Rattle.entry_table.specs.Shown.{shown, shown_all};
ghost use Rattle.closure.specs.Hulls.{AreInHull, first_of};

use crate::hull::{Hull, TooMany};
use configuration::config::Config;
use entry_table::Component;

/// The configuration in which each of these components has its first value.
fn first_of(components: &[Component], config: &Config) -> Config
    ensures { configuration_of result ≡ first_of (shown_all components.now) (configuration_of config.now) }
{
    let mut first = *config;
    for component in components {
        component.choose(0, &mut first);
    }
    first
}

/// Adds a configuration with each value of a component.
fn push_each(hull: &mut Hull, component: &Component, first: &Config) -> Result<(), TooMany>
    ensures kept { OnOk result ((d : Configuration) → Contains (map configuration_of hull.old) d → Contains (map configuration_of hull.new) d) }
    ensures each { OnOk result ((place : ℕ) → place < length (choices_of (shown component.now))
        → Contains (map configuration_of hull.new) ((slice_index_or (choices_of (shown component.now)) place same_choice) (configuration_of first.now))) }
{
    for place in 0..component.count() {
        let mut chosen = *first;
        component.choose(place, &mut chosen);
        hull.push(&chosen)?;
    }
    Ok(())
}

/// The hull of all that some components make of a configuration; nothing where there are too many.
pub(crate) fn hull_of(components: &[Component], config: &Config) -> Result<Hull, TooMany>
    ensures { IfOk result (λ hull. AreInHull (map configuration_of hull) (shown_all components.now) (configuration_of config.now)) }
{
    let first = first_of(components, config);
    let mut hull = Hull::new();
    hull.push(&first)?;
    for component in components {
        push_each(&mut hull, component, &first)?;
    }
    Ok(hull)
}
