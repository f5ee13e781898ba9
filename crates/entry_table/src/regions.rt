//! What an entry allows, asked of the words of a configuration.
ghost use Rattle.std.specs.Prelude.{◌≡◌, ◌↔◌, IsTrue, IfOk, OnOk};
ghost use Rattle.configuration.specs.Config.{configuration_of};
ghost use Rattle.configuration.specs.Packed.{Words, IsPacked};
ghost use Rattle.configuration.specs.Regions.{is_in, is_within};
ghost use Rattle.entry_table.specs.Listed.{Allows};
ghost use Rattle.entry_table.specs.Regions.{IsRegion};
ghost use Rattle.entry_table.specs.Shown.{shown, shown_all};

use crate::component::Component;
use configuration::config::Config;
use configuration::region::Region;
use configuration::value_set::ValueSet;
use std::alloc::{AllocError, Global};

/// The values of a component, as a set: asked of many configurations it is made once. This profile's own.
pub fn set_of(component: &Component) -> ValueSet
    ensures { (w : Words) → IsPacked w → IsTrue (is_in result w) ↔ Allows (configuration_of w) (shown component.now) }
{
    match component {
        Component::Links(values) => ValueSet::links(values.as_slice()),
        Component::Spots(t, values) => ValueSet::spots(*t, values.as_slice()),
        Component::Modes(t, values) => ValueSet::modes(*t, values.as_slice()),
        Component::Events(line, values) => ValueSet::events(*line, values.as_slice()),
        Component::Plays(line, values) => ValueSet::plays(*line, values.as_slice()),
        Component::Contexts(name, values) => ValueSet::contexts(*name, values.as_slice()),
        Component::Remotes(name, values) => ValueSet::remotes(*name, values.as_slice()),
        Component::Cuts(t, u, values) => ValueSet::cuts(*t, *u, values.as_slice()),
    }
}

/// The configurations of a state that have each component's value. The only error is running out of memory.
pub(crate) fn region_of(
    alloc: Global,
    state: u8,
    components: &[Component],
) -> Result<Region, AllocError>
    ensures { IfOk result (λ region. IsRegion region state (shown_all components.now)) }
{
    let mut region = Region::of_state(alloc, state);
    for component in components {
        region.narrow(set_of(component))?;
    }
    Ok(region)
}

impl Component {
    /// Whether a configuration has one of its values.
    pub fn allows(&self, config: &Config) -> bool
        ensures { IsTrue result ↔ Allows (configuration_of config.now) (shown self.now) }
    {
        set_of(self).has(config)
    }
}
