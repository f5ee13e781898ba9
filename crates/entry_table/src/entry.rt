//! Entries: for a state a set of values for each component of a configuration.
ghost use Rattle.std.specs.Prelude.{◌≡◌, ◌↔◌, ◌^◌, ◌-◌, ◌*◌, ◌<◌, ◌≤◌, ℕ, IsTrue, IfOk, IfSome, IfNone, map, min, length, List};
ghost use Rattle.std.specs.List.{All};
ghost use Rattle.mg_model.specs.Configuration.{IsWellFormed};
ghost use Rattle.mg_model.specs.Entries.{chosen, product};
ghost use Rattle.configuration.specs.Config.{configuration_of};
ghost use Rattle.entry_table.specs.Listed.{Allows, Includes, IsPointOf, choices_of, numbered, size_of};
ghost use Rattle.entry_table.specs.Shown.{shown, shown_all};
ghost use Rattle.entry_table.specs.WithAll.{AllowsEach};

use crate::component::Component;
use crate::regions::region_of;
use crate::turned::{Turned, parted};
use configuration::config::Config;
use configuration::region::Region;
use configuration::well_formed::is_well_formed;
use mg_model::commands::EventsName;
use mg_names::phases::LinkPhase;
use std::alloc::{AllocError, Global};
use std::marker::Model;

/// An entry of a certificate: a state, and a set of values for each component of a configuration. It denotes the
/// well-formed configurations of the state that have each component in its set. Its points are the whole product,
/// numbered from 0, the last component changing fastest. This profile's own.
#[derive(Drop)]
pub struct Entry {
    state: u8,
    lines: usize,
    product: u32,
    components: Vec<Component>,
    /// What its points are made of.
    turned: Turned,
    /// What it allows.
    region: Region,
}

impl Model for Entry {
    ghost use Rattle.std.specs.Prelude.{◌≡◌, ◌<◌, ◌≤◌, map};
    ghost use Rattle.entry_table.specs.Listed.{Listed, size_of};

    ghost Value = { Listed };

    ghost use Rattle.mg_names.specs.declared.phases.LinkPhase.TheVariants.{Resting};
    ghost use Rattle.mg_model.specs.declared.commands.EventsName.TheVariants.{Empty};
    ghost use Rattle.mg_model.specs.Steps.{unused};
    ghost use Rattle.configuration.specs.Config.{configuration_of};
    ghost use Rattle.entry_table.specs.Shown.{shown, shown_all};
    ghost use Rattle.entry_table.specs.Turned.{IsTurned};
    ghost use Rattle.entry_table.specs.Regions.{IsRegion};

    ghost view = { λ e. record { state = e.state; lines = e.lines; components = shown_all e.components.items } };

    ghost invariant = { λ e. (e.lines ≤ 4) × (0 < e.product) × (e.product ≡ size_of (shown_all e.components.items))
        × IsTurned (shown_all e.components.items) (unused e.lines e.state Resting Empty) (shown_all e.turned.components.items) (configuration_of e.turned.base)
        × IsRegion e.region e.state (shown_all e.components.items) };
}

/// What the points of an entry are made of: a configuration, and components that are given their values in it, in their order.
#[derive(Drop)]
pub struct PointsByComponent<'e> {
    /// The configuration.
    pub base: Config,
    /// The components that are given their values.
    pub components: &'e [Component],
}

/// How many choices some components have together, or the last number of 64 bits where that is more.
pub fn product_of(components: &[Component]) -> u64
    ensures { result ≡ min (size_of (shown_all components.now)) (2 ^ 64 - 1) }
{
    let mut size: u64 = 1;
    for component in components {
        size = size.saturating_mul(component.count() as u64);
    }
    size
}

/// Makes the choices with a number, in order.
fn choose_all(components: &[Component], size: u64, number: u64, config: &mut Config)
    requires some { 0 < size }
    requires size { size ≡ size_of (shown_all components.now) }
    ensures { configuration_of config.new
        ≡ chosen (map choices_of (shown_all components.now)) number (configuration_of config.old) }
{
    let mut rest = size;
    let mut left = number;
    for component in components {
        rest /= component.count() as u64;
        component.choose((left / rest) as usize, config);
        left %= rest;
    }
}

impl Entry {
    /// The entry of a state, for a script of so many lines, with these components in their order. Its points have to be
    /// some, and to be fewer than 32 bits count; `product_of` tests both. The only error is running out of memory.
    pub fn new(
        alloc: Global,
        state: u8,
        lines: usize,
        components: Vec<Component>,
    ) -> Result<Entry, AllocError>
        requires lines { lines ≤ 4 }
        requires some { 0 < size_of (shown_all components.items) }
        requires within { size_of (shown_all components.items) < 2 ^ 32 }
        ensures { IfOk result (λ entry. entry ≡ record { state = state; lines = lines; components = shown_all components.items }) }
    {
        let first = Config::unused(lines, state, LinkPhase::Resting, EventsName::Empty);
        let turned = parted(alloc, first, components.as_slice())?;
        // A component of one value makes the product no larger.
        let product = product_of(turned.components.as_slice()) as u32;
        let region = region_of(alloc, state, components.as_slice())?;
        Ok(Entry {
            state,
            lines,
            product,
            components,
            turned,
            region,
        })
    }

    /// The state, by its place in the script.
    pub fn state(&self) -> u8
        ensures { result ≡ self.now.state }
    {
        self.state
    }

    /// How many points it has, those that aren't well formed among them: the whole product.
    pub fn size(&self) -> u32
        ensures size { result ≡ size_of self.now.components }
        ensures some { 0 < result }
    {
        self.product
    }

    /// Its components, in the order of the format's table.
    pub fn components(&self) -> &[Component]
        ensures { shown_all result.now ≡ self.now.components }
    {
        self.components.as_slice()
    }

    /// Whether a configuration, well formed or not, is one of the entry's state, and has each component in its set.
    pub fn allows(&self, config: &Config) -> bool
        ensures { IsTrue result ↔ (((configuration_of config.now).state ≡ self.now.state) × All (Allows (configuration_of config.now)) self.now.components) }
    {
        self.region.has(config)
    }

    /// Whether each of some configurations, well formed or not, is one of the entry's state, and has each component in its set.
    pub(crate) fn allows_each(&self, configs: &[Config]) -> bool
        ensures { IsTrue result ↔ AllowsEach configs.now self.now }
    {
        for config in configs {
            if !self.allows(config) {
                return false;
            }
        }
        true
    }

    /// Whether it has a configuration: it is well formed, one of the entry's state, and has each component in its set.
    pub fn contains(&self, config: &Config) -> bool
        ensures { IsTrue result ↔ Includes self.now (configuration_of config.now) }
    {
        if !self.allows(config) {
            return false;
        }
        is_well_formed(config)
    }

    /// Whether it has a configuration that is well formed: it is one of the entry's state, and has each component in its set.
    pub fn contains_formed(&self, config: &Config) -> bool
        requires { IsWellFormed (configuration_of config.now) }
        ensures { IsTrue result ↔ Includes self.now (configuration_of config.now) }
    {
        self.allows(config)
    }

    /// What its points are made of: the configuration with a number is the one in which the components have the choices with this number.
    pub fn points_by_component(&self) -> PointsByComponent<'_>
        ensures size { size_of (shown_all result.components.now) ≡ size_of self.now.components }
        ensures numbers { (k : ℕ) → k < size_of self.now.components
            → numbered self.now k ≡ chosen (map choices_of (shown_all result.components.now)) k (configuration_of result.base) }
    {
        PointsByComponent {
            base: self.turned.base,
            components: self.turned.components.as_slice(),
        }
    }

    /// The configuration with a number, well formed or not.
    fn numbered(&self, number: u32) -> Config
        requires { number < size_of self.now.components }
        ensures { configuration_of result ≡ numbered self.now number }
    {
        let points = self.points_by_component();
        let mut config = points.base;
        choose_all(
            points.components,
            u64::from(self.size()),
            u64::from(number),
            &mut config,
        );
        config
    }

    /// The point with a number; `None` where it isn't well formed, and past the end.
    pub fn point(&self, number: u32) -> Option<Config>
        ensures point { IfSome result (λ config. IsPointOf self.now number (configuration_of config)) }
        ensures no_point { IfNone result (number < size_of self.now.components → IsWellFormed (numbered self.now number) → ⊥) }
    {
        if number >= self.size() {
            return None;
        }
        let config = self.numbered(number);
        if !is_well_formed(&config) {
            return None;
        }
        Some(config)
    }
}
