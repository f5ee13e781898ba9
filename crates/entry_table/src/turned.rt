//! What the points of an entry are made of: a configuration in which the components of one value have it, and the others.
ghost use Rattle.std.specs.Prelude.{◌≡◌, ◌≤◌, ◌∷◌, List, length, IsTrue, IfOk, OnOk};
ghost use Rattle.mg_model.specs.Configuration.{Configuration};
ghost use Rattle.mg_model.specs.Entries.{Component as Listed, choices_of};
ghost use Rattle.configuration.specs.Config.{configuration_of};
ghost use Rattle.entry_table.specs.Numbers.{number_of};
ghost use Rattle.entry_table.specs.Shown.{shown, shown_all};
ghost use Rattle.entry_table.specs.Turned.{IsTurned, IsParted};

use crate::component::Component;
use crate::numbers::number_of;
use configuration::config::Config;
use std::alloc::{AllocError, Global};

/// What the points of an entry are made of.
#[derive(Drop)]
pub(crate) struct Turned {
    /// A configuration.
    pub(crate) base: Config,
    /// The components that are given their values in it, in their order.
    pub(crate) components: Vec<Component>,
    /// Their numbers are below this one.
    above: usize,
}

/// The same component once more.
fn again(alloc: Global, component: &Component) -> Result<Component, AllocError>
    ensures { IfOk result (λ copy. shown copy ≡ shown component.now) }
{
    Ok(match component {
        Component::Links(values) => Component::Links(values.again(alloc)?),
        Component::Spots(t, values) => Component::Spots(*t, values.again(alloc)?),
        Component::Modes(t, values) => Component::Modes(*t, values.again(alloc)?),
        Component::Events(i, values) => Component::Events(*i, values.again(alloc)?),
        Component::Plays(i, values) => Component::Plays(*i, values.again(alloc)?),
        Component::Contexts(j, values) => { Component::Contexts(*j, values.again(alloc)?) }
        Component::Remotes(k, values) => Component::Remotes(*k, values.again(alloc)?),
        Component::Cuts(t, u, values) => { Component::Cuts(*t, *u, values.again(alloc)?) }
    })
}

/// Whether a component has one value alone, and isn't one of those whose numbers are below this one.
fn is_fixed(component: &Component, above: usize) -> bool
    ensures { IsTrue result → (length (choices_of (shown component.now)) ≡ 1) × (above ≤ number_of (shown component.now)) }
{
    component.count() == 1 && number_of(component) >= above
}

/// Gives the configuration the value of a component that is fixed, and keeps another.
fn take(alloc: Global, component: &Component, turned: &mut Turned) -> Result<(), AllocError>
    ensures { OnOk result ((all rest : List Listed) (first : Configuration)
        → IsParted all first (shown component.now ∷ rest) (shown_all turned.old.components.items) (configuration_of turned.old.base) turned.old.above
        → IsParted all first rest (shown_all turned.new.components.items) (configuration_of turned.new.base) turned.new.above) }
{
    if is_fixed(component, turned.above) {
        component.give(0, &mut turned.base);
        return Ok(());
    }
    turned.components.push(again(alloc, component)?)?;
    turned.above = turned.above.max(number_of(component) + 1);
    Ok(())
}

/// Gives a configuration the values of those components that have one alone, but for one whose value an earlier one of these
/// might turn, and keeps the others. In the order of the format's table it is given all of them. The only error is running out
/// of memory.
pub(crate) fn parted(
    alloc: Global,
    first: Config,
    components: &[Component],
) -> Result<Turned, AllocError>
    ensures { IfOk result (λ t. IsTurned (shown_all components.now) (configuration_of first) (shown_all t.components.items) (configuration_of t.base)) }
{
    let mut turned = Turned {
        base: first,
        components: Vec::new(alloc),
        above: 0,
    };
    for component in components {
        take(alloc, component, &mut turned)?;
    }
    Ok(turned)
}
