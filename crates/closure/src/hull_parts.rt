//! Whether entries have all in the hull of a few configurations: where one allows each of these, it allows all. Where no one does, the hull is parted
//! by a component that an entry gives other values, and each part is asked by itself.
ghost use Rattle.std.specs.Prelude.{◌≡◌, IsTrue, IfOk, IfSome, Contains, map};
ghost use Rattle.mg_model.specs.Entries.{Allows};
ghost use Rattle.configuration.specs.Config.{configuration_of};
ghost use Rattle.entry_table.specs.Shown.{shown};
ghost use Rattle.closure.specs.Hulls.{IsHullCovered};
ghost use Rattle.closure.specs.Parts.{HasPart, IsPart, IsSetOf, with_component_of};

use crate::hull::{Hull, TooMany};
use crate::looks::Looks;
use configuration::config::Config;
use configuration::value_set::ValueSet;
use entry_table::{Cert, Component, Entry, set_of};
use std::slice;

/// How deep parts are parted at most: each takes room for its hull until it is told of.
const DEEPEST: u32 = 128;

/// To ask a state's entries for a configuration takes so many looks, and so many to part one.
const LOOKS_AN_INDEX: u64 = 3;

const LOOKS_A_PARTING: u64 = 4;

/// To find what parts a hull takes so many looks.
const LOOKS_A_COMPONENT: u64 = 64;

/// By what a hull is parted: a component with a configuration that it allows, and one that it doesn't.
#[derive(Drop)]
struct Parting<'c> {
    component: &'c Component,
    within: Config,
    without: Config,
}

/// Gives a configuration another one's value of a component.
fn take_component(config: &mut Config, component: &Component, like: &Config)
    ensures { configuration_of config.new ≡ with_component_of (shown component.now) (configuration_of like.now) (configuration_of config.old) }
{
    match component {
        Component::Links(_) => config.set_link(like.link()),
        Component::Spots(t, _) => config.set_spot(*t, like.spot(*t)),
        Component::Modes(t, _) => config.set_mode(*t, like.mode(*t)),
        Component::Events(line, _) => config.set_events(*line, like.events(*line)),
        Component::Plays(line, _) => config.set_plays(*line, like.plays(*line)),
        Component::Contexts(name, _) => config.set_context(*name, like.context(*name)),
        Component::Remotes(name, _) => config.set_remote(*name, like.remote(*name)),
        Component::Cuts(t, u, _) => config.set_cut(*t, *u, like.cut(*t, *u)),
    }
}

/// A configuration, if a component, whose values this set has, allows it as it is to, or else with another one's value of that component.
fn part_of(
    config: &Config,
    component: &Component,
    set: &ValueSet,
    allowed: bool,
    like: &Config,
) -> Config
    requires { IsSetOf set.now (shown component.now) }
    ensures { IsPart (shown component.now) allowed (configuration_of like.now) (configuration_of config.now) (configuration_of result) }
{
    let mut part = *config;
    match (set.has(config), allowed) {
        (true, true) => {}
        (true, false) => take_component(&mut part, component, like),
        (false, true) => take_component(&mut part, component, like),
        (false, false) => {}
    }
    part
}

/// The same of some configurations.
fn part_each(
    hull: &Hull,
    component: &Component,
    allowed: bool,
    like: &Config,
) -> Result<Hull, TooMany>
    ensures { IfOk result (λ m. HasPart (shown component.now) allowed (configuration_of like.now) (map configuration_of hull.now) (map configuration_of m)) }
{
    let set = set_of(component);
    hull.map(|config| part_of(config, component, &set, allowed, like))
}

/// The first component of an entry that doesn't allow a configuration.
fn component_without<'e>(entry: &'e Entry, config: &Config) -> Option<&'e Component>
    ensures { IfSome result (λ component. Contains entry.now.components (shown component.now)
        × (Allows (configuration_of config.now) (shown component.now) → ⊥)) }
{
    for component in entry.components() {
        if !component.allows(config) {
            return Some(component);
        }
    }
    None
}

/// What parts a hull, of the first entry of a state that allows the first of it: the first component that doesn't allow the first that the entry doesn't.
/// Nothing where no entry allows that, or the entry's components allow each.
fn parting_of<'c>(cert: &'c Cert, hull: &Hull, state: u8) -> Option<Parting<'c>>
    ensures parts { IfSome result (λ parting. Allows (configuration_of parting.within) (shown parting.component.now)
        × (Allows (configuration_of parting.without) (shown parting.component.now) → ⊥)) }
    ensures of_these { IfSome result (λ parting. Contains hull.now parting.within × Contains hull.now parting.without) }
{
    let one = hull.as_slice().first()?;
    let entry = cert.entry_with_all(state, slice::from_ref(one))?;
    let without = hull.find(|config| !entry.allows(config))?;
    let component = component_without(entry, &without)?;
    Some(Parting {
        component,
        within: *one,
        without,
    })
}

/// Whether entries of a state have all in the hull of some configurations, and well formed: one has all, or entries have all of either of two parts. It
/// fails too where so many looks, or so deep a parting, aren't enough.
fn are_in_parts(cert: &Cert, hull: &Hull, state: u8, depth: u32, looks: &mut Looks) -> bool
    ensures { IsTrue result → IsHullCovered cert.now (map configuration_of hull.now) }
{
    if depth == 0 || !looks.take(LOOKS_AN_INDEX, hull.as_slice().len()) {
        return false;
    }
    if let Some(_entry) = cert.entry_with_all(state, hull.as_slice()) {
        return true;
    }
    if !looks.take(LOOKS_A_PARTING, hull.as_slice().len()) {
        return false;
    }
    if !looks.take(LOOKS_A_COMPONENT, 1) {
        return false;
    }
    let Some(parting) = parting_of(cert, hull, state) else {
        return false;
    };
    let Ok(within) = part_each(hull, parting.component, true, &parting.within) else {
        return false;
    };
    if !are_in_parts(cert, &within, state, depth - 1, looks) {
        return false;
    }
    let Ok(without) = part_each(hull, parting.component, false, &parting.without) else {
        return false;
    };
    are_in_parts(cert, &without, state, depth - 1, looks)
}

/// Whether entries have all in the hull of some configurations of one state, and well formed.
pub(crate) fn are_in_entries(cert: &Cert, hull: &Hull, looks: &mut Looks) -> bool
    ensures { IsTrue result → IsHullCovered cert.now (map configuration_of hull.now) }
{
    let Some(one) = hull.as_slice().first() else {
        return false;
    };
    are_in_parts(cert, hull, one.state(), DEEPEST, looks)
}
