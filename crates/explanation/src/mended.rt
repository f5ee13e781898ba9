//! An entry that has a configuration.
ghost use Rattle.std.specs.Prelude.{◌≡◌, ◌++◌, ◌∷◌, [], ℕ, IfNone, IfOk, IfSome, IsSome, OnOk, Some, map, slice_get};
ghost use Rattle.std.specs.List.{flat_map};
ghost use Rattle.mg_model.specs.Configuration.{IsWellFormed};
ghost use Rattle.mg_model.specs.Entries.{Entry as Listed, Includes, modes, size_of, spots};
ghost use Rattle.configuration.specs.Config.{configuration_of};
ghost use Rattle.entry_table.specs.Shown.{shown, shown_all};
ghost use Rattle.explanation.specs.Alone.{AreOnly, AreTooWide, IsMended, IsOnly, NoneWidens, bare, bare_all, bare_components, terminations_of};
ghost use Rattle.explanation.specs.Alone.{context_component, cut_components, ephemeral_components, line_components};
ghost use Rattle.explanation.specs.Nearest.{IsNearest};

use crate::nearest::find_nearest;
use crate::only::{
    only_context, only_cut, only_events, only_link, only_mode, only_plays, only_remote, only_spot,
};
use crate::widened::widen;
use configuration::config::Config;
use configuration::spots::is_same;
use entry_table::{Cert, Component, Entry};
use mg_model::commands::Termination;
use mg_names::slots::Slot;
use script_table::Script;
use std::alloc::{AllocError, Global};

/// An entry that has a configuration. This profile's own.
#[derive(Drop)]
pub struct Mended {
    /// The entry.
    pub entry: Entry,
    /// The place in the certificate of an entry whose configurations it has too; none where it has one point.
    pub widens: Option<usize>,
}

/// The terminations that a script names.
fn terminations(alloc: Global, script: &Script) -> Result<Vec<Termination>, AllocError>
    ensures { IfOk result (λ all. all.items ≡ terminations_of script.now) }
{
    let mut all = Vec::new(alloc);
    let slots = Slot::all();
    all.extend_from_slice(&[
        Termination::Line(slots[0]),
        Termination::Line(slots[1]),
        Termination::Line(slots[2]),
        Termination::Line(slots[3]),
    ])?;
    all.truncate(script.lines());
    let ephemerals = [
        Termination::Ephemeral(slots[0]),
        Termination::Ephemeral(slots[1]),
        Termination::Ephemeral(slots[2]),
        Termination::Ephemeral(slots[3]),
    ];
    all.extend_from_slice(&ephemerals[..script.ephemerals()])?;
    Ok(all)
}

/// Adds a component that has the configuration's value alone.
fn add_only(
    components: &mut Vec<Component>,
    component: Component,
    config: &Config,
) -> Result<(), AllocError>
    requires only { IsOnly (configuration_of config.now) (shown component) }
    requires so_far { AreOnly (configuration_of config.now) (shown_all components.old.items) }
    ensures only { OnOk result (AreOnly (configuration_of config.now) (shown_all components.new.items)) }
    ensures adds { OnOk result (bare_all components.new.items ≡ bare_all components.old.items ++ bare (shown component) ∷ []) }
{
    let _ = config;
    components.push(component)?;
    Ok(())
}

/// Adds where a termination stands, and its mode.
fn add_place(
    components: &mut Vec<Component>,
    termination: &Termination,
    config: &Config,
) -> Result<(), AllocError>
    requires { AreOnly (configuration_of config.now) (shown_all components.old.items) }
    ensures only { OnOk result (AreOnly (configuration_of config.now) (shown_all components.new.items)) }
    ensures adds { OnOk result (bare_all components.new.items ≡ bare_all components.old.items ++ spots termination.now [] ∷ modes termination.now [] ∷ []) }
{
    add_only(components, only_spot(config, termination), config)?;
    add_only(components, only_mode(config, termination), config)?;
    Ok(())
}

/// Adds the components of lines, each with the configuration's value.
fn add_lines(
    components: &mut Vec<Component>,
    lines: &[Slot],
    config: &Config,
) -> Result<(), AllocError>
    requires { AreOnly (configuration_of config.now) (shown_all components.old.items) }
    ensures only { OnOk result (AreOnly (configuration_of config.now) (shown_all components.new.items)) }
    ensures adds { OnOk result (bare_all components.new.items ≡ bare_all components.old.items ++ flat_map line_components lines.now) }
{
    for line in lines {
        add_place(components, &Termination::Line(*line), config)?;
        add_only(components, only_events(config, *line), config)?;
        add_only(components, only_plays(config, *line), config)?;
    }
    Ok(())
}

/// Adds the components of contexts.
fn add_contexts(
    components: &mut Vec<Component>,
    contexts: &[Slot],
    config: &Config,
) -> Result<(), AllocError>
    requires { AreOnly (configuration_of config.now) (shown_all components.old.items) }
    ensures only { OnOk result (AreOnly (configuration_of config.now) (shown_all components.new.items)) }
    ensures adds { OnOk result (bare_all components.new.items ≡ bare_all components.old.items ++ map context_component contexts.now) }
{
    for context in contexts {
        add_only(components, only_context(config, *context), config)?;
    }
    Ok(())
}

/// Adds the components of ephemerals.
fn add_ephemerals(
    components: &mut Vec<Component>,
    ephemerals: &[Slot],
    config: &Config,
) -> Result<(), AllocError>
    requires { AreOnly (configuration_of config.now) (shown_all components.old.items) }
    ensures only { OnOk result (AreOnly (configuration_of config.now) (shown_all components.new.items)) }
    ensures adds { OnOk result (bare_all components.new.items ≡ bare_all components.old.items ++ flat_map ephemeral_components ephemerals.now) }
{
    for ephemeral in ephemerals {
        add_place(components, &Termination::Ephemeral(*ephemeral), config)?;
        add_only(components, only_remote(config, *ephemeral), config)?;
    }
    Ok(())
}

/// Adds what is cut from a termination to others.
fn add_cuts_from(
    components: &mut Vec<Component>,
    source: &Termination,
    terminations: &[Termination],
    config: &Config,
) -> Result<(), AllocError>
    requires { AreOnly (configuration_of config.now) (shown_all components.old.items) }
    ensures only { OnOk result (AreOnly (configuration_of config.now) (shown_all components.new.items)) }
    ensures adds { OnOk result (bare_all components.new.items ≡ bare_all components.old.items ++ cut_components terminations.now source.now) }
{
    for sink in terminations {
        if !is_same(source, sink) {
            add_only(components, only_cut(config, source, sink), config)?;
        }
    }
    Ok(())
}

/// Adds what is cut between terminations.
fn add_cuts(
    components: &mut Vec<Component>,
    terminations: &[Termination],
    config: &Config,
) -> Result<(), AllocError>
    requires { AreOnly (configuration_of config.now) (shown_all components.old.items) }
    ensures only { OnOk result (AreOnly (configuration_of config.now) (shown_all components.new.items)) }
    ensures adds { OnOk result (bare_all components.new.items ≡ bare_all components.old.items ++ flat_map (cut_components terminations.now) terminations.now) }
{
    for source in terminations {
        add_cuts_from(components, source, terminations, config)?;
    }
    Ok(())
}

/// The entry of one point that has a configuration. The only error is running out of memory.
#[tactic(auto, using(crate::proofs::Single::all_allowed, crate::proofs::Single::one_point))]
pub fn alone(alloc: Global, script: &Script, config: &Config) -> Result<Entry, AllocError>
    requires { IsWellFormed (configuration_of config.now) }
    ensures includes { IfOk result (λ entry. Includes entry (configuration_of config.now)) }
    ensures one { IfOk result (λ entry. size_of entry.components ≡ 1) }
    ensures whole { IfOk result (λ entry. map bare entry.components ≡ bare_components script.now) }
{
    let slots = Slot::all();
    let mut components = Vec::new(alloc);
    add_only(&mut components, only_link(config), config)?;
    add_lines(&mut components, &slots[..script.lines()], config)?;
    add_contexts(&mut components, &slots[..script.contexts()], config)?;
    add_ephemerals(&mut components, &slots[..script.ephemerals()], config)?;
    let terminations = terminations(alloc, script)?;
    add_cuts(&mut components, terminations.as_slice(), config)?;
    Entry::new(alloc, config.state(), script.lines(), components)
}

/// The place of the nearest entry of a configuration, if one of its components alone doesn't have the configuration's value.
#[tactic(auto, using(crate::proofs::NearestOnce::none_nearest, crate::proofs::NearestOnce::none_other))]
fn near_miss(cert: &Cert, config: &Config) -> Option<usize>
    ensures some { IfSome result (λ place. IsNearest cert.now (configuration_of config.now) place 1) }
    ensures none { IfNone result ((place : ℕ) → IsNearest cert.now (configuration_of config.now) place 1 → ⊥) }
{
    let found = find_nearest(cert, config)?;
    if found.missing != 1 {
        return None;
    }
    Some(found.place)
}

/// The entry at a place with a configuration's values among its own. `None` where that isn't an entry of the configuration's state, or would have
/// more points than an entry may. The only error is running out of memory.
fn widened_at(
    alloc: Global,
    script: &Script,
    cert: &Cert,
    place: usize,
    config: &Config,
) -> Result<Option<Mended>, AllocError>
    requires { IsWellFormed (configuration_of config.now) }
    ensures mends { IfOk result (λ found. IfSome found (λ mended. IsMended cert.now (configuration_of config.now) mended.widens mended.entry)) }
    ensures place { IfOk result (λ found. IfSome found (λ mended. mended.widens ≡ Some place)) }
    ensures none { IfOk result (λ found. IfNone found ((entry : Listed) → slice_get cert.now place ≡ Some entry
        → entry.state ≡ (configuration_of config.now).state → AreTooWide (configuration_of config.now) entry.components)) }
{
    let Some(entry) = cert.entries().get(place) else {
        return Ok(None);
    };
    if entry.state() != config.state() {
        return Ok(None);
    }
    let Some(wide) = widen(alloc, script, entry, config)? else {
        return Ok(None);
    };
    Ok(Some(Mended {
        entry: wide,
        widens: Some(place),
    }))
}

/// The nearest entry of a configuration with its value added, where one of its components alone lacks it. `None` where none does, or that would
/// have more points than an entry may. The only error is running out of memory.
#[tactic(auto, using(crate::proofs::NearestOnce::none_widens))]
fn nearest_widened(
    alloc: Global,
    script: &Script,
    cert: &Cert,
    config: &Config,
) -> Result<Option<Mended>, AllocError>
    requires { IsWellFormed (configuration_of config.now) }
    ensures mends { IfOk result (λ found. IfSome found (λ mended. IsMended cert.now (configuration_of config.now) mended.widens mended.entry)) }
    ensures nearest { IfOk result (λ found. IfSome found (λ mended.
        IfSome mended.widens (λ place. IsNearest cert.now (configuration_of config.now) place 1))) }
    ensures widens { IfOk result (λ found. IfSome found (λ mended. IsSome mended.widens)) }
    ensures none { IfOk result (λ found. IfNone found (NoneWidens cert.now (configuration_of config.now))) }
{
    let Some(place) = near_miss(cert, config) else {
        return Ok(None);
    };
    widened_at(alloc, script, cert, place, config)
}

/// An entry that has a configuration: the nearest one with the configuration's value added, where one of its components alone lacks it and it
/// doesn't get too many points; else one that has one point, this configuration. An entry that lacks more would, with all of them added, have
/// configurations that no call comes to. The only error is running out of memory.
pub fn mend(
    alloc: Global,
    script: &Script,
    cert: &Cert,
    config: &Config,
) -> Result<Mended, AllocError>
    requires { IsWellFormed (configuration_of config.now) }
    ensures mends { IfOk result (λ mended. IsMended cert.now (configuration_of config.now) mended.widens mended.entry) }
    ensures nearest { IfOk result (λ mended. IfSome mended.widens (λ place. IsNearest cert.now (configuration_of config.now) place 1)) }
    ensures none { IfOk result (λ mended. IfNone mended.widens (NoneWidens cert.now (configuration_of config.now))) }
    ensures whole { IfOk result (λ mended. IfNone mended.widens (map bare mended.entry.components ≡ bare_components script.now)) }
{
    if let Some(mended) = nearest_widened(alloc, script, cert, config)? {
        return Ok(mended);
    }
    let entry = alone(alloc, script, config)?;
    Ok(Mended {
        entry,
        widens: None,
    })
}
