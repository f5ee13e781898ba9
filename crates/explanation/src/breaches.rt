//! What of a configuration breaks an obligation.
ghost use Rattle.std.specs.Prelude.{◌≡◌, ◌↔◌, ◌++◌, ◌∷◌, [], IsTrue, IfOk, OnOk, if◌then◌else◌};
ghost use Rattle.std.specs.List.{list_any};
ghost use Rattle.mg_names.specs.declared.context_values.ContextValue.TheVariants as ContextValue;
ghost use Rattle.mg_model.specs.declared.components.Remote.TheVariants as Remote;
ghost use Rattle.configuration.specs.Config.{configuration_of};
ghost use Rattle.explanation.specs.declared.breach.Breach.TheVariants as Breach;
ghost use Rattle.explanation.specs.Created.{creates_context, creates_ephemeral};
ghost use Rattle.explanation.specs.Breaches.{IsBreach, ArePicked, candidates_of};

use crate::breach::{Breach, candidates};
use crate::created::{creates_context, creates_ephemeral};
use closure::obligations::{is_armed_list, is_marked};
use configuration::config::Config;
use configuration::config::paths::Ways;
use configuration::spots::{is_free, is_null, is_present};
use mg_model::commands::{Command, Termination};
use mg_model::components::Remote;
use mg_model::transitions::Pair;
use mg_names::context_values::ContextValue;
use mg_names::obligations::Obligation;
use mg_names::slots::Slot;
use script_table::Script;
use std::alloc::{AllocError, Global};

/// Whether two lines of the script are joined, and the state doesn't mark them.
fn is_joined(script: &Script, config: &Config, pair: Pair) -> bool
    ensures { IsTrue result ↔ IsBreach script.now (configuration_of config.now) (Breach.Joined pair) }
{
    if pair.first.index() >= script.lines() {
        return false;
    }
    if pair.second.index() >= script.lines() {
        return false;
    }
    let ways = Ways::of(config);
    if !ways.join(pair.first, pair.second) {
        return false;
    }
    !is_marked(script.talk_of(config.state()), pair.first, pair.second)
}

/// Whether it is a line of the script that is not in the null context.
fn is_away(script: &Script, config: &Config, line: Slot) -> bool
    ensures { IsTrue result ↔ IsBreach script.now (configuration_of config.now) (Breach.Away line) }
{
    if line.index() >= script.lines() {
        return false;
    }
    !is_null(config.spot(Termination::Line(line)))
}

/// Whether it is a line of the script that may still play a signal.
fn is_playing(script: &Script, config: &Config, line: Slot) -> bool
    ensures { IsTrue result ↔ IsBreach script.now (configuration_of config.now) (Breach.Playing line) }
{
    if line.index() >= script.lines() {
        return false;
    }
    config.plays(line)
}

/// Whether it is a line of the script that isn't armed for off-hook alone.
fn is_not_armed(script: &Script, config: &Config, line: Slot) -> bool
    ensures { IsTrue result ↔ IsBreach script.now (configuration_of config.now) (Breach.NotArmed line) }
{
    if line.index() >= script.lines() {
        return false;
    }
    !is_armed_list(script.list(config.events(line)))
}

/// Whether a state's commands create a context.
fn is_context_created(commands: &[Command], context: Slot) -> bool
    ensures { result ≡ list_any (creates_context context) commands.now }
{
    commands
        .iter()
        .any(|command| creates_context(command, context))
}

/// Whether a state's commands create an ephemeral.
fn is_ephemeral_created(commands: &[Command], ephemeral: Slot) -> bool
    ensures { result ≡ list_any (creates_ephemeral ephemeral) commands.now }
{
    commands
        .iter()
        .any(|command| creates_ephemeral(command, ephemeral))
}

/// Whether the state creates a context whose name is bound.
fn is_bound_context(script: &Script, config: &Config, context: Slot) -> bool
    ensures { IsTrue result ↔ IsBreach script.now (configuration_of config.now) (Breach.BoundContext context) }
{
    if is_free(config.context(context)) {
        return false;
    }
    is_context_created(script.commands_of(config.state()), context)
}

/// Whether the state creates an ephemeral that exists.
fn is_bound_ephemeral(script: &Script, config: &Config, ephemeral: Slot) -> bool
    ensures { IsTrue result ↔ IsBreach script.now (configuration_of config.now) (Breach.BoundEphemeral ephemeral) }
{
    if !is_present(config.spot(Termination::Ephemeral(ephemeral))) {
        return false;
    }
    is_ephemeral_created(script.commands_of(config.state()), ephemeral)
}

/// Whether a context name is bound to one that has been deleted. This profile's own.
pub fn is_stale(value: ContextValue) -> bool
    ensures { IsTrue result ↔ value ≡ ContextValue.Stale }
{
    match value {
        ContextValue::Stale => true,
        ContextValue::Free => false,
        ContextValue::Live => false,
    }
}

/// Whether a Remote names an ephemeral that has been destroyed. This profile's own.
pub fn is_gone(remote: Remote) -> bool
    ensures { IsTrue result ↔ remote ≡ Remote.Gone }
{
    match remote {
        Remote::Gone => true,
        Remote::Unset => false,
        Remote::To(_) => false,
    }
}

/// Whether a configuration has this that breaks its obligation.
fn is_breach(script: &Script, config: &Config, breach: &Breach) -> bool
    ensures { IsTrue result ↔ IsBreach script.now (configuration_of config.now) breach.now }
{
    match *breach {
        Breach::Joined(pair) => is_joined(script, config, pair),
        Breach::Away(line) => is_away(script, config, line),
        Breach::Playing(line) => is_playing(script, config, line),
        Breach::NotArmed(line) => is_not_armed(script, config, line),
        Breach::Remaining(name) => is_present(config.spot(Termination::Ephemeral(name))),
        Breach::BoundContext(name) => is_bound_context(script, config, name),
        Breach::BoundEphemeral(name) => is_bound_ephemeral(script, config, name),
        Breach::StaleContext(name) => is_stale(config.context(name)),
        Breach::GoneRemote(name) => is_gone(config.remote(name)),
    }
}

/// Adds a breach where it is one.
fn add_if(breaches: &mut Vec<Breach>, holds: bool, breach: &Breach) -> Result<(), AllocError>
    ensures { OnOk result (breaches.new.items ≡ breaches.old.items ++ (if holds then breach.now ∷ [] else [])) }
{
    if holds {
        breaches.extend_from_slice(&[*breach])?;
    }
    Ok(())
}

/// All of a configuration that breaks an obligation of a point, in their order; nothing for the obligations of other kinds. The only error is
/// running out of memory.
pub fn find_breaches(
    alloc: Global,
    script: &Script,
    config: &Config,
    obligation: Obligation,
) -> Result<Vec<Breach>, AllocError>
    ensures { IfOk result (λ found. ArePicked script.now (configuration_of config.now) (candidates_of obligation) found.items) }
{
    let candidates = candidates(alloc, obligation)?;
    let mut found = Vec::new(alloc);
    for breach in candidates.as_slice() {
        let holds = is_breach(script, config, breach);
        add_if(&mut found, holds, breach)?;
    }
    Ok(found)
}
