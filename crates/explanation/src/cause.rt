//! The command that brought it about that a configuration breaks an obligation.
ghost use Rattle.std.specs.Prelude.{◌≡◌, ◌<◌, IfNone, IfOk, IfSome, length};
ghost use Rattle.mg_model.specs.Steps.{opening};
ghost use Rattle.configuration.specs.Config.{configuration_of};
ghost use Rattle.call_ways.specs.Ways.{shown};
ghost use Rattle.explanation.specs.Causes.{HasNoCause, IsCause, IsLastWithout, NoneWithin, along, executes, through};
ghost use Rattle.explanation.specs.Shown.{values_of};

use crate::breach::Breach;
use crate::last::last_without;
use crate::through::{along, executed, through};
use call_ways::way::{Move, WayStep};
use configuration::config::Config;
use mg_model::commands::Command;
use script_table::Script;
use std::alloc::{AllocError, Global};

/// A command of a move of a way. This profile's own.
#[derive(Drop)]
pub struct Cause {
    /// The move's place on the way, from 0.
    pub move_place: usize,
    /// The place of the state whose request it is.
    pub state: u8,
    /// What the move executes of that request.
    pub commands: Vec<Command>,
    /// The command's place among these, from 0.
    pub command_place: usize,
}

/// The last command that a move from a configuration executes before which a breach isn't shown, with the place of the move. `None` only where
/// there is none.
fn cause_within(
    alloc: Global,
    script: &Script,
    config: &Config,
    by: Move,
    breach: &Breach,
    move_place: usize,
) -> Result<Option<Cause>, AllocError>
    ensures place { IfOk result (λ found. IfSome found (λ cause. cause.move_place ≡ move_place)) }
    ensures state { IfOk result (λ found. IfSome found (λ cause. cause.state ≡ (configuration_of config.now).state)) }
    ensures executed { IfOk result (λ found. IfSome found (λ cause. cause.commands.items ≡ executes script.now (configuration_of config.now) by)) }
    ensures within { IfOk result (λ found. IfSome found (λ cause. cause.command_place < length cause.commands.items)) }
    ensures command { IfOk result (λ found. IfSome found (λ cause. IsLastWithout script.now
        (through script.now (configuration_of config.now) (executes script.now (configuration_of config.now) by)) breach.now cause.command_place)) }
    ensures none { IfOk result (λ found. IfNone found (NoneWithin script.now (configuration_of config.now) by breach.now)) }
{
    let commands = executed(alloc, script, config, by)?;
    let configs = through(alloc, script, config, commands.as_slice())?;
    let Some(command_place) = last_without(script, configs.as_slice(), breach) else {
        return Ok(None);
    };
    if command_place >= commands.len() {
        return Ok(None);
    }
    Ok(Some(Cause {
        move_place,
        state: config.state(),
        commands,
        command_place,
    }))
}

/// The same as `find_cause`, of a way that leads along these configurations.
fn cause_along(
    alloc: Global,
    script: &Script,
    way: &[WayStep],
    configs: &[Config],
    breach: &Breach,
) -> Result<Option<Cause>, AllocError>
    requires { values_of configs.now ≡ along (opening script.now) (shown way.now) }
    ensures cause { IfOk result (λ found. IfSome found (IsCause script.now (opening script.now) (shown way.now) breach.now)) }
    ensures none { IfOk result (λ found. IfNone found (HasNoCause script.now (opening script.now) (shown way.now) breach.now)) }
{
    let Some(place) = last_without(script, configs, breach) else {
        return Ok(None);
    };
    let Some(step) = way.get(place) else {
        return Ok(None);
    };
    let Some(config) = configs.get(place) else {
        return Ok(None);
    };
    cause_within(alloc, script, config, step.by, breach, place)
}

/// The command of a way from the opening that brought about what a breach is about: behind it that is so to the end of the way, and right before it
/// isn't. `None` only where no command did: where the call opens so, where a restart left it so, or another move that executes nothing, and where it
/// isn't so at the end. The only error is running out of memory.
pub fn find_cause(
    alloc: Global,
    script: &Script,
    way: &[WayStep],
    breach: &Breach,
) -> Result<Option<Cause>, AllocError>
    ensures cause { IfOk result (λ found. IfSome found (IsCause script.now (opening script.now) (shown way.now) breach.now)) }
    ensures none { IfOk result (λ found. IfNone found (HasNoCause script.now (opening script.now) (shown way.now) breach.now)) }
{
    let configs = along(alloc, script, way)?;
    cause_along(alloc, script, way, configs.as_slice(), breach)
}
