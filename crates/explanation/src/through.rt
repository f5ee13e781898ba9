//! The configurations that a way leads along, and those that a move's commands lead through.
ghost use Rattle.std.specs.Prelude.{◌≡◌, ◌++◌, IfOk, take};
ghost use Rattle.mg_model.specs.Steps.{opening, request_in};
ghost use Rattle.configuration.specs.Config.{configuration_of};
ghost use Rattle.call_ways.specs.Ways.{shown};
ghost use Rattle.explanation.specs.Causes.{along, executes, through};
ghost use Rattle.explanation.specs.Shown.{values_of};

use built_request::Request;
use call_ways::way::{Move, WayStep};
use closure::effects::effect;
use closure::requests::bound_in;
use closure::steps::opening;
use configuration::config::Config;
use mg_model::commands::Command;
use mg_model::steps::StepName;
use script_table::Script;
use std::alloc::{AllocError, Global};

/// The configurations that a way from the opening leads along.
pub(crate) fn along(
    alloc: Global,
    script: &Script,
    way: &[WayStep],
) -> Result<Vec<Config>, AllocError>
    ensures { IfOk result (λ configs. values_of configs.items ≡ along (opening script.now) (shown way.now)) }
{
    let mut configs = Vec::new(alloc);
    configs.push(opening(script))?;
    for step in way {
        configs.push(step.to)?;
    }
    Ok(configs)
}

/// The commands of the request that a configuration's state builds in it.
fn request_of(alloc: Global, script: &Script, config: &Config) -> Result<Vec<Command>, AllocError>
    ensures { IfOk result (λ commands. commands.items ≡ request_in script.now (configuration_of config.now) (configuration_of config.now).state) }
{
    let mut request = Request::new(script, bound_in(config), config.state());
    let mut commands = Vec::new(alloc);
    for _ in 0..script.commands_of(config.state()).len() {
        let Some(command) = request.take_first() else {
            return Ok(commands);
        };
        commands.push(command)?;
    }
    Ok(commands)
}

/// What of its request a move from a configuration executes.
pub(crate) fn executed(
    alloc: Global,
    script: &Script,
    config: &Config,
    by: Move,
) -> Result<Vec<Command>, AllocError>
    ensures { IfOk result (λ commands. commands.items ≡ executes script.now (configuration_of config.now) by) }
{
    match by {
        Move::Takes(StepName::Execute) => request_of(alloc, script, config),
        Move::Takes(StepName::Refuse(place)) => {
            let mut commands = request_of(alloc, script, config)?;
            commands.truncate(place);
            Ok(commands)
        }
        _ => Ok(Vec::new(alloc)),
    }
}

/// The configurations that commands lead through.
pub(crate) fn through(
    alloc: Global,
    script: &Script,
    config: &Config,
    commands: &[Command],
) -> Result<Vec<Config>, AllocError>
    ensures { IfOk result (λ configs. values_of configs.items ≡ through script.now (configuration_of config.now) commands.now) }
{
    let mut configs = Vec::new(alloc);
    configs.push(*config)?;
    let mut current = *config;
    for command in commands {
        current = effect(script, &current, command);
        configs.push(current)?;
    }
    Ok(configs)
}
