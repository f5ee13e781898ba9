//! Commands on a configuration: when each is legal, and what it does, in a file for each command. Here they are told
//! apart.
ghost use Rattle.std.specs.Prelude.{◌≡◌};
ghost use Rattle.mg_model.specs.Effects.{is_legal, effect};
ghost use Rattle.configuration.specs.Config.{configuration_of};

mod add;
mod cuts;
mod modify;
mod moves;
mod options;
mod settling;
mod subtract;
mod topology;

use configuration::config::Config;
use mg_model::commands::Command;
pub(crate) use modify::stands_at;
pub(crate) use moves::is_elsewhere;
use script_table::Script;
pub(crate) use settling::value_of;

/// Whether the gateway executes a command where the call stands in this configuration. A refusal by 500 or 510 is no
/// matter of legality. H.248.1 section 7.2.
pub fn is_legal(config: &Config, command: &Command) -> bool
    ensures { result ≡ is_legal (configuration_of config.now) command.now }
{
    match command {
        Command::AddLine { .. } | Command::AddEphemeral { .. } => add::is_legal(config, command),
        Command::ModifyLine { .. } | Command::ModifyEphemeral { .. } => modify::is_legal(
            config, command,
        ),
        Command::MoveLine { .. } | Command::MoveEphemeral { .. } => moves::is_legal(
            config, command,
        ),
        Command::Subtract { .. } | Command::SubtractAll { .. } => subtract::is_legal(
            config, command,
        ),
        Command::SetTopology { .. } => topology::is_legal(config, command),
    }
}

/// The configuration after a command that is legal in it and whose created names are not bound.
pub fn effect(script: &Script, config: &Config, command: &Command) -> Config
    ensures { configuration_of result ≡ effect script.now (configuration_of config.now) command.now }
{
    let mut after = *config;
    match command {
        Command::AddLine { .. } | Command::AddEphemeral { .. } => add::change(
            script, &mut after, command,
        ),
        Command::ModifyLine { .. } | Command::ModifyEphemeral { .. } => modify::change(
            script, &mut after, command,
        ),
        Command::MoveLine { .. } | Command::MoveEphemeral { .. } => moves::change(
            script, &mut after, command,
        ),
        Command::Subtract { .. } | Command::SubtractAll { .. } => subtract::change(
            &mut after, command,
        ),
        Command::SetTopology { .. } => topology::change(&mut after, command),
    }
    after
}
