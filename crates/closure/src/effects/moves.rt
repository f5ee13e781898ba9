//! Move (H.248.1 section 7.2.4): takes a termination from its context into another that exists. What was set for its
//! pairs is forgotten.
ghost use Rattle.std.specs.Prelude.{◌≡◌, ◌&&◌, if◌then◌else◌};
ghost use Rattle.mg_model.specs.Configuration.{is_same};
ghost use Rattle.mg_model.specs.Effects.{is_legal, effect, is_elsewhere, put_in, without_cuts_of};
ghost use Rattle.closure.specs.Groups.{is_move};
ghost use Rattle.configuration.specs.Config.{configuration_of};

use crate::effects::cuts::forget_cuts;
use crate::effects::options::{is_remote_legal, set_ephemeral_options, set_line_options};
use crate::effects::settling::put_in;
use configuration::config::Config;
use configuration::spots;
use mg_model::commands::{Command, Termination};
use mg_model::components::Spot;
use mg_names::slots::Slot;
use script_table::Script;

/// Whether a termination stands in a context that is neither the null context nor the given one.
pub(crate) fn is_elsewhere(spot: Spot, context: Slot) -> bool
    ensures { result ≡ is_elsewhere spot context }
{
    match spot {
        Spot::In(slot) => slot.index() != context.index(),
        Spot::Null => false,
        Spot::Absent => false,
    }
}

/// Whether a command is a Move that is legal.
pub(super) fn is_legal(config: &Config, command: &Command) -> bool
    ensures { result ≡ (is_move command.now && is_legal (configuration_of config.now) command.now) }
{
    match *command {
        Command::MoveLine { context, line, .. } => {
            let exists = spots::is_live(config.context(context));
            let stands = is_elsewhere(config.spot(Termination::Line(line)), context);
            exists && stands
        }
        Command::MoveEphemeral {
            context,
            ephemeral,
            options,
        } => {
            let exists = spots::is_live(config.context(context));
            let stands = is_elsewhere(config.spot(Termination::Ephemeral(ephemeral)), context);
            let remote = is_remote_legal(config, &options.remote);
            exists && stands && remote
        }
        _ => false,
    }
}

/// Moves a termination to another context; what was set for its pairs is forgotten.
fn move_to(config: &mut Config, termination: &Termination, context: Slot)
    ensures { configuration_of config.new ≡ put_in (record (configuration_of config.old) { cut = without_cuts_of (is_same termination.now) (configuration_of config.old).cut }) termination.now context }
{
    forget_cuts(config, termination);
    put_in(config, *termination, context);
}

/// What a Move does; nothing if the command is another.
pub(super) fn change(script: &Script, config: &mut Config, command: &Command)
    ensures { configuration_of config.new ≡ (if is_move command.now then effect script.now (configuration_of config.old) command.now else configuration_of config.old) }
{
    match *command {
        Command::MoveLine {
            context,
            line,
            options,
        } => {
            move_to(config, &Termination::Line(line), context);
            set_line_options(script, config, line, &options);
        }
        Command::MoveEphemeral {
            context,
            ephemeral,
            options,
        } => {
            move_to(config, &Termination::Ephemeral(ephemeral), context);
            set_ephemeral_options(config, ephemeral, &options);
        }
        _ => {}
    }
}
