//! Whether a command is refused in the whole hull of a few configurations: its termination stands elsewhere in each of these. Then nothing is
//! asked of what it would make, nor of the commands behind it.
ghost use Rattle.std.specs.Prelude.{◌≡◌, IsTrue, map};
ghost use Rattle.configuration.specs.Config.{configuration_of};
ghost use Rattle.closure.specs.Refusals.{SuitsNone, suits};

use crate::effects::{is_elsewhere, stands_at};
use crate::hull::Hull;
use configuration::config::Config;
use configuration::spots;
use mg_model::commands::{Command, Termination};

/// Whether the component suits a command that it asks for first.
fn suits(config: &Config, command: &Command) -> bool
    ensures { result ≡ suits command.now (configuration_of config.now) }
{
    match *command {
        Command::AddLine { line, .. } => spots::is_null(config.spot(Termination::Line(line))),
        Command::AddEphemeral { .. } => true,
        Command::ModifyLine { place, line, .. } => {
            stands_at(config.spot(Termination::Line(line)), &place)
        }
        Command::ModifyEphemeral {
            place,
            ephemeral,
            ..
        } => stands_at(config.spot(Termination::Ephemeral(ephemeral)), &place),
        Command::MoveLine { context, line, .. } => {
            is_elsewhere(config.spot(Termination::Line(line)), context)
        }
        Command::MoveEphemeral {
            context,
            ephemeral,
            ..
        } => is_elsewhere(config.spot(Termination::Ephemeral(ephemeral)), context),
        Command::Subtract {
            context,
            termination,
        } => spots::is_in(config.spot(termination), context),
        Command::SubtractAll { context } => spots::is_live(config.context(context)),
        Command::SetTopology { context, first, .. } => spots::is_in(config.spot(first), context),
    }
}

/// Whether a command is refused in the whole hull of some configurations.
pub(crate) fn is_refused(hull: &Hull, command: &Command) -> bool
    ensures { IsTrue result → SuitsNone (map configuration_of hull.now) command.now }
{
    hull.all(|config| !suits(config, command))
}
