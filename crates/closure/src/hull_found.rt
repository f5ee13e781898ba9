//! Where a command finds its terminations, in the whole hull of a few configurations: wherever it is legal they stand in its place. So a command
//! that leaves terminations where they are is done in such alone.
ghost use Rattle.std.specs.Prelude.{◌≡◌};
ghost use Rattle.mg_model.specs.Configuration.{with_of};
ghost use Rattle.configuration.specs.Config.{configuration_of};
ghost use Rattle.closure.specs.Found.{found, spot_at};

use configuration::config::Config;
use mg_model::commands::{Command, Place, Termination};
use mg_model::components::Spot;

/// Where a termination stands that is in a place.
fn spot_at(place: &Place) -> Spot
    ensures { result ≡ spot_at place.now }
{
    match *place {
        Place::NullContext => Spot::Null,
        Place::Context(context) => Spot::In(context),
    }
}

/// A configuration in which a termination stands somewhere.
fn with_spot(config: &Config, termination: &Termination, spot: Spot) -> Config
    ensures { configuration_of result ≡ record (configuration_of config.now) { spot = with_of (configuration_of config.now).spot termination.now spot } }
{
    let mut with = *config;
    with.set_spot(*termination, spot);
    with
}

/// A configuration in which the terminations of a command stand where it finds them.
pub(crate) fn found(config: &Config, command: &Command) -> Config
    ensures { configuration_of result ≡ found command.now (configuration_of config.now) }
{
    match *command {
        Command::ModifyLine { place, line, .. } => {
            with_spot(config, &Termination::Line(line), spot_at(&place))
        }
        Command::ModifyEphemeral {
            place,
            ephemeral,
            ..
        } => with_spot(config, &Termination::Ephemeral(ephemeral), spot_at(&place)),
        Command::SetTopology {
            context,
            first,
            second,
            ..
        } => {
            let one = with_spot(config, &first, Spot::In(context));
            with_spot(&one, &second, Spot::In(context))
        }
        Command::AddLine { .. } => *config,
        Command::AddEphemeral { .. } => *config,
        Command::MoveLine { .. } => *config,
        Command::MoveEphemeral { .. } => *config,
        Command::Subtract { .. } => *config,
        Command::SubtractAll { .. } => *config,
    }
}
