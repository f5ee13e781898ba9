//! Modify (H.248.1 section 7.2.2): sets what its options say on a termination, which stands where the command looks for
//! it.
ghost use Rattle.std.specs.Prelude.{◌≡◌, ◌&&◌, if◌then◌else◌};
ghost use Rattle.mg_model.specs.Effects.{is_legal, effect, place_exists, stands_at};
ghost use Rattle.closure.specs.Groups.{is_modify};
ghost use Rattle.configuration.specs.Config.{configuration_of};

use crate::effects::options::{is_remote_legal, set_ephemeral_options, set_line_options};
use configuration::config::Config;
use configuration::spots;
use mg_model::commands::{Command, Place, Termination};
use mg_model::components::Spot;
use script_table::Script;

/// Whether a place is the null context or a context that exists.
fn place_exists(config: &Config, place: &Place) -> bool
    ensures { result ≡ place_exists (configuration_of config.now) place.now }
{
    match *place {
        Place::NullContext => true,
        Place::Context(context) => spots::is_live(config.context(context)),
    }
}

/// Whether a termination stands at a place.
pub(crate) fn stands_at(spot: Spot, place: &Place) -> bool
    ensures { result ≡ stands_at spot place.now }
{
    match *place {
        Place::NullContext => spots::is_null(spot),
        Place::Context(context) => spots::is_in(spot, context),
    }
}

/// Whether a command is a Modify that is legal.
pub(super) fn is_legal(config: &Config, command: &Command) -> bool
    ensures { result ≡ (is_modify command.now && is_legal (configuration_of config.now) command.now) }
{
    match *command {
        Command::ModifyLine { place, line, .. } => {
            let exists = place_exists(config, &place);
            let stands = stands_at(config.spot(Termination::Line(line)), &place);
            exists && stands
        }
        Command::ModifyEphemeral {
            place,
            ephemeral,
            options,
        } => {
            let exists = place_exists(config, &place);
            let stands = stands_at(config.spot(Termination::Ephemeral(ephemeral)), &place);
            let remote = is_remote_legal(config, &options.remote);
            exists && stands && remote
        }
        _ => false,
    }
}

/// What a Modify does; nothing if the command is another.
pub(super) fn change(script: &Script, config: &mut Config, command: &Command)
    ensures { configuration_of config.new ≡ (if is_modify command.now then effect script.now (configuration_of config.old) command.now else configuration_of config.old) }
{
    match *command {
        Command::ModifyLine { line, options, .. } => {
            set_line_options(script, config, line, &options);
        }
        Command::ModifyEphemeral {
            ephemeral,
            options,
            ..
        } => {
            set_ephemeral_options(config, ephemeral, &options);
        }
        _ => {}
    }
}
