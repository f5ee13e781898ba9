//! Add (H.248.1 section 7.2.1): takes a line from the null context into a context, or creates an ephemeral in one. The
//! context exists, or is created with it.
ghost use Rattle.std.specs.Prelude.{◌≡◌, ◌&&◌, if◌then◌else◌};
ghost use Rattle.mg_model.specs.Effects.{is_legal, effect};
ghost use Rattle.closure.specs.Groups.{is_add};
ghost use Rattle.configuration.specs.Config.{configuration_of};

use crate::effects::options::{is_remote_legal, set_ephemeral_options, set_line_options};
use crate::effects::settling::put_in;
use configuration::config::Config;
use configuration::spots;
use mg_model::commands::{Command, Termination};
use script_table::Script;

/// Whether a command is an Add that is legal.
pub(super) fn is_legal(config: &Config, command: &Command) -> bool
    ensures { result ≡ (is_add command.now && is_legal (configuration_of config.now) command.now) }
{
    match *command {
        Command::AddLine {
            create,
            context,
            line,
            ..
        } => {
            let exists = create || spots::is_live(config.context(context));
            let is_free = spots::is_null(config.spot(Termination::Line(line)));
            exists && is_free
        }
        Command::AddEphemeral {
            create,
            context,
            options,
            ..
        } => {
            let exists = create || spots::is_live(config.context(context));
            let remote = is_remote_legal(config, &options.remote);
            exists && remote
        }
        _ => false,
    }
}

/// What an Add does; nothing if the command is another.
pub(super) fn change(script: &Script, config: &mut Config, command: &Command)
    ensures { configuration_of config.new ≡ (if is_add command.now then effect script.now (configuration_of config.old) command.now else configuration_of config.old) }
{
    match *command {
        Command::AddLine {
            context,
            line,
            options,
            ..
        } => {
            put_in(config, Termination::Line(line), context);
            set_line_options(script, config, line, &options);
        }
        Command::AddEphemeral {
            context,
            ephemeral,
            options,
            ..
        } => {
            put_in(config, Termination::Ephemeral(ephemeral), context);
            set_ephemeral_options(config, ephemeral, &options);
        }
        _ => {}
    }
}
