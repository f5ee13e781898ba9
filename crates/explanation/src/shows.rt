//! Whether a configuration shows what a breach is about.
ghost use Rattle.std.specs.Prelude.{◌↔◌, IsTrue};
ghost use Rattle.configuration.specs.Config.{configuration_of};
ghost use Rattle.explanation.specs.Causes.{Shows};

use crate::breach::Breach;
use crate::breaches::{is_gone, is_stale};
use closure::obligations::is_armed_list;
use configuration::config::Config;
use configuration::config::paths::Ways;
use configuration::spots::{is_free, is_null, is_present};
use mg_model::commands::Termination;
use script_table::Script;

/// Whether a configuration shows what a breach is about, whatever its state and its link are.
pub(crate) fn shows(script: &Script, config: &Config, breach: &Breach) -> bool
    ensures { IsTrue result ↔ Shows script.now (configuration_of config.now) breach.now }
{
    match *breach {
        Breach::Joined(pair) => {
            let ways = Ways::of(config);
            ways.join(pair.first, pair.second)
        }
        Breach::Away(line) => !is_null(config.spot(Termination::Line(line))),
        Breach::Playing(line) => config.plays(line),
        Breach::NotArmed(line) => !is_armed_list(script.list(config.events(line))),
        Breach::Remaining(name) => is_present(config.spot(Termination::Ephemeral(name))),
        Breach::BoundContext(name) => !is_free(config.context(name)),
        Breach::BoundEphemeral(name) => is_present(config.spot(Termination::Ephemeral(name))),
        Breach::StaleContext(name) => is_stale(config.context(name)),
        Breach::GoneRemote(name) => is_gone(config.remote(name)),
    }
}
