//! Whether one line hears another: whether media goes from the one to the other.
ghost use Rattle.std.specs.Prelude.{◌≡◌, ◌↔◌, IsTrue};
ghost use Rattle.mg_model.specs.Paths.{HasPath};
ghost use Rattle.configuration.specs.Config.{configuration_of};
ghost use Rattle.call_ways.specs.Hearing.{muted, only_out};

use configuration::config::Config;
use configuration::config::paths::Ways;
use mg_model::commands::Termination;
use mg_names::modes::Mode;
use mg_names::slots::Slot;

/// The mode that lets out of a context what another one does, and nothing into it (H.248.1 section 7.1.7).
fn only_out(mode: Mode) -> Mode
    ensures { result ≡ only_out mode }
{
    match mode {
        Mode::Inactive => Mode::Inactive,
        Mode::SendOnly => Mode::SendOnly,
        Mode::ReceiveOnly => Mode::Inactive,
        Mode::SendReceive => Mode::SendOnly,
    }
}

/// The same configuration, but that a line lets nothing in.
fn muted(config: &Config, line: Slot) -> Config
    ensures { configuration_of result ≡ muted (configuration_of config.now) line }
{
    let mode = only_out(config.mode(Termination::Line(line)));
    let mut quiet = *config;
    quiet.set_mode(Termination::Line(line), mode);
    quiet
}

/// Whether there is a path of media from one line to another. Where the other one lets nothing in, no path leads back from it, and two lines that are
/// joined are so by a path to it.
pub fn has_path(config: &Config, from: Slot, to: Slot) -> bool
    ensures { IsTrue result ↔ HasPath (configuration_of config.now) from to }
{
    let quiet = muted(config, to);
    let ways = Ways::of(&quiet);
    ways.join(from, to)
}
