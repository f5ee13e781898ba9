//! What the options of a command set (H.248.1 section 7.1): on a line the mode, the Events and the Signals descriptor, on
//! an ephemeral the mode and the Remote descriptor. What a command leaves out stays.
ghost use Rattle.std.specs.Prelude.{◌≡◌, Some};
ghost use Rattle.mg_model.specs.Effects.{remote_legal, remote_set, with_line_options, with_ephemeral_options};
ghost use Rattle.closure.specs.Elementwise.{with_mode_option, with_events_option, with_signals_option, with_remote_option};
ghost use Rattle.configuration.specs.Config.{configuration_of};

use configuration::config::Config;
use configuration::spots;
use mg_model::commands::{
    EphemeralOptions, EventsName, LineOptions, RemoteOption, SignalsName, Termination,
};
use mg_model::components::Remote;
use mg_names::modes::Mode;
use mg_names::slots::Slot;
use script_table::Script;

/// Whether a Remote may be set as an option says: to none, or to an ephemeral that exists.
pub(super) fn is_remote_legal(config: &Config, remote: &Option<RemoteOption>) -> bool
    ensures { result ≡ remote_legal (configuration_of config.now) remote.now }
{
    match *remote {
        None => true,
        Some(RemoteOption::NoneGiven) => true,
        Some(RemoteOption::Peer(peer)) => {
            spots::is_present(config.spot(Termination::Ephemeral(peer)))
        }
    }
}

/// Sets a termination's mode where one is given.
fn set_mode_option(config: &mut Config, termination: &Termination, mode: &Option<Mode>)
    ensures { configuration_of config.new ≡ with_mode_option (configuration_of config.old) termination.now mode.now }
{
    match *mode {
        Some(mode) => config.set_mode(*termination, mode),
        None => {}
    }
}

/// Sets a line's events list where one is given.
fn set_events_option(config: &mut Config, line: Slot, events: &Option<EventsName>)
    ensures { configuration_of config.new ≡ with_events_option (configuration_of config.old) line events.now }
{
    match *events {
        Some(events) => config.set_events(line, events),
        None => {}
    }
}

/// Sets whether a line may play once a Signals descriptor is processed, where one is given.
fn set_signals_option(
    script: &Script,
    config: &mut Config,
    line: Slot,
    signals: &Option<SignalsName>,
)
    ensures { configuration_of config.new ≡ with_signals_option script.now (configuration_of config.old) line signals.now }
{
    match *signals {
        Some(signals) => config.set_plays(line, !script.signals_empty(signals)),
        None => {}
    }
}

/// Sets on a line what a command gives; what it leaves out stays.
pub(super) fn set_line_options(
    script: &Script,
    config: &mut Config,
    line: Slot,
    options: &LineOptions,
)
    ensures { configuration_of config.new ≡ with_line_options script.now (configuration_of config.old) line options.now }
{
    set_mode_option(config, &Termination::Line(line), &options.mode);
    set_events_option(config, line, &options.events);
    set_signals_option(script, config, line, &options.signals);
}

/// The Remote that a command gives.
fn remote_given(remote: &RemoteOption) -> Remote
    ensures { (was : Remote) → result ≡ remote_set (Some remote.now) was }
{
    match *remote {
        RemoteOption::NoneGiven => Remote::Unset,
        RemoteOption::Peer(peer) => Remote::To(peer),
    }
}

/// Sets an ephemeral's Remote where one is given.
fn set_remote_option(config: &mut Config, ephemeral: Slot, remote: &Option<RemoteOption>)
    ensures { configuration_of config.new ≡ with_remote_option (configuration_of config.old) ephemeral remote.now }
{
    match *remote {
        Some(given) => config.set_remote(ephemeral, remote_given(&given)),
        None => {}
    }
}

/// Sets on an ephemeral what a command gives; what it leaves out stays.
pub(super) fn set_ephemeral_options(
    config: &mut Config,
    ephemeral: Slot,
    options: &EphemeralOptions,
)
    ensures { configuration_of config.new ≡ with_ephemeral_options (configuration_of config.old) ephemeral options.now }
{
    set_mode_option(config, &Termination::Ephemeral(ephemeral), &options.mode);
    set_remote_option(config, ephemeral, &options.remote);
}
