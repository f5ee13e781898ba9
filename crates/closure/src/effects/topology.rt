//! A Topology descriptor (H.248.1 section 7.1.18): says of a pair of terminations in one context which way media is cut.
ghost use Rattle.std.specs.Prelude.{◌≡◌, ◌&&◌, if◌then◌else◌};
ghost use Rattle.mg_model.specs.Effects.{is_legal, effect};
ghost use Rattle.mg_model.specs.Script.{Script};
ghost use Rattle.closure.specs.Groups.{is_topology};
ghost use Rattle.closure.specs.Elementwise.{with_topology};
ghost use Rattle.configuration.specs.Config.{configuration_of};

use configuration::config::Config;
use configuration::spots;
use mg_model::commands::{Command, Termination};
use mg_names::topologies::Topology;

/// Whether a command is a Topology that is legal.
pub(super) fn is_legal(config: &Config, command: &Command) -> bool
    ensures { result ≡ (is_topology command.now && is_legal (configuration_of config.now) command.now) }
{
    match *command {
        Command::SetTopology {
            context,
            first,
            second,
            ..
        } => {
            let exists = spots::is_live(config.context(context));
            let first_stands = spots::is_in(config.spot(first), context);
            let second_stands = spots::is_in(config.spot(second), context);
            let apart = !spots::is_same(&first, &second);
            exists && first_stands && second_stands && apart
        }
        _ => false,
    }
}

/// Sets what a Topology descriptor says of a pair.
fn set_topology(config: &mut Config, first: &Termination, second: &Termination, topology: Topology)
    ensures { configuration_of config.new ≡ with_topology (configuration_of config.old) first.now second.now topology }
{
    let (forward, backward) = match topology {
        Topology::Isolate => (true, true),
        Topology::Oneway => (false, true),
        Topology::Bothway => (false, false),
    };
    config.set_cut(*first, *second, forward);
    config.set_cut(*second, *first, backward);
}

/// What a Topology does; nothing if the command is another.
pub(super) fn change(config: &mut Config, command: &Command)
    ensures { (script : Script) → configuration_of config.new ≡ (if is_topology command.now then effect script (configuration_of config.old) command.now else configuration_of config.old) }
{
    match *command {
        Command::SetTopology {
            first,
            second,
            topology,
            ..
        } => {
            set_topology(config, &first, &second, topology);
        }
        _ => {}
    }
}
