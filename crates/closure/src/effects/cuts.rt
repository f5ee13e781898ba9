//! What was set for the pairs of a termination is forgotten as it leaves its context.
ghost use Rattle.std.specs.Prelude.{◌≡◌};
ghost use Rattle.mg_model.specs.Configuration.{is_same, terminations};
ghost use Rattle.mg_model.specs.Effects.{without_cuts_of};
ghost use Rattle.closure.specs.Elementwise.{forget_pair, forget_pairs};
ghost use Rattle.configuration.specs.Config.{configuration_of};

use configuration::config::Config;
use configuration::value_set::config_word;
use configuration::well_formed::all_terminations;
use mg_model::commands::Termination;

/// Forgets what was set for a pair, either way.
fn forget_pair(config: &mut Config, termination: &Termination, other: &Termination)
    ensures { configuration_of config.new ≡ forget_pair (configuration_of config.old) termination.now other.now }
{
    config.set_cut(*termination, *other, false);
    config.set_cut(*other, *termination, false);
}

/// The same, pair by pair.
fn forget_each(config: &mut Config, termination: &Termination)
    ensures { configuration_of config.new ≡ forget_pairs (configuration_of config.old) termination.now terminations }
{
    let others = all_terminations();
    for other in &others {
        forget_pair(config, termination, other);
    }
}

/// Forgets what was set for the pairs of a termination. Mostly nothing is cut, and then no pair is looked at.
pub(super) fn forget_cuts(config: &mut Config, termination: &Termination)
    ensures { configuration_of config.new ≡ record (configuration_of config.old) { cut = without_cuts_of (is_same termination.now) (configuration_of config.old).cut } }
{
    if config_word(config, 2) == 0 {
        return;
    }
    forget_each(config, termination);
}
