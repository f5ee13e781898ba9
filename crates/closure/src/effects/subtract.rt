//! Subtract (H.248.1 section 7.2.3): takes a termination, or all of a context, out of it. A line returns to the null
//! context, Inactive and silent with an empty events list; an ephemeral is destroyed.
ghost use Rattle.std.specs.Prelude.{◌≡◌, ℕ, ◌≤◌, ◌&&◌, if◌then◌else◌};
ghost use Rattle.mg_model.specs.Configuration.{is_in, is_same, terminations};
ghost use Rattle.mg_model.specs.Effects.{is_legal, effect, without_terminations};
ghost use Rattle.mg_model.specs.Script.{Script};
ghost use Rattle.closure.specs.Groups.{is_subtract};
ghost use Rattle.closure.specs.Elementwise.{lost_at, remote_lost, without_line, without_ephemeral, without_remotes_to, subtracted_from, subtracted_each};
ghost use Rattle.configuration.specs.Config.{configuration_of};

use crate::effects::cuts::forget_cuts;
use crate::effects::settling::settle;
use configuration::config::Config;
use configuration::spots;
use configuration::well_formed::all_terminations;
use mg_model::commands::{Command, EventsName, Termination};
use mg_model::components::{Remote, Spot};
use mg_names::context_values::ContextValue;
use mg_names::modes::Mode;
use mg_names::slots::Slot;

/// Whether a command is a Subtract that is legal.
pub(super) fn is_legal(config: &Config, command: &Command) -> bool
    ensures { result ≡ (is_subtract command.now && is_legal (configuration_of config.now) command.now) }
{
    match *command {
        Command::Subtract {
            context,
            termination,
        } => {
            let exists = spots::is_live(config.context(context));
            let stands = spots::is_in(config.spot(termination), context);
            exists && stands
        }
        Command::SubtractAll { context } => spots::is_live(config.context(context)),
        _ => false,
    }
}

/// A Remote after an ephemeral was destroyed.
fn remote_lost(remote: &Remote, ephemeral: Slot) -> Remote
    ensures { result ≡ remote_lost ephemeral remote.now }
{
    if spots::is_to(*remote, ephemeral) {
        Remote::Gone
    } else {
        *remote
    }
}

/// Makes a Remote that names an ephemeral name nothing.
fn lose_remote(config: &mut Config, other: Slot, ephemeral: Slot)
    ensures lost { configuration_of config.new ≡ lost_at ephemeral (configuration_of config.old) other }
    ensures slots { (k : ℕ) → 4 ≤ k → (configuration_of config.old).remote k ≡ Remote.Unset }
{
    let lost = remote_lost(&config.remote(other), ephemeral);
    config.set_remote(other, lost);
}

/// Makes the Remotes that name an ephemeral name nothing.
fn lose_remotes_to(config: &mut Config, ephemeral: Slot)
    ensures { configuration_of config.new ≡ without_remotes_to ephemeral (configuration_of config.old) }
{
    let slots = Slot::all();
    lose_remote(config, slots[0], ephemeral);
    lose_remote(config, slots[1], ephemeral);
    lose_remote(config, slots[2], ephemeral);
    lose_remote(config, slots[3], ephemeral);
}

/// What a line loses as it is subtracted: its place, its events list and its signals.
fn clear_line(config: &mut Config, line: Slot)
    ensures { configuration_of config.new ≡ without_line line (configuration_of config.old) }
{
    config.set_spot(Termination::Line(line), Spot::Null);
    config.set_mode(Termination::Line(line), Mode::Inactive);
    config.set_events(line, EventsName::Empty);
    config.set_plays(line, false);
}

/// What goes with an ephemeral as it is destroyed: its place and its Remote, and what other Remotes name.
fn clear_ephemeral(config: &mut Config, ephemeral: Slot)
    ensures { configuration_of config.new ≡ without_remotes_to ephemeral (without_ephemeral ephemeral (configuration_of config.old)) }
{
    config.set_spot(Termination::Ephemeral(ephemeral), Spot::Absent);
    config.set_mode(Termination::Ephemeral(ephemeral), Mode::Inactive);
    config.set_remote(ephemeral, Remote::Unset);
    lose_remotes_to(config, ephemeral);
}

/// Subtracts a termination: a line returns to the null context, Inactive and silent with an empty events list, and an
/// ephemeral is destroyed.
fn subtract(config: &mut Config, termination: &Termination)
    ensures { configuration_of config.new ≡ without_terminations (configuration_of config.old) (is_same termination.now) }
{
    forget_cuts(config, termination);
    match *termination {
        Termination::Line(line) => clear_line(config, line),
        Termination::Ephemeral(ephemeral) => clear_ephemeral(config, ephemeral),
    }
}

/// Subtracts a termination if it stands in the context.
fn subtract_from(config: &mut Config, termination: &Termination, context: Slot)
    ensures { configuration_of config.new ≡ subtracted_from context (configuration_of config.old) termination.now }
{
    if spots::is_in(config.spot(*termination), context) {
        subtract(config, termination);
    }
}

/// Subtracts each termination that stands in the context, one by one.
fn subtract_each(config: &mut Config, context: Slot)
    ensures { configuration_of config.new ≡ subtracted_each context (configuration_of config.old) terminations }
{
    let all = all_terminations();
    for termination in &all {
        subtract_from(config, termination, context);
    }
}

/// Subtracts all terminations of a context.
fn subtract_all(config: &mut Config, context: Slot)
    ensures { configuration_of config.new ≡ without_terminations (configuration_of config.old) (λ t. is_in ((configuration_of config.old).spot t) context) }
{
    subtract_each(config, context);
}

/// What a Subtract does; nothing if the command is another.
pub(super) fn change(config: &mut Config, command: &Command)
    ensures { (script : Script) → configuration_of config.new ≡ (if is_subtract command.now then effect script (configuration_of config.old) command.now else configuration_of config.old) }
{
    match *command {
        Command::Subtract { termination, .. } => {
            subtract(config, &termination);
            settle(config);
        }
        Command::SubtractAll { context } => {
            subtract_all(config, context);
            config.set_context(context, ContextValue::Free);
            settle(config);
        }
        _ => {}
    }
}
