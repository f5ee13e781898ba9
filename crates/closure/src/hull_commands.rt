//! What a command makes of the whole hull of a few configurations. Each component goes its way by itself, but where all of a context leave
//! (`hull_emptying`), and but for context names: whether a context still exists is asked of those that something may have left.
ghost use Rattle.std.specs.Prelude.{◌≡◌, ◌==◌, false, IsTrue, IfOk, IfSome, IfNone, Contains, map};
ghost use Rattle.mg_names.specs.declared.context_values.ContextValue.TheVariants.{Free, Live};
ghost use Rattle.mg_model.specs.declared.components.Spot.TheVariants.{Absent};
ghost use Rattle.mg_model.specs.declared.commands.Command.TheVariants.{SubtractAll};
ghost use Rattle.mg_model.specs.declared.commands.Termination.{Termination as Named};
ghost use Rattle.mg_model.specs.Configuration.{Configuration};
ghost use Rattle.mg_model.specs.Script.{Script as Table};
ghost use Rattle.mg_model.specs.Updates.{with_at};
ghost use Rattle.configuration.specs.Config.{configuration_of};
ghost use Rattle.closure.specs.Emptying.{AreMade, GoesByComponent};
ghost use Rattle.closure.specs.Placing.{AreLed, IsNowhere, IsSettledAt, IsUniform, LeavesAlone, contexts_after, unsettled};

use crate::effects::effect;
use crate::hull::{Hull, TooMany};
use crate::hull_contexts::{settled_each, valued_each};
use crate::hull_emptying::all_emptied;
use crate::named_hull::with_context_of;
use configuration::config::Config;
use configuration::spots;
use mg_model::commands::{Command, Termination};
use mg_names::context_values::ContextValue;
use mg_names::slots::Slot;
use script_table::Script;

/// A configuration with the context names of another one.
fn with_contexts_of(config: &Config, other: &Config) -> Config
    ensures { configuration_of result ≡ record (configuration_of config.now) { context = (configuration_of other.now).context } }
{
    let [first, second, third, fourth] = Slot::all();
    let one = with_context_of(config, first, other);
    let two = with_context_of(&one, second, other);
    let three = with_context_of(&two, third, other);
    with_context_of(&three, fourth, other)
}

/// Gives a configuration what a command makes of context names before it is asked which contexts still exist.
fn set_after(config: &mut Config, command: &Command)
    ensures { configuration_of config.new ≡ record (configuration_of config.old) { context = contexts_after command.now (configuration_of config.old).context } }
{
    match *command {
        Command::AddLine { context, .. } => config.set_context(context, ContextValue::Live),
        Command::AddEphemeral { context, .. } => config.set_context(context, ContextValue::Live),
        Command::MoveLine { context, .. } => config.set_context(context, ContextValue::Live),
        Command::MoveEphemeral { context, .. } => config.set_context(context, ContextValue::Live),
        Command::SubtractAll { context } => config.set_context(context, ContextValue::Free),
        Command::ModifyLine { .. } => {}
        Command::ModifyEphemeral { .. } => {}
        Command::Subtract { .. } => {}
        Command::SetTopology { .. } => {}
    }
}

/// A configuration after a command, legal in it or not, but for the question which contexts still exist.
pub(crate) fn unsettled(script: &Script, config: &Config, command: &Command) -> Config
    ensures { configuration_of result ≡ unsettled script.now command.now (configuration_of config.now) }
{
    let mut after = with_contexts_of(&effect(script, config, command), config);
    set_after(&mut after, command);
    after
}

/// The context that a command takes all out of, if it does so.
fn emptied_by(command: &Command) -> Option<Slot>
    ensures some { IfSome result (λ j. command.now ≡ SubtractAll j) }
    ensures none { IfNone result (GoesByComponent command.now) }
{
    match *command {
        Command::SubtractAll { context } => Some(context),
        Command::AddLine { .. } => None,
        Command::AddEphemeral { .. } => None,
        Command::ModifyLine { .. } => None,
        Command::ModifyEphemeral { .. } => None,
        Command::MoveLine { .. } => None,
        Command::MoveEphemeral { .. } => None,
        Command::Subtract { .. } => None,
        Command::SetTopology { .. } => None,
    }
}

/// Configurations whose hull has all that a command makes of the hull of some, but for the question which contexts still exist.
fn unsettled_each(script: &Script, hull: &Hull, command: &Command) -> Result<Hull, TooMany>
    ensures { IfOk result (λ m. AreMade script.now (map configuration_of hull.now) command.now (map configuration_of m)) }
{
    match emptied_by(command) {
        Some(context) => all_emptied(script, hull, context),
        None => hull.map(|config| unsettled(script, config, command)),
    }
}

/// Whether an ephemeral is absent in each of some configurations.
fn is_absent(hull: &Hull, ephemeral: Slot) -> bool
    ensures { IsTrue result → (d : Configuration) → Contains (map configuration_of hull.now) d → d.spot (Named.Ephemeral ephemeral) ≡ Absent }
{
    hull.all(|config| !spots::is_present(config.spot(Termination::Ephemeral(ephemeral))))
}

/// Whether what a command adds is absent in each of some configurations.
fn is_uniform(hull: &Hull, command: &Command) -> bool
    ensures { IsTrue result → IsUniform (map configuration_of hull.now) command.now }
{
    match *command {
        Command::AddEphemeral { ephemeral, .. } => is_absent(hull, ephemeral),
        Command::AddLine { .. } => true,
        Command::ModifyLine { .. } => true,
        Command::ModifyEphemeral { .. } => true,
        Command::MoveLine { .. } => true,
        Command::MoveEphemeral { .. } => true,
        Command::Subtract { .. } => true,
        Command::SubtractAll { .. } => true,
        Command::SetTopology { .. } => true,
    }
}

/// Whether a termination stands in a context in none of some configurations.
pub(crate) fn is_nowhere(hull: &Hull, termination: &Termination, context: Slot) -> bool
    ensures { IsTrue result → IsNowhere (map configuration_of hull.now) termination.now context }
{
    hull.all(|config| !spots::is_in(config.spot(*termination), context))
}

/// Whether two slots are different.
pub(crate) fn is_another(one: Slot, other: Slot) -> bool
    ensures { IsTrue result → (one == other) ≡ false }
{
    one.index() != other.index()
}

/// Whether a command puts nothing into a context, and takes nothing out of it but with all others.
fn leaves_alone(hull: &Hull, command: &Command, name: Slot) -> bool
    ensures { IsTrue result → LeavesAlone (map configuration_of hull.now) command.now name }
{
    match *command {
        Command::AddLine { context, .. } => is_another(name, context),
        Command::AddEphemeral { context, .. } => is_another(name, context),
        Command::MoveLine { context, line, .. } => {
            is_another(name, context) && is_nowhere(hull, &Termination::Line(line), name)
        }
        Command::MoveEphemeral {
            context,
            ephemeral,
            ..
        } => {
            is_another(name, context) && is_nowhere(hull, &Termination::Ephemeral(ephemeral), name)
        }
        Command::Subtract { context, .. } => is_another(name, context),
        Command::SubtractAll { .. } => true,
        Command::ModifyLine { .. } => true,
        Command::ModifyEphemeral { .. } => true,
        Command::SetTopology { .. } => true,
    }
}

/// Those whose hull has all that a command leaves, of which these are a part, once a context name says whether its context exists. It is asked only where
/// the command may have changed that, and exists where somebody stays there.
fn settled_at(
    made: Hull,
    hull: &Hull,
    command: &Command,
    surviving: &[bool; 4],
    name: Slot,
) -> Result<Hull, TooMany>
    ensures { IfOk result (λ m. (script : Table) → IsSettledAt script (map configuration_of hull.now) command.now surviving.now name (map configuration_of made) (map configuration_of m)) }
{
    if leaves_alone(hull, command, name) {
        return Ok(made);
    }
    if surviving[name.index()] {
        return valued_each(&made, name, true);
    }
    settled_each(made, name)
}

/// Configurations whose hull has all that a command makes, where it is legal, of those in the hull of some in which each surviving context has somebody who
/// stays; nothing where it isn't known, or there are too many.
pub(crate) fn led_by(
    script: &Script,
    hull: &Hull,
    command: &Command,
    surviving: &[bool; 4],
) -> Option<Hull>
    ensures { IfSome result (λ m. AreLed script.now (map configuration_of hull.now) command.now surviving.now (map configuration_of m)) }
{
    if !is_uniform(hull, command) {
        return None;
    }
    let [first, second, third, fourth] = Slot::all();
    let Ok(made) = unsettled_each(script, hull, command) else {
        return None;
    };
    let Ok(one) = settled_at(made, hull, command, surviving, first) else {
        return None;
    };
    let Ok(two) = settled_at(one, hull, command, surviving, second) else {
        return None;
    };
    let Ok(three) = settled_at(two, hull, command, surviving, third) else {
        return None;
    };
    let Ok(four) = settled_at(three, hull, command, surviving, fourth) else {
        return None;
    };
    Some(four)
}
