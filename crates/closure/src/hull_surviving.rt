//! Contexts in which somebody stays as a request is executed, in the whole hull of a few configurations: each of these has the context, and no
//! command of the request takes out of it whoever may stand there. Such a context exists to the request's end, whoever else comes and goes.
ghost use Rattle.std.specs.Prelude.{IsTrue, map};
ghost use Rattle.mg_model.specs.Configuration.{Configuration, IsWellFormed};
ghost use Rattle.mg_model.specs.Tables.{state_of};
ghost use Rattle.configuration.specs.Config.{configuration_of};
ghost use Rattle.closure.specs.Hulls.{IsInHull};
ghost use Rattle.closure.specs.Surviving.{AreSurviving, Survives, SparesAll};

use crate::hull::Hull;
use crate::hull_commands::{is_another, is_nowhere};
use configuration::spots;
use mg_model::commands::{Command, Termination};
use mg_names::slots::Slot;
use script_table::Script;

/// Whether a command leaves whoever stands in a context there.
fn spares_all(hull: &Hull, name: Slot, command: &Command) -> bool
    ensures { IsTrue result → SparesAll (map configuration_of hull.now) name command.now }
{
    match *command {
        Command::AddLine { line, .. } => is_nowhere(hull, &Termination::Line(line), name),
        Command::AddEphemeral { ephemeral, .. } => {
            is_nowhere(hull, &Termination::Ephemeral(ephemeral), name)
        }
        Command::MoveLine { line, .. } => is_nowhere(hull, &Termination::Line(line), name),
        Command::MoveEphemeral { ephemeral, .. } => {
            is_nowhere(hull, &Termination::Ephemeral(ephemeral), name)
        }
        Command::Subtract { termination, .. } => is_nowhere(hull, &termination, name),
        Command::SubtractAll { context } => is_another(name, context),
        Command::ModifyLine { .. } => true,
        Command::ModifyEphemeral { .. } => true,
        Command::SetTopology { .. } => true,
    }
}

/// Whether somebody stays in a context as these commands are executed.
fn does_survive(hull: &Hull, name: Slot, commands: &[Command]) -> bool
    ensures { IsTrue result → (c : Configuration) → IsInHull (map configuration_of hull.now) c → IsWellFormed c → Survives c commands.now name }
{
    if !hull.all(|config| spots::is_live(config.context(name))) {
        return false;
    }
    for command in commands {
        if !spares_all(hull, name, command) {
            return false;
        }
    }
    true
}

/// In which contexts somebody stays as the commands of a state are executed.
pub(crate) fn surviving_contexts(script: &Script, hull: &Hull, state: u8) -> [bool; 4]
    ensures { AreSurviving (map configuration_of hull.now) (state_of script.now state).commands result }
{
    let commands = script.commands_of(state);
    let [first, second, third, fourth] = Slot::all();
    [
        does_survive(hull, first, commands),
        does_survive(hull, second, commands),
        does_survive(hull, third, commands),
        does_survive(hull, fourth, commands),
    ]
}
