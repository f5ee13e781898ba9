//! The commands of a state's request, as its table has them.
ghost use Rattle.std.specs.Prelude.{◌≡◌, if◌then◌else◌};
ghost use Rattle.typed_values.specs.Names.{is_among};
ghost use Rattle.typed_values.specs.Shape.{each, Gives};
ghost use Rattle.scriptreader.specs.Meaning.{command_for, add_line_for, add_ephemeral_for, modify_line_for, modify_ephemeral_for, move_line_for, move_ephemeral_for, subtract_for, subtract_all_for, topology_for};

use crate::lookups::{ephemeral_options, line_options, place, slot, termination};
use crate::scope::Scope;
use crate::syntax::{Options, WrittenCommand};
use mg_model::commands::Command;
use mg_names::topologies::Topology;
use std::alloc::Global;
use typed_values::{Missing, Word};

#[tactic(auto, unfolding(crate::specs::Meaning::add_line_for))]
fn add_line(
    scope: &Scope,
    create: bool,
    context: &Word,
    name: &Word,
    options: &Options,
) -> Result<Command, Missing>
    ensures { Gives (λ command. command) result (add_line_for scope.now create context.now name.now options.now) }
{
    let context = slot(&scope.contexts, context)?;
    let line = slot(&scope.lines, name)?;
    let options = line_options(scope, options)?;
    Ok(Command::AddLine {
        create,
        context,
        line,
        options,
    })
}

#[tactic(auto, unfolding(crate::specs::Meaning::add_ephemeral_for))]
fn add_ephemeral(
    scope: &Scope,
    create: bool,
    context: &Word,
    name: &Word,
    options: &Options,
) -> Result<Command, Missing>
    ensures { Gives (λ command. command) result (add_ephemeral_for scope.now create context.now name.now options.now) }
{
    let context = slot(&scope.contexts, context)?;
    let ephemeral = slot(&scope.ephemerals, name)?;
    let options = ephemeral_options(scope, options)?;
    Ok(Command::AddEphemeral {
        create,
        context,
        ephemeral,
        options,
    })
}

#[tactic(auto, unfolding(crate::specs::Meaning::modify_line_for))]
fn modify_line(
    scope: &Scope,
    context: &Option<Word>,
    name: &Word,
    options: &Options,
) -> Result<Command, Missing>
    ensures { Gives (λ command. command) result (modify_line_for scope.now context.now name.now options.now) }
{
    let place = place(scope, context)?;
    let line = slot(&scope.lines, name)?;
    let options = line_options(scope, options)?;
    Ok(Command::ModifyLine {
        place,
        line,
        options,
    })
}

#[tactic(auto, unfolding(crate::specs::Meaning::modify_ephemeral_for))]
fn modify_ephemeral(
    scope: &Scope,
    context: &Option<Word>,
    name: &Word,
    options: &Options,
) -> Result<Command, Missing>
    ensures { Gives (λ command. command) result (modify_ephemeral_for scope.now context.now name.now options.now) }
{
    let place = place(scope, context)?;
    let ephemeral = slot(&scope.ephemerals, name)?;
    let options = ephemeral_options(scope, options)?;
    Ok(Command::ModifyEphemeral {
        place,
        ephemeral,
        options,
    })
}

fn modify(
    scope: &Scope,
    place: &Option<Word>,
    name: &Word,
    options: &Options,
) -> Result<Command, Missing>
    ensures { Gives (λ command. command) result
        (if is_among name.now scope.now.lines then modify_line_for scope.now place.now name.now options.now else modify_ephemeral_for scope.now place.now name.now options.now) }
{
    if scope.lines.has(name.as_str()) {
        modify_line(scope, place, name, options)
    } else {
        modify_ephemeral(scope, place, name, options)
    }
}

#[tactic(auto, unfolding(crate::specs::Meaning::move_line_for))]
fn move_line(
    scope: &Scope,
    context: &Word,
    name: &Word,
    options: &Options,
) -> Result<Command, Missing>
    ensures { Gives (λ command. command) result (move_line_for scope.now context.now name.now options.now) }
{
    let context = slot(&scope.contexts, context)?;
    let line = slot(&scope.lines, name)?;
    let options = line_options(scope, options)?;
    Ok(Command::MoveLine {
        context,
        line,
        options,
    })
}

#[tactic(auto, unfolding(crate::specs::Meaning::move_ephemeral_for))]
fn move_ephemeral(
    scope: &Scope,
    context: &Word,
    name: &Word,
    options: &Options,
) -> Result<Command, Missing>
    ensures { Gives (λ command. command) result (move_ephemeral_for scope.now context.now name.now options.now) }
{
    let context = slot(&scope.contexts, context)?;
    let ephemeral = slot(&scope.ephemerals, name)?;
    let options = ephemeral_options(scope, options)?;
    Ok(Command::MoveEphemeral {
        context,
        ephemeral,
        options,
    })
}

fn move_to(
    scope: &Scope,
    context: &Word,
    name: &Word,
    options: &Options,
) -> Result<Command, Missing>
    ensures { Gives (λ command. command) result
        (if is_among name.now scope.now.lines then move_line_for scope.now context.now name.now options.now else move_ephemeral_for scope.now context.now name.now options.now) }
{
    if scope.lines.has(name.as_str()) {
        move_line(scope, context, name, options)
    } else {
        move_ephemeral(scope, context, name, options)
    }
}

#[tactic(auto, unfolding(crate::specs::Meaning::subtract_for))]
fn subtract(scope: &Scope, context: &Word, name: &Word) -> Result<Command, Missing>
    ensures { Gives (λ command. command) result (subtract_for scope.now context.now name.now) }
{
    let context = slot(&scope.contexts, context)?;
    let termination = termination(scope, name)?;
    Ok(Command::Subtract {
        context,
        termination,
    })
}

#[tactic(auto, unfolding(crate::specs::Meaning::subtract_all_for))]
fn subtract_all(scope: &Scope, context: &Word) -> Result<Command, Missing>
    ensures { Gives (λ command. command) result (subtract_all_for scope.now context.now) }
{
    let context = slot(&scope.contexts, context)?;
    Ok(Command::SubtractAll { context })
}

#[tactic(auto, unfolding(crate::specs::Meaning::topology_for))]
fn set_topology(
    scope: &Scope,
    context: &Word,
    first: &Word,
    second: &Word,
    topology: Topology,
) -> Result<Command, Missing>
    ensures { Gives (λ command. command) result (topology_for scope.now context.now first.now second.now topology) }
{
    let context = slot(&scope.contexts, context)?;
    let first = termination(scope, first)?;
    let second = termination(scope, second)?;
    Ok(Command::SetTopology {
        context,
        first,
        second,
        topology,
    })
}

/// The command that a written one means.
#[tactic(auto, unfolding(crate::specs::Meaning::command_for))]
fn command(scope: &Scope, written: &WrittenCommand) -> Result<Command, Missing>
    ensures { Gives (λ command. command) result (command_for scope.now written.now) }
{
    match written {
        WrittenCommand::Add {
            create,
            context,
            own,
            name,
            options,
        } => {
            if *own {
                add_ephemeral(scope, *create, context, name, options)
            } else {
                add_line(scope, *create, context, name, options)
            }
        }
        WrittenCommand::Modify {
            place,
            name,
            options,
        } => modify(scope, place, name, options),
        WrittenCommand::Move {
            context,
            name,
            options,
        } => move_to(scope, context, name, options),
        WrittenCommand::Subtract { context, name } => subtract(scope, context, name),
        WrittenCommand::SubtractAll { context } => subtract_all(scope, context),
        WrittenCommand::SetTopology {
            context,
            first,
            second,
            topology,
        } => set_topology(scope, context, first, second, *topology),
    }
}

/// The commands of a request, in their order.
pub(crate) fn commands(
    alloc: Global,
    scope: &Scope,
    written: &[WrittenCommand],
) -> Result<Vec<Command>, Missing>
    ensures { Gives (λ commands. commands.items) result (each (command_for scope.now) written.now) }
{
    let mut found = Vec::new(alloc);
    for one in written {
        let command = command(scope, one)?;
        found.extend_from_slice(&[command])?;
    }
    Ok(found)
}
