//! The request of a state: the script's commands that are kept, as commands of H.248.1 section 7.2.
ghost use Rattle.std.specs.Prelude.{◌≡◌, IfOk, IfSome, None, map};
ghost use Rattle.mg_names.specs.declared.identifiers.LineNo.{LineNo};
ghost use Rattle.mg_model.specs.Agent as model;
ghost use Rattle.mg_model.specs.Messages.{add_line};
ghost use Rattle.mg_model.specs.declared.references.ContextRef.{ContextRef};
ghost use Rattle.mg_model.specs.declared.references.TerminationRef.TheVariants.{Line, Ephemeral};
ghost use Rattle.requests.specs.Views.{add_of, command_of, given_to, termination_of};
ghost use Rattle.agent.specs.Parts.{agent_in, made_of, IsAdd, IsModify, IsMove, IsEnding};

use crate::bindings::Bindings;
use crate::created_at::CreatedAt;
use crate::{descriptors, references};
use built_request::Request;
use mg_model::commands::{Command, LineOptions};
use mg_names::identifiers::LineNo;
use requests::{Newcomer, RequestCommand, Target};
use script_table::Script;
use std::alloc::{AllocError, Global};

/// A line as what an Add brings, with the descriptors of its options.
fn newcomer(
    alloc: Global,
    script: &Script,
    line: LineNo,
    options: &LineOptions,
) -> Result<Newcomer, AllocError>
    ensures { IfOk result (λ n. (c : ContextRef) → add_of c n (record { mode = options.now.mode; remote = None }) ≡ add_line c line.0 (model.line_descriptors script.now options.now)) }
{
    Ok(Newcomer::Line {
        line,
        descriptors: descriptors::of_line(alloc, script, options)?,
    })
}

/// A line as the termination of a Modify or a Move, with the descriptors of its options.
fn target(
    alloc: Global,
    script: &Script,
    line: LineNo,
    options: &LineOptions,
) -> Result<Target, AllocError>
    ensures line { IfOk result (λ t. termination_of t ≡ Line line) }
    ensures given { IfOk result (λ t. given_to t (record { mode = options.now.mode; remote = None }) ≡ model.line_descriptors script.now options.now) }
{
    Ok(Target::Line {
        line,
        descriptors: descriptors::of_line(alloc, script, options)?,
    })
}

/// An Add.
fn added(
    alloc: Global,
    script: &Script,
    names: &Bindings,
    created: &CreatedAt,
    command: &Command,
) -> Result<RequestCommand, AllocError>
    requires { IsAdd command.now }
    ensures { IfOk result (λ c. command_of c ≡ model.command_of script.now (agent_in names.now) (made_of created.now) command.now) }
{
    match *command {
        Command::AddLine {
            create,
            context,
            line,
            options,
        } => Ok(RequestCommand::Add {
            context: references::added_to(names, created, create, context),
            added: newcomer(alloc, script, names.line(line), &options)?,
            settings: descriptors::line_settings(&options),
        }),
        Command::AddEphemeral {
            create,
            context,
            options,
            ..
        } => Ok(RequestCommand::Add {
            context: references::added_to(names, created, create, context),
            added: Newcomer::NewEphemeral,
            settings: references::ephemeral_settings(names, created, &options),
        }),
        _ => unreachable!(),
    }
}

/// A Modify.
fn modified(
    alloc: Global,
    script: &Script,
    names: &Bindings,
    created: &CreatedAt,
    command: &Command,
) -> Result<RequestCommand, AllocError>
    requires { IsModify command.now }
    ensures { IfOk result (λ c. command_of c ≡ model.command_of script.now (agent_in names.now) (made_of created.now) command.now) }
{
    match *command {
        Command::ModifyLine {
            place,
            line,
            options,
        } => Ok(RequestCommand::Modify {
            context: references::place(names, created, &place),
            target: target(alloc, script, names.line(line), &options)?,
            settings: descriptors::line_settings(&options),
        }),
        Command::ModifyEphemeral {
            place,
            ephemeral,
            options,
        } => Ok(RequestCommand::Modify {
            context: references::place(names, created, &place),
            target: Target::Ephemeral(references::ephemeral(names, created, ephemeral)),
            settings: references::ephemeral_settings(names, created, &options),
        }),
        _ => unreachable!(),
    }
}

/// A Move.
fn moved(
    alloc: Global,
    script: &Script,
    names: &Bindings,
    created: &CreatedAt,
    command: &Command,
) -> Result<RequestCommand, AllocError>
    requires { IsMove command.now }
    ensures { IfOk result (λ c. command_of c ≡ model.command_of script.now (agent_in names.now) (made_of created.now) command.now) }
{
    match *command {
        Command::MoveLine {
            context,
            line,
            options,
        } => Ok(RequestCommand::Move {
            context: references::context(names, created, context),
            target: target(alloc, script, names.line(line), &options)?,
            settings: descriptors::line_settings(&options),
        }),
        Command::MoveEphemeral {
            context,
            ephemeral,
            options,
        } => Ok(RequestCommand::Move {
            context: references::context(names, created, context),
            target: Target::Ephemeral(references::ephemeral(names, created, ephemeral)),
            settings: references::ephemeral_settings(names, created, &options),
        }),
        _ => unreachable!(),
    }
}

/// A Subtract, of one termination or of all, or a Topology descriptor.
fn ending(
    script: &Script,
    names: &Bindings,
    created: &CreatedAt,
    command: &Command,
) -> RequestCommand
    requires { IsEnding command.now }
    ensures { command_of result ≡ model.command_of script.now (agent_in names.now) (made_of created.now) command.now }
{
    match *command {
        Command::Subtract {
            context,
            termination,
        } => RequestCommand::Subtract {
            context: references::context(names, created, context),
            termination: references::termination(names, created, &termination),
        },
        Command::SubtractAll { context } => RequestCommand::SubtractAll {
            context: references::context(names, created, context),
        },
        Command::SetTopology {
            context,
            first,
            second,
            topology,
        } => RequestCommand::SetTopology {
            context: references::context(names, created, context),
            first: references::termination(names, created, &first),
            second: references::termination(names, created, &second),
            topology,
        },
        _ => unreachable!(),
    }
}

/// A command of the script as a command of a request, after the commands that made what was created so far.
fn command(
    alloc: Global,
    script: &Script,
    names: &Bindings,
    created: &CreatedAt,
    command: &Command,
) -> Result<RequestCommand, AllocError>
    ensures { IfOk result (λ c. command_of c ≡ model.command_of script.now (agent_in names.now) (made_of created.now) command.now) }
{
    match command {
        Command::AddLine { .. } => added(alloc, script, names, created, command),
        Command::AddEphemeral { .. } => added(alloc, script, names, created, command),
        Command::ModifyLine { .. } => modified(alloc, script, names, created, command),
        Command::ModifyEphemeral { .. } => modified(alloc, script, names, created, command),
        Command::MoveLine { .. } => moved(alloc, script, names, created, command),
        Command::MoveEphemeral { .. } => moved(alloc, script, names, created, command),
        Command::Subtract { .. } => Ok(ending(script, names, created, command)),
        Command::SubtractAll { .. } => Ok(ending(script, names, created, command)),
        Command::SetTopology { .. } => Ok(ending(script, names, created, command)),
    }
}

/// The commands of a state's request where names stand for this; none where the request is empty.
pub(crate) fn commands(
    alloc: Global,
    script: &Script,
    names: &Bindings,
    state: u8,
) -> Result<Vec<RequestCommand>, AllocError>
    ensures { IfOk result (λ found. map command_of found.items ≡ model.commands_of script.now (agent_in names.now) model.none_made 0 (model.built_by script.now (agent_in names.now) state)) }
{
    let mut left = Request::new(script, names.names(), state);
    let mut created = CreatedAt::none();
    let mut found = Vec::with_capacity(alloc, script.commands_of(state).len())?;
    let mut place = 0usize;
    while let Some(next) = left.take_next() {
        found.push(command(alloc, script, names, &created, next)?)?;
        created.add(next, place);
        place += 1;
    }
    Ok(found)
}
