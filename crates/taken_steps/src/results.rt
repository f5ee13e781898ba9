//! What the reply of a gateway says of the commands of a request that were done.
use gateway::{ContextRef, Done, Reply, Request, RequestCommand};
use mg_names::identifiers::{ContextId, LineNo};
use std::alloc::{AllocError, Global};

/// What a reply says of a command that was done (H.248.1 section 8.2.2).
#[derive(Drop)]
pub struct CommandResult {
    /// The context that it was done in, by its number; none where that is the null context.
    pub context: Option<u32>,
    /// The number of the ephemeral that it created.
    pub created: Option<u32>,
    /// The lines of the gateway that it took out of their context, in rising order.
    pub lines: Vec<LineNo>,
    /// The numbers of the ephemerals that it destroyed, in rising order.
    pub ephemerals: Vec<u32>,
}

/// The context that a command of a request names.
fn context_of(command: &RequestCommand) -> ContextRef {
    match command {
        RequestCommand::Add { context, .. }
        | RequestCommand::Modify { context, .. }
        | RequestCommand::Move { context, .. }
        | RequestCommand::Subtract { context, .. }
        | RequestCommand::SubtractAll { context }
        | RequestCommand::SetTopology { context, .. } => *context,
    }
}

/// The contexts that the commands of a request name.
pub(crate) fn contexts_of(alloc: Global, request: &Request) -> Result<Vec<ContextRef>, AllocError> {
    let mut contexts = Vec::new(alloc);
    for command in request.commands() {
        contexts.push(context_of(command))?;
    }
    Ok(contexts)
}

/// The number of the context that a command created; none where it created none.
fn created_by(done: &Done) -> Option<u32> {
    match done.context() {
        Some(number) => Some(number.0),
        None => None,
    }
}

/// The number of the context that a command names, which is none for the null context and for CHOOSE.
fn named(context: ContextRef, reply: &Reply) -> Option<u32> {
    match context {
        ContextRef::MadeAt(place) => created_by(reply.results().get(place)?),
        ContextRef::Number(ContextId::NULL | ContextId::CHOOSE) => None,
        ContextRef::Number(number) => Some(number.0),
    }
}

/// What a command that names a context came to.
fn result_of(
    alloc: Global,
    context: ContextRef,
    done: &Done,
    reply: &Reply,
) -> Result<CommandResult, AllocError> {
    Ok(CommandResult {
        context: match created_by(done) {
            Some(number) => Some(number),
            None => named(context, reply),
        },
        created: done.ephemeral(),
        lines: done.lines().to_vec(alloc)?,
        ephemerals: done.ephemerals().to_vec(alloc)?,
    })
}

/// What a reply says of the commands that were done, in their order, of a request whose commands name these contexts.
pub(crate) fn results_of(
    alloc: Global,
    contexts: &[ContextRef],
    reply: &Reply,
) -> Result<Vec<CommandResult>, AllocError> {
    let mut results = Vec::new(alloc);
    for (context, done) in contexts.iter().zip(reply.results()) {
        results.push(result_of(alloc, *context, done, reply)?)?;
    }
    Ok(results)
}
