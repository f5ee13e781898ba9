//! The names that a command creates.
ghost use Rattle.std.specs.Prelude.{◌≡◌};
ghost use Rattle.explanation.specs.Created.{creates_context, creates_ephemeral};

use mg_model::commands::Command;
use mg_names::slots::Slot;

/// Whether a command creates a context.
pub(crate) fn creates_context(command: &Command, context: Slot) -> bool
    ensures { result ≡ creates_context context command.now }
{
    match *command {
        Command::AddLine {
            create,
            context: made,
            ..
        } => create && made.index() == context.index(),
        Command::AddEphemeral {
            create,
            context: made,
            ..
        } => create && made.index() == context.index(),
        _ => false,
    }
}

/// Whether a command creates an ephemeral.
pub(crate) fn creates_ephemeral(command: &Command, ephemeral: Slot) -> bool
    ensures { result ≡ creates_ephemeral ephemeral command.now }
{
    match *command {
        Command::AddEphemeral {
            ephemeral: made,
            ..
        } => made.index() == ephemeral.index(),
        _ => false,
    }
}
