//! What a command tells of itself.
ghost use Rattle.std.specs.Prelude.{◌≡◌, IfOk, option_map, map};

use mg_names::identifiers::{ContextId, LineNo};
use std::alloc::AllocError;
use std::marker::Model;

/// What a command created, and what it took out of its context.
#[derive(Drop)]
pub struct Done {
    pub(crate) context: Option<u32>,
    pub(crate) ephemeral: Option<u32>,
    pub(crate) lines: Vec<LineNo>,
    pub(crate) ephemerals: Vec<u32>,
}

impl Model for Done {
    ghost use Rattle.std.specs.Prelude.{map};
    ghost use Rattle.mg_model.specs.Items as items;

    ghost Value = { items.Done };

    ghost view = { λ d. record { context = d.context; ephemeral = d.ephemeral; lines = map (λ l. l.0) d.lines.items; ephemerals = d.ephemerals.items } };
}

/// The same numbers again.
fn copied(numbers: &Vec<u32>) -> Result<Vec<u32>, AllocError>
    ensures { IfOk result (λ found. found.items ≡ numbers.now.items) }
{
    numbers.clone()
}

/// The same lines again.
fn copied_lines(lines: &Vec<LineNo>) -> Result<Vec<LineNo>, AllocError>
    ensures { IfOk result (λ found. found.items ≡ lines.now.items) }
{
    lines.clone()
}

impl Clone for Done {
    ghost use Rattle.std.specs.Prelude.{◌≡◌};

    ghost is_clone = { λ done copied. copied ≡ done };

    fn clone(&self) -> Result<Done, AllocError> {
        Ok(Done {
            context: self.context,
            ephemeral: self.ephemeral,
            lines: copied_lines(&self.lines)?,
            ephemerals: copied(&self.ephemerals)?,
        })
    }
}

impl Done {
    /// The context that the command created.
    pub fn context(&self) -> Option<ContextId>
        ensures { option_map (λ c. c.0) result ≡ self.now.context }
    {
        match self.context {
            Some(number) => Some(ContextId(number)),
            None => None,
        }
    }

    /// The number of the ephemeral that the command created.
    pub fn ephemeral(&self) -> Option<u32>
        ensures { result ≡ self.now.ephemeral }
    {
        self.ephemeral
    }

    /// The lines that went to the null context, in rising order.
    pub fn lines(&self) -> &[LineNo]
        ensures { map (λ l. l.0) result.now ≡ self.now.lines }
    {
        self.lines.as_slice()
    }

    /// The numbers of the ephemerals that were destroyed, in rising order.
    pub fn ephemerals(&self) -> &[u32]
        ensures { result.now ≡ self.now.ephemerals }
    {
        self.ephemerals.as_slice()
    }
}
