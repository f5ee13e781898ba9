//! What the commands of a request create.
ghost use Rattle.std.specs.Prelude.{◌≡◌};
ghost use Rattle.mg_model.specs.Agent.{none_made, made_after};
ghost use Rattle.agent.specs.Parts.{made_of};

use mg_model::commands::Command;
use mg_names::slots::Slot;

/// The places, from 0, of the commands of a request that created names, so far. This profile's own.
#[derive(Clone, Copy)]
pub(crate) struct CreatedAt {
    contexts: [Option<usize>; 4],
    ephemerals: [Option<usize>; 4],
}

#[tactic(auto, unfolding(crate::specs::Parts::made_of))]
impl CreatedAt {
    /// Nothing was created.
    pub(crate) fn none() -> CreatedAt
        ensures { made_of result ≡ none_made }
    {
        CreatedAt {
            contexts: [None; 4],
            ephemerals: [None; 4],
        }
    }

    /// The place of the command that created a context.
    pub(crate) fn context(&self, context: Slot) -> Option<usize>
        ensures { result ≡ (made_of self.now).contexts context }
    {
        self.contexts[context.index()]
    }

    /// The place of the command that created an ephemeral.
    pub(crate) fn ephemeral(&self, ephemeral: Slot) -> Option<usize>
        ensures { result ≡ (made_of self.now).ephemerals ephemeral }
    {
        self.ephemerals[ephemeral.index()]
    }

    /// Adds what the command at a place creates.
    pub(crate) fn add(&mut self, command: &Command, place: usize)
        ensures { made_of self.new ≡ made_after (made_of self.old) command.now place }
    {
        match *command {
            Command::AddLine {
                create,
                context,
                ..
            } => {
                if create {
                    self.contexts[context.index()] = Some(place);
                }
            }
            Command::AddEphemeral {
                create,
                context,
                ephemeral,
                ..
            } => {
                if create {
                    self.contexts[context.index()] = Some(place);
                }
                self.ephemerals[ephemeral.index()] = Some(place);
            }
            _ => {}
        }
    }
}
