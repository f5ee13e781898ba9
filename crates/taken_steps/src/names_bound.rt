//! What the names of a call are bound to, as its replies tell it: which commands of a state its requests have.
use built_request::{Names, Request};
use gateway::{Done, Reply};
use mg_model::commands::{Command, Termination};
use mg_names::slots::Slot;
use script_table::Script;
use std::alloc::{AllocError, Global};

/// The numbers to which the names of contexts and ephemerals are bound. This profile's own.
#[derive(Clone, Copy)]
pub struct NamesBound {
    contexts: [Option<u32>; 4],
    ephemerals: [Option<u32>; 4],
}

/// What is left of a number, where these are gone.
fn left_of(number: Option<u32>, gone: &[u32]) -> Option<u32> {
    let number = number?;
    if gone.contains(&number) {
        return None;
    }
    Some(number)
}

impl NamesBound {
    /// No name is bound.
    pub(crate) const NONE: NamesBound = NamesBound {
        contexts: [None; 4],
        ephemerals: [None; 4],
    };

    /// The number of a context of the script, where its name is bound.
    pub fn context(&self, context: Slot) -> Option<u32> {
        self.contexts[context.index()]
    }

    /// The number of an ephemeral of the script, where its name is bound.
    pub fn ephemeral(&self, ephemeral: Slot) -> Option<u32> {
        self.ephemerals[ephemeral.index()]
    }

    /// The names that are bound.
    fn names(&self) -> Names {
        let (c, e) = (&self.contexts, &self.ephemerals);
        Names::new(
            [
                c[0].is_some(),
                c[1].is_some(),
                c[2].is_some(),
                c[3].is_some(),
            ],
            [
                e[0].is_some(),
                e[1].is_some(),
                e[2].is_some(),
                e[3].is_some(),
            ],
        )
    }

    /// The commands of a state's request.
    pub(crate) fn built(
        &self,
        alloc: Global,
        script: &Script,
        state: u8,
    ) -> Result<Vec<Command>, AllocError> {
        let mut request = Request::new(script, self.names(), state);
        let mut commands = Vec::new(alloc);
        for _ in 0..script.commands_of(state).len() {
            let Some(command) = request.take_first() else {
                return Ok(commands);
            };
            commands.push(command)?;
        }
        Ok(commands)
    }

    /// A context that a command created is bound.
    fn bind_context(&mut self, create: bool, context: Slot, done: &Done) {
        if create {
            self.contexts[context.index()] = match done.context() {
                Some(number) => Some(number.0),
                None => None,
            };
        }
    }

    /// A context is bound no more, nor are the ephemerals that were destroyed with it.
    fn lose_all(&mut self, context: Slot, done: &Done) {
        self.contexts[context.index()] = None;
        let (gone, e) = (done.ephemerals(), self.ephemerals);
        self.ephemerals = [
            left_of(e[0], gone),
            left_of(e[1], gone),
            left_of(e[2], gone),
            left_of(e[3], gone),
        ];
    }

    /// What a command that was done binds and unbinds.
    fn take(&mut self, command: &Command, done: &Done) {
        match *command {
            Command::AddLine {
                create,
                context,
                ..
            } => self.bind_context(create, context, done),
            Command::AddEphemeral {
                create,
                context,
                ephemeral,
                ..
            } => {
                self.bind_context(create, context, done);
                self.ephemerals[ephemeral.index()] = done.ephemeral();
            }
            Command::Subtract {
                termination: Termination::Ephemeral(ephemeral),
                ..
            } => self.ephemerals[ephemeral.index()] = None,
            Command::SubtractAll { context } => self.lose_all(context, done),
            _ => {}
        }
    }

    /// What a reply to a request of these commands binds and unbinds.
    pub(crate) fn take_reply(&mut self, commands: &[Command], reply: &Reply) {
        for (command, done) in commands.iter().zip(reply.results()) {
            self.take(command, done);
        }
    }
}
