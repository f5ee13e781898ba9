//! The names that commands may use.
ghost use Rattle.std.specs.Prelude.{◌≡◌, ◌&&◌, false, slice_index_or};
ghost use Rattle.std.specs.List.{list_any};
ghost use Rattle.mg_model.specs.Request.{uses_known, names_after, place_known, termination_known, remote_option_known};

use mg_model::commands::{Command, EphemeralOptions, Place, RemoteOption, Termination};
use mg_names::slots::Slot;

/// The names that commands of a request may use: those that are bound as it is built, and those that its earlier
/// commands create. This profile's own.
#[derive(Clone, Copy)]
pub struct Names {
    contexts: [bool; 4],
    ephemerals: [bool; 4],
}

#[tactic(auto, unfolding(crate::specs::Known::names_of))]
impl Names {
    ghost use Rattle.mg_model.specs.Request as request;
    ghost use Rattle.built_request.specs.Known.{names_of};

    /// The names of two tables, which say of each slot whether the context or the ephemeral of that name is bound.
    pub fn new(contexts: [bool; 4], ephemerals: [bool; 4]) -> Names
        ensures contexts { (names_of result).contexts ≡ (λ j. slice_index_or contexts j false) }
        ensures ephemerals { (names_of result).ephemerals ≡ (λ k. slice_index_or ephemerals k false) }
    {
        Names {
            contexts,
            ephemerals,
        }
    }

    fn has_context(&self, context: Slot) -> bool
        ensures { result ≡ (names_of self.now).contexts context }
    {
        self.contexts[context.index()]
    }

    fn has_ephemeral(&self, ephemeral: Slot) -> bool
        ensures { result ≡ (names_of self.now).ephemerals ephemeral }
    {
        self.ephemerals[ephemeral.index()]
    }

    fn has_place(&self, place: &Place) -> bool
        ensures { result ≡ place_known (names_of self.now) place.now }
    {
        match *place {
            Place::NullContext => true,
            Place::Context(context) => self.has_context(context),
        }
    }

    fn has_termination(&self, termination: &Termination) -> bool
        ensures { result ≡ termination_known (names_of self.now) termination.now }
    {
        match *termination {
            Termination::Line(_) => true,
            Termination::Ephemeral(ephemeral) => self.has_ephemeral(ephemeral),
        }
    }

    /// Whether a context and a termination that is looked for in it are known.
    fn has_in(&self, context: Slot, termination: &Termination) -> bool
        ensures { result ≡ ((names_of self.now).contexts context && termination_known (names_of self.now) termination.now) }
    {
        self.has_context(context) && self.has_termination(termination)
    }

    /// Whether a place and an ephemeral that is looked for there are known.
    fn has_at(&self, place: &Place, ephemeral: Slot) -> bool
        ensures { result ≡ (place_known (names_of self.now) place.now && (names_of self.now).ephemerals ephemeral) }
    {
        self.has_place(place) && self.has_ephemeral(ephemeral)
    }

    fn has_remote(&self, options: &EphemeralOptions) -> bool
        ensures { result ≡ remote_option_known (names_of self.now) options.now.remote }
    {
        match options.remote {
            None => true,
            Some(RemoteOption::NoneGiven) => true,
            Some(RemoteOption::Peer(ephemeral)) => self.has_ephemeral(ephemeral),
        }
    }

    /// Whether each name that a command uses is known; a name that it creates is not used by it.
    pub(crate) fn know_all_of(&self, command: &Command) -> bool
        ensures { result ≡ uses_known (names_of self.now) command.now }
    {
        match *command {
            Command::AddLine {
                create,
                context,
                ..
            } => create || self.has_context(context),
            Command::AddEphemeral {
                create,
                context,
                options,
                ..
            } => (create || self.has_context(context)) && self.has_remote(&options),
            Command::ModifyLine { place, .. } => self.has_place(&place),
            Command::ModifyEphemeral {
                place,
                ephemeral,
                options,
            } => self.has_at(&place, ephemeral) && self.has_remote(&options),
            Command::MoveLine { context, .. } => self.has_context(context),
            Command::MoveEphemeral {
                context,
                ephemeral,
                options,
            } => self.has_at(&Place::Context(context), ephemeral) && self.has_remote(&options),
            Command::Subtract {
                context,
                termination,
            } => self.has_in(context, &termination),
            Command::SubtractAll { context } => self.has_context(context),
            Command::SetTopology {
                context,
                first,
                second,
                ..
            } => self.has_in(context, &first) && self.has_termination(&second),
        }
    }

    /// Whether some command uses known names alone.
    pub(crate) fn keep_any(&self, commands: &[Command]) -> bool
        ensures { result ≡ list_any (uses_known (names_of self.now)) commands.now }
    {
        commands.iter().any(|command| self.know_all_of(command))
    }

    /// Adds the names that a command creates.
    pub(crate) fn add_created(&mut self, command: &Command)
        ensures { names_of self.new ≡ names_after (names_of self.old) command.now }
    {
        match *command {
            Command::AddLine {
                create,
                context,
                ..
            } => {
                if create {
                    self.contexts[context.index()] = true;
                }
            }
            Command::AddEphemeral {
                create,
                context,
                ephemeral,
                ..
            } => {
                if create {
                    self.contexts[context.index()] = true;
                }
                self.ephemerals[ephemeral.index()] = true;
            }
            _ => {}
        }
    }
}
