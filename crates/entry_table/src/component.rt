//! A component of a configuration with the values that an entry gives it, as choices that make a configuration.
ghost use Rattle.std.specs.Prelude.{◌≡◌, ◌<◌, length, slice_index_or};
ghost use Rattle.mg_model.specs.Entries.{same_choice};
ghost use Rattle.configuration.specs.Config.{configuration_of};
ghost use Rattle.entry_table.specs.Listed.{choices_of};
ghost use Rattle.entry_table.specs.Shown.{shown};

use crate::values::Values;
use configuration::config::Config;
use mg_model::commands::{EventsName, Termination};
use mg_model::components::{Remote, Spot};
use mg_names::context_values::ContextValue;
use mg_names::modes::Mode;
use mg_names::phases::LinkPhase;
use mg_names::slots::Slot;

/// A component of a configuration with its values, in their order. This profile's own.
#[derive(Drop)]
pub enum Component {
    /// How far the state's request has come.
    Links(Values<LinkPhase>),
    /// Where a termination stands.
    Spots(Termination, Values<Spot>),
    /// The mode of a termination.
    Modes(Termination, Values<Mode>),
    /// The events list of a line.
    Events(Slot, Values<EventsName>),
    /// Whether a line may play a signal.
    Plays(Slot, Values<bool>),
    /// What a context name stands for.
    Contexts(Slot, Values<ContextValue>),
    /// The Remote of an ephemeral.
    Remotes(Slot, Values<Remote>),
    /// Whether media from one termination to another is cut.
    Cuts(Termination, Termination, Values<bool>),
}

#[tactic(auto, using(crate::proofs::Products::choice_at, crate::proofs::Products::no_choice))]
impl Component {
    /// Gives a configuration the value at a place; none where there is no such place.
    pub fn choose(&self, place: usize, config: &mut Config)
        ensures { configuration_of config.new
            ≡ (slice_index_or (choices_of (shown self.now)) place same_choice) (configuration_of config.old) }
    {
        if place >= self.count() {
            return;
        }
        self.give(place, config);
    }

    /// Gives a configuration the value at a place, where there is one.
    pub(crate) fn give(&self, place: usize, config: &mut Config)
        requires { place < length (choices_of (shown self.now)) }
        ensures { configuration_of config.new
            ≡ (slice_index_or (choices_of (shown self.now)) place same_choice) (configuration_of config.old) }
    {
        match self {
            Component::Links(values) => config.set_link(values.as_slice()[place]),
            Component::Spots(t, values) => config.set_spot(*t, values.as_slice()[place]),
            Component::Modes(t, values) => config.set_mode(*t, values.as_slice()[place]),
            Component::Events(line, values) => config.set_events(*line, values.as_slice()[place]),
            Component::Plays(line, values) => config.set_plays(*line, values.as_slice()[place]),
            Component::Contexts(name, values) => config.set_context(
                *name,
                values.as_slice()[place],
            ),
            Component::Remotes(name, values) => config.set_remote(*name, values.as_slice()[place]),
            Component::Cuts(t, u, values) => config.set_cut(*t, *u, values.as_slice()[place]),
        }
    }

    /// How many values it has.
    pub fn count(&self) -> usize
        ensures { result ≡ length (choices_of (shown self.now)) }
    {
        match self {
            Component::Links(values) => values.len(),
            Component::Spots(_, values) => values.len(),
            Component::Modes(_, values) => values.len(),
            Component::Events(_, values) => values.len(),
            Component::Plays(_, values) => values.len(),
            Component::Contexts(_, values) => values.len(),
            Component::Remotes(_, values) => values.len(),
            Component::Cuts(_, _, values) => values.len(),
        }
    }
}
