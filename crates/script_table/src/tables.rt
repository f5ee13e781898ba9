//! The parts of a script's table.
use crate::lists::{EventsList, NamedMap, SignalsList};
use crate::state::State;
use std::marker::Model;

/// The parts of a script's table, as a reader builds them. What stands in a list is named by its place, from 0. This
/// profile's own.
#[derive(Drop)]
pub struct Tables {
    /// The names of the lines.
    pub lines: Vec<String>,
    /// The names of the contexts.
    pub contexts: Vec<String>,
    /// The names of the ephemerals.
    pub ephemerals: Vec<String>,
    /// The events lists of the script's own.
    pub lists: Vec<EventsList>,
    /// The signals lists of the script's own.
    pub signals: Vec<SignalsList>,
    /// The digit maps.
    pub maps: Vec<NamedMap>,
    /// The states.
    pub states: Vec<State>,
    /// The place of the state that a call opens in.
    pub start: u8,
    /// The place of the state that a call enters as it hears of a restart.
    pub restart: u8,
}

impl Model for Tables {
    ghost use Rattle.std.specs.Prelude.{string_bytes, map};
    ghost use Rattle.mg_model.specs.Script as table;

    ghost Value = { table.Script };

    ghost view = { λ s. record { lines = map (λ n. string_bytes n) s.lines.items; contexts = map (λ n. string_bytes n) s.contexts.items; ephemerals = map (λ n. string_bytes n) s.ephemerals.items; lists = s.lists.items; signals = s.signals.items; maps = s.maps.items; states = s.states.items; start = s.start; restart = s.restart } };
}
