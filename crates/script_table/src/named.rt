//! Look-ups in a script by name.
ghost use Rattle.std.specs.Prelude.{◌≡◌, ◌<◌, ◌≤◌, length, map, position, IfSome, string_bytes};
ghost use Rattle.std.specs.Str.{bytes_eq};
ghost use Rattle.script_table.specs.Table.{place_of, state_named, list_named};

use crate::lists::EventsList;
use crate::script::Script;
use crate::state::State;
use mg_model::commands::EventsName;
use mg_names::list_places::ListPlace;
use mg_names::slots::Slot;

/// The place of a name among names.
fn place_among(names: &[String], name: &str) -> Option<usize>
    ensures place { result ≡ position (λ other. bytes_eq name.now (string_bytes other)) names.now }
    ensures within { IfSome result (λ place. place < length names.now) }
{
    names.iter().position(|other| name == other.as_str())
}

/// The slot of a name among at most four.
fn slot_of(names: &[String], name: &str) -> Option<Slot>
    requires { length names.now ≤ 4 }
    ensures { result ≡ place_of name.now (map (λ n. string_bytes n) names.now) }
{
    let place = place_among(names, name)?;
    Slot::new(place)
}

/// The place of a state among states.
fn state_among(states: &[State], name: &str) -> Option<usize>
    ensures place { result ≡ state_named name.now states.now }
    ensures within { IfSome result (λ place. place < length states.now) }
{
    states.iter().position(|state| name == state.name())
}

/// The place of a list among lists.
fn list_among(lists: &[EventsList], name: &str) -> Option<usize>
    ensures place { result ≡ position (λ list. bytes_eq name.now list.name) lists.now }
    ensures within { IfSome result (λ place. place < length lists.now) }
{
    lists.iter().position(|list| name == list.name())
}

impl Script {
    /// The line of a name.
    pub fn line(&self, name: &str) -> Option<Slot>
        ensures { result ≡ place_of name.now self.now.lines }
    {
        slot_of(self.tables.lines.as_slice(), name)
    }

    /// The context of a name.
    pub fn context(&self, name: &str) -> Option<Slot>
        ensures { result ≡ place_of name.now self.now.contexts }
    {
        slot_of(self.tables.contexts.as_slice(), name)
    }

    /// The ephemeral of a name.
    pub fn ephemeral(&self, name: &str) -> Option<Slot>
        ensures { result ≡ place_of name.now self.now.ephemerals }
    {
        slot_of(self.tables.ephemerals.as_slice(), name)
    }

    /// The state of a name.
    pub fn state_named(&self, name: &str) -> Option<u8>
        ensures { result ≡ state_named name.now self.now.states }
    {
        let place = state_among(self.tables.states.as_slice(), name)?;
        Some(place as u8)
    }

    /// The events list of a name: `none`, `armed`, or one of the script's own.
    pub fn list_named(&self, name: &str) -> Option<EventsName>
        ensures { result ≡ list_named name.now self.now.lists }
    {
        if name == "none" {
            return Some(EventsName::Empty);
        }
        if name == "armed" {
            return Some(EventsName::Armed);
        }
        let place = list_among(self.tables.lists.as_slice(), name)?;
        Some(EventsName::Own(ListPlace::new(place)?))
    }
}
