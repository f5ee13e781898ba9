//! The events lists, signals lists and digit maps of a script's own.
ghost use Rattle.std.specs.Prelude.{◌≡◌};

use digits::DigitMap;
use mg_model::transitions::EventItem;
use mg_names::signals::Signal;
use std::marker::Model;

/// An events list (H.248.1 section 7.1.9): its name, and its items in their order.
#[derive(Drop)]
pub struct EventsList {
    /// The name.
    pub name: String,
    /// The items, in their order.
    pub items: Vec<EventItem<u8>>,
}

impl Model for EventsList {
    ghost use Rattle.std.specs.Prelude.{string_bytes};
    ghost use Rattle.mg_model.specs.Script as table;

    ghost Value = { table.EventsList };

    ghost view = { λ l. record { name = string_bytes l.name; items = l.items.items } };
}

impl EventsList {
    pub(crate) fn name(&self) -> &str
        ensures { result.now ≡ self.now.name }
    {
        self.name.as_str()
    }

    pub(crate) fn items(&self) -> &[EventItem<u8>]
        ensures { result.now ≡ self.now.items }
    {
        self.items.as_slice()
    }
}

/// A signals list (H.248.1 section 7.1.11): its name, and its signals in their order.
#[derive(Drop)]
pub struct SignalsList {
    /// The name.
    pub name: String,
    /// The signals, in their order.
    pub items: Vec<Signal>,
}

impl Model for SignalsList {
    ghost use Rattle.std.specs.Prelude.{string_bytes};
    ghost use Rattle.mg_model.specs.Script as table;

    ghost Value = { table.SignalsList };

    ghost view = { λ l. record { name = string_bytes l.name; items = l.items.items } };
}

impl SignalsList {
    pub(crate) fn items(&self) -> &[Signal]
        ensures { result.now ≡ self.now.items }
    {
        self.items.as_slice()
    }
}

/// A digit map (H.248.1 section 7.1.14) with its name.
#[derive(Drop)]
pub struct NamedMap {
    /// The name.
    pub name: String,
    /// The map.
    pub map: DigitMap,
}

impl Model for NamedMap {
    ghost use Rattle.std.specs.Prelude.{string_bytes};
    ghost use Rattle.mg_model.specs.Script as table;

    ghost Value = { table.NamedMap };

    ghost view = { λ m. record { name = string_bytes m.name; map = m.map } };
}

impl NamedMap {
    pub(crate) fn map(&self) -> &DigitMap
        ensures { result.now ≡ self.now.map }
    {
        &self.map
    }
}
