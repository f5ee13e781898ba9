//! The names that stand at places of a script, for whoever writes of it in its own words.
ghost use Rattle.std.specs.Prelude.{◌≡◌, option_copied, slice_get};
ghost use Rattle.script_table.specs.Names.{events_named, map_named, signals_named};

use crate::script::Script;
use mg_model::commands::{EventsName, SignalsName};
use mg_names::slots::Slot;

impl Script {
    /// The name of a context.
    pub fn context_name(&self, context: Slot) -> Option<&str>
        ensures { option_copied result ≡ slice_get self.now.contexts context }
    {
        self.tables
            .contexts
            .get(context.index())
            .map(|name| name.as_str())
    }

    /// The name of an ephemeral.
    pub fn ephemeral_name(&self, ephemeral: Slot) -> Option<&str>
        ensures { option_copied result ≡ slice_get self.now.ephemerals ephemeral }
    {
        self.tables
            .ephemerals
            .get(ephemeral.index())
            .map(|name| name.as_str())
    }

    /// The name of an events list; nothing where the script has no such list.
    pub fn events_name(&self, list: EventsName) -> Option<&str>
        ensures { option_copied result ≡ events_named self.now list }
    {
        match list {
            EventsName::Empty => Some("none"),
            EventsName::Armed => Some("armed"),
            EventsName::Own(place) => self.tables.lists.get(place.index()).map(|list| list.name()),
        }
    }

    /// The name of a signals list; nothing where the script has no such list.
    pub fn signals_name(&self, list: SignalsName) -> Option<&str>
        ensures { option_copied result ≡ signals_named self.now list }
    {
        match list {
            SignalsName::Silent => Some("none"),
            SignalsName::OwnSignals(place) => self
                .tables
                .signals
                .get(place as usize)
                .map(|list| list.name.as_str()),
        }
    }

    /// The name of a digit map; nothing where the script has no such map.
    pub fn map_name(&self, place: u8) -> Option<&str>
        ensures { option_copied result ≡ map_named self.now place }
    {
        self.tables
            .maps
            .get(place as usize)
            .map(|map| map.name.as_str())
    }
}
