//! The descriptors that a script's names stand for (H.248.1 sections 7.1.9, 7.1.11 and 7.1.14).
ghost use Rattle.std.specs.Prelude.{◌≡◌, IfOk, None, map, option_map};
ghost use Rattle.mg_model.specs.ListContents.{list_item, list_of, set_of};

use digits::DigitMap;
use line_events::{EventList, ListItem};
use mg_model::commands::{EventsName, LineOptions, SignalsName};
use mg_model::line_events::SignalSet;
use mg_model::references::SettingsRef;
use mg_model::transitions::EventItem;
use requests::LineDescriptors;
use script_table::Script;
use std::alloc::{AllocError, Global};

/// An item of a script's list, with its digit map. A map that the script doesn't have reads as one without alternatives.
fn list_item(alloc: Global, script: &Script, item: &EventItem<u8>) -> Result<ListItem, AllocError>
    ensures { IfOk result (λ found. found ≡ list_item script.now item.now) }
{
    match *item {
        EventItem::OnHook(strict) => Ok(EventItem::OnHook(strict)),
        EventItem::OffHook(strict) => Ok(EventItem::OffHook(strict)),
        EventItem::Flash => Ok(EventItem::Flash),
        EventItem::Digits(place) => match script.map(place) {
            Some(map) => Ok(EventItem::Digits(map.copy(alloc)?)),
            None => Ok(EventItem::Digits(DigitMap::empty(alloc))),
        },
    }
}

/// The items of a script's list, each with its digit map, in their order.
fn list_items(
    alloc: Global,
    script: &Script,
    items: &[EventItem<u8>],
) -> Result<Vec<ListItem>, AllocError>
    ensures { IfOk result (λ found. found.items ≡ map (list_item script.now) items.now) }
{
    let mut found = Vec::with_capacity(alloc, items.len())?;
    for item in items {
        let item = list_item(alloc, script, item)?;
        found.push(item)?;
    }
    Ok(found)
}

/// The list of an Events descriptor that a name stands for.
pub(crate) fn events(
    alloc: Global,
    script: &Script,
    name: EventsName,
) -> Result<EventList, AllocError>
    ensures { IfOk result (λ list. list ≡ list_of script.now name) }
{
    let items = list_items(alloc, script, script.list(name))?;
    Ok(EventList::new(items))
}

/// The list of an Events descriptor, where a command has one.
fn events_given(
    alloc: Global,
    script: &Script,
    name: Option<EventsName>,
) -> Result<Option<EventList>, AllocError>
    ensures { IfOk result (λ list. list ≡ option_map (list_of script.now) name) }
{
    match name {
        Some(name) => Ok(Some(events(alloc, script, name)?)),
        None => Ok(None),
    }
}

/// The set of a Signals descriptor, where a command has one.
fn signals_given(script: &Script, name: Option<SignalsName>) -> Option<SignalSet>
    ensures { result ≡ option_map (set_of script.now) name }
{
    match name {
        Some(name) => Some(script.signal_set(name)),
        None => None,
    }
}

/// The descriptors of a command on a line; what it leaves out stays.
pub(crate) fn of_line(
    alloc: Global,
    script: &Script,
    options: &LineOptions,
) -> Result<LineDescriptors, AllocError>
    ensures { IfOk result (λ d. (d.events ≡ option_map (list_of script.now) options.now.events) × (d.signals ≡ option_map (set_of script.now) options.now.signals)) }
{
    Ok(LineDescriptors {
        events: events_given(alloc, script, options.events)?,
        signals: signals_given(script, options.signals),
    })
}

/// What a command sets of a line on the connection model: its mode alone.
pub(crate) fn line_settings(options: &LineOptions) -> SettingsRef
    ensures { result ≡ record { mode = options.now.mode; remote = None } }
{
    SettingsRef {
        mode: options.mode,
        remote: None,
    }
}
