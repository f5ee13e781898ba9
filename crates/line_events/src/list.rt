//! The list of an Events descriptor.
ghost use Rattle.std.specs.Prelude.{◌≡◌, [], None, IfOk, OnOk, OnErr, map, option_map};
ghost use Rattle.std.specs.List.{list_any};
ghost use Rattle.mg_model.specs.LineEvents.{is_hook, is_standing, is_flash, map_in};

use crate::item::{self, ListItem};
use digits::DigitMap;
use mg_model::line_events::Hook;
use mg_model::transitions::EventItem;
use std::alloc::{AllocError, Global};
use std::marker::Model;

/// The list of an Events descriptor (ITU-T H.248.1 v1 / RFC 3525, 7.1.9).
#[derive(Drop)]
pub struct EventList {
    items: Vec<ListItem>,
}

impl Model for EventList {
    ghost use Rattle.std.specs.Prelude.{List};
    ghost use Rattle.mg_model.specs.LineEvents.{ListItem};

    ghost Value = { List ListItem };

    ghost view = { λ l. l.items.items };
}

impl EventList {
    /// The list of these items.
    pub fn new(items: Vec<ListItem>) -> EventList
        ensures { result ≡ items.items }
    {
        EventList { items }
    }

    /// No item.
    pub fn empty(alloc: Global) -> EventList
        ensures { result ≡ [] }
    {
        EventList {
            items: Vec::new(alloc),
        }
    }

    /// An equal list.
    pub fn copy(&self, alloc: Global) -> Result<EventList, AllocError>
        ensures { IfOk result (λ copied. copied ≡ self.now) }
    {
        let items = copied(alloc, self.items.as_slice())?;
        Ok(EventList { items })
    }

    /// Becomes an equal list, in the room that it has where that is enough; it stays as it was where memory runs out.
    pub(crate) fn assign(&mut self, alloc: Global, list: &EventList) -> Result<(), AllocError>
        ensures ok { OnOk result (self.new ≡ list.now) }
        ensures err { OnErr result (self.new ≡ self.old) }
    {
        // The copy of a digit map takes memory, which must not be refused once the old items are gone.
        if list.map().is_some() {
            *self = list.copy(alloc)?;
            return Ok(());
        }
        refill(&mut self.items, list.items.as_slice())
    }

    /// Loses its items, and keeps their room.
    pub(crate) fn clear(&mut self)
        ensures { self.new ≡ [] }
    {
        self.items.clear();
    }

    /// The items, in their order.
    pub fn items(&self) -> &[ListItem]
        ensures { result.now ≡ self.now }
    {
        self.items.as_slice()
    }

    /// The allocator of its items.
    pub(crate) fn allocator(&self) -> Global {
        *self.items.allocator()
    }

    /// Whether it names the hook event of going to this state.
    pub fn has_hook(&self, hook: Hook) -> bool
        ensures { result ≡ list_any (is_hook hook) self.now }
    {
        has_hook(self.items.as_slice(), hook)
    }

    /// Whether it recognises this hook state as it stands.
    pub fn has_standing(&self, hook: Hook) -> bool
        ensures { result ≡ list_any (is_standing hook) self.now }
    {
        has_standing(self.items.as_slice(), hook)
    }

    /// Whether it names the flash.
    pub fn has_flash(&self) -> bool
        ensures { result ≡ list_any is_flash self.now }
    {
        has_flash(self.items.as_slice())
    }

    /// Its digit map.
    pub fn map(&self) -> Option<&DigitMap>
        ensures { option_map (λ m. m.now) result ≡ map_in self.now }
    {
        map_among(self.items.as_slice())
    }
}

/// The first digit map among items.
fn map_among(items: &[ListItem]) -> Option<&DigitMap>
    ensures { option_map (λ m. m.now) result ≡ map_in items.now }
{
    for item in items {
        if let EventItem::Digits(map) = item {
            return Some(map);
        }
    }
    None
}

fn has_hook(items: &[ListItem], hook: Hook) -> bool
    ensures { result ≡ list_any (is_hook hook) items.now }
{
    items.iter().any(|item| item::is_hook(item, hook))
}

fn has_standing(items: &[ListItem], hook: Hook) -> bool
    ensures { result ≡ list_any (is_standing hook) items.now }
{
    items.iter().any(|item| item::is_standing(item, hook))
}

fn has_flash(items: &[ListItem]) -> bool
    ensures { result ≡ list_any is_flash items.now }
{
    items.iter().any(|item| item::is_flash(item))
}

/// The same items again.
fn copied(alloc: Global, items: &[ListItem]) -> Result<Vec<ListItem>, AllocError>
    ensures { IfOk result (λ v. v.items ≡ items.now) }
{
    let mut found = Vec::with_capacity(alloc, items.len())?;
    for item in items {
        let item = item::copy(alloc, item)?;
        found.push(item)?;
    }
    Ok(found)
}

/// Puts items of which none has a digit map in the place of others.
fn refill(found: &mut Vec<ListItem>, items: &[ListItem]) -> Result<(), AllocError>
    requires { map_in items.now ≡ None }
    ensures ok { OnOk result (found.new.items ≡ items.now) }
    ensures err { OnErr result (found.new.items ≡ found.old.items) }
{
    found.reserve(items.len().saturating_sub(found.len()))?;
    found.clear();
    for item in items {
        let Ok(()) = found.push(item::plain(item)) else {
            unreachable!();
        };
    }
    Ok(())
}
