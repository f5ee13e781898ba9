//! An item of an Events descriptor.
ghost use Rattle.std.specs.Prelude.{◌≡◌, ◌∷◌, [], IfOk, None};
ghost use Rattle.mg_model.specs.LineEvents.{is_hook, is_standing, is_flash, map_in};

use digits::DigitMap;
use mg_model::line_events::Hook;
use mg_model::transitions::EventItem;
use mg_names::strictness::Strict;
use std::alloc::{AllocError, Global};

/// An item with its digit map.
pub type ListItem = EventItem<DigitMap>;

/// Whether an item is the hook event of going to this state.
pub(crate) fn is_hook(item: &ListItem, hook: Hook) -> bool
    ensures { result ≡ is_hook hook item.now }
{
    match (hook, item) {
        (Hook::On, EventItem::OnHook(_)) => true,
        (Hook::Off, EventItem::OffHook(_)) => true,
        _ => false,
    }
}

/// Whether an item recognises this hook state as it stands.
pub(crate) fn is_standing(item: &ListItem, hook: Hook) -> bool
    ensures { result ≡ is_standing hook item.now }
{
    match (hook, item) {
        (Hook::On, EventItem::OnHook(Strict::State)) => true,
        (Hook::Off, EventItem::OffHook(Strict::State)) => true,
        _ => false,
    }
}

/// Whether an item is the flash.
pub(crate) fn is_flash(item: &ListItem) -> bool
    ensures { result ≡ is_flash item.now }
{
    matches!(item, EventItem::Flash)
}

/// An equal item.
pub(crate) fn copy(alloc: Global, item: &ListItem) -> Result<ListItem, AllocError>
    ensures { IfOk result (λ copied. copied ≡ item.now) }
{
    match item {
        EventItem::OnHook(strict) => Ok(EventItem::OnHook(*strict)),
        EventItem::OffHook(strict) => Ok(EventItem::OffHook(*strict)),
        EventItem::Flash => Ok(EventItem::Flash),
        EventItem::Digits(map) => Ok(EventItem::Digits(map.copy(alloc)?)),
    }
}

/// An equal item of one without a digit map.
pub(crate) fn plain(item: &ListItem) -> ListItem
    requires { map_in (item.now ∷ []) ≡ None }
    ensures { result ≡ item.now }
{
    match item {
        EventItem::OnHook(strict) => EventItem::OnHook(*strict),
        EventItem::OffHook(strict) => EventItem::OffHook(*strict),
        EventItem::Flash => EventItem::Flash,
        EventItem::Digits(_) => unreachable!(),
    }
}
