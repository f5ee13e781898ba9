//! The rows of an entry that are written for the slots of some names: each name is looked up once, and then what stands for a slot is at hand.
ghost use Rattle.std.specs.Prelude.{◌≡◌, ◌<◌, ◌==◌, Some, option_map};
ghost use Rattle.certificate.specs.FoundRows.{at_slot, first_of, none_found, with_row, with_rows};
ghost use Rattle.typed_values.specs.Shape.{only_if};

use crate::reads::Row;
use crate::vocabulary::Vocabulary;
use mg_names::slots::Slot;
use std::marker::Model;

/// What is written for each slot: of several rows of one slot the first.
#[derive(Drop)]
pub(crate) struct BySlot<'a, T> {
    first: Option<&'a T>,
    second: Option<&'a T>,
    third: Option<&'a T>,
    fourth: Option<&'a T>,
}

impl<'a, T> Model for BySlot<'a, T> {
    ghost use Rattle.std.specs.Prelude.{option_map};
    ghost use Rattle.certificate.specs.FoundRows.{Slots};

    ghost Value = { Slots T };

    ghost view = { λ b. record { first = option_map (λ x. x.now) b.first; second = option_map (λ x. x.now) b.second; third = option_map (λ x. x.now) b.third; fourth = option_map (λ x. x.now) b.fourth } };
}

/// What was found first, or else this value, where it is meant.
fn first_of<'a, T>(found: Option<&'a T>, is_meant: bool, value: &'a T) -> Option<&'a T>
    ensures { option_map (λ x. x.now) result ≡ first_of (option_map (λ x. x.now) found.entry) is_meant value.now }
{
    if found.is_some() {
        return found;
    }
    if is_meant { Some(value) } else { None }
}

impl<'a, T> BySlot<'a, T> {
    /// No rows.
    fn none() -> BySlot<'a, T>
        ensures { result ≡ none_found }
    {
        BySlot {
            first: None,
            second: None,
            third: None,
            fourth: None,
        }
    }

    /// Adds a row, that of this slot.
    fn add(&mut self, slot: Slot, value: &'a T)
        ensures { self.new ≡ with_row self.old slot value.now }
    {
        let place = slot.index();
        self.first = first_of(self.first, place == 0, value);
        self.second = first_of(self.second, place == 1, value);
        self.third = first_of(self.third, place == 2, value);
        self.fourth = first_of(self.fourth, place == 3, value);
    }

    /// What is written for a slot.
    pub(crate) fn at(&self, slot: Slot) -> Option<&'a T>
        ensures value { option_map (λ x. x.now) result ≡ at_slot self.now slot }
        ensures in_range { slot < 4 }
    {
        match slot.index() {
            0 => self.first,
            1 => self.second,
            2 => self.third,
            _ => self.fourth,
        }
    }

    /// Adds some rows. Whether each name stands for a slot; else what was added is of no use.
    fn fill<V: Vocabulary<Slot>>(&mut self, names: &V, rows: &'a [Row<T>]) -> bool
        ensures { with_rows (V.named names.now) self.old rows.now ≡ only_if result (Some self.new) }
    {
        for row in rows {
            let Some(slot) = names.named(row.name.as_str()) else {
                return false;
            };
            self.add(slot, &row.value);
        }
        true
    }
}

/// What some rows have for each slot; `None` where a name stands for no slot.
pub(crate) fn by_slot<'a, T, V: Vocabulary<Slot>>(
    names: &V,
    rows: &'a [Row<T>],
) -> Option<BySlot<'a, T>>
    ensures { result ≡ with_rows (V.named names.now) none_found rows.now }
{
    let mut found = BySlot::none();
    if !found.fill(names, rows) {
        return None;
    }
    Some(found)
}
