ghost use Rattle.std.specs.Prelude.{◌≡◌, ℕ, ◌<◌, ◌≤◌, IsNone, IfSome, ◌↔◌};

use std::marker::Model;

/// The place of an events list among a script's own, counted from 0, of which it has at most sixteen. This profile's own.
#[derive(Clone, Copy, PartialEq, Eq)]
pub struct ListPlace {
    place: u8,
}

impl Model for ListPlace {
    ghost Value = { ℕ };

    ghost view = { λ list. list.place };

    ghost invariant = { λ list. list.place < 16 };

    ghost inverse = { λ place. record { place = place } };
}

impl ListPlace {
    /// How many places there are.
    pub const COUNT: usize = 16;

    /// The place of this number; `None` from 16 on.
    pub fn new(place: usize) -> Option<ListPlace>
        ensures value { IfSome result (λ list. list ≡ place) }
        ensures refused { IsNone result ↔ (16 ≤ place) }
    {
        if place < 16 {
            Some(ListPlace { place: place as u8 })
        } else {
            None
        }
    }

    /// The place, below 16.
    pub fn index(self) -> usize
        ensures value { result ≡ self }
        ensures small { result < 16 }
        ensures in_range { self < 16 }
    {
        self.place as usize
    }
}
