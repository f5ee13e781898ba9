ghost use Rattle.std.specs.Prelude.{◌≡◌, ℕ, ◌<◌, ◌≤◌, IsNone, IfSome, ◌↔◌, ◌∷◌, []};

use std::marker::Model;

/// The place of a name in its table of a script, counted from 0: of a line, a context or an ephemeral termination, of
/// which a script has at most four each. This profile's own.
#[derive(Clone, Copy, PartialEq, Eq)]
pub struct Slot {
    place: u8,
}

impl Model for Slot {
    ghost Value = { ℕ };

    ghost view = { λ slot. slot.place };

    ghost invariant = { λ slot. slot.place < 4 };

    ghost inverse = { λ place. record { place = place } };
}

impl Slot {
    /// How many places there are.
    pub const COUNT: usize = 4;

    /// The slot of a place; `None` from 4 on.
    pub fn new(place: usize) -> Option<Slot>
        ensures value { IfSome result (λ slot. slot ≡ place) }
        ensures refused { IsNone result ↔ (4 ≤ place) }
    {
        match place {
            0 => Some(Slot { place: 0 }),
            1 => Some(Slot { place: 1 }),
            2 => Some(Slot { place: 2 }),
            3 => Some(Slot { place: 3 }),
            _ => None,
        }
    }

    /// All slots, in their order.
    pub fn all() -> [Slot; 4]
        ensures { result ≡ 0 ∷ 1 ∷ 2 ∷ 3 ∷ [] }
    {
        [
            Slot { place: 0 },
            Slot { place: 1 },
            Slot { place: 2 },
            Slot { place: 3 },
        ]
    }

    /// The place, below 4.
    pub fn index(self) -> usize
        ensures value { result ≡ self }
        ensures small { result < 4 }
        ensures in_range { self < 4 }
    {
        self.place as usize
    }
}
