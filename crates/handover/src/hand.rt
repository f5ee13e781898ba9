//! What is handed on, what a share knows of it, and the rule of the queue.
use crossbeam_queue::protocol::{Join, Lesson, Outcome, Protocol, Split};
use std::collections::LinkedList;

/// A thing with the number by which it is counted.
#[derive(Drop)]
pub struct NumberedItem<T> {
    /// Its number. No two things of one queue have the same.
    pub number: u32,
    /// The thing.
    pub load: T,
}

/// What a share knows: its parts of the right to know the whole, and the numbers of what it put into the queue for the first time, of all that it put into
/// it, and of all that it took out. No value of it is made.
pub struct Hand {
    /// The parts.
    pub parts: u64,
    /// What it put in for the first time.
    pub begun: LinkedList<u32>,
    /// What it put in.
    pub put: LinkedList<u32>,
    /// What it took out.
    pub taken: LinkedList<u32>,
}

/// The rule of the queue.
pub(crate) struct Fair;

impl<T> Protocol<NumberedItem<T>, Hand> for Fair {
    ghost use Rattle.std.specs.Prelude.{[]};
    ghost use Rattle.handover.specs.Hands.{IsFair, all_parts, hand, numbers_of};

    ghost holds = { λ items views. IsFair (numbers_of items) views };

    ghost first = { hand all_parts [] [] [] };
}

/// A part goes to another share, which did nothing yet; and all that a share did comes back with its parts.
pub(crate) struct Cut;

impl Split<Hand> for Cut {
    ghost use Rattle.std.specs.Prelude.{[], ◌-◌};
    ghost use Rattle.handover.specs.Hands.{hand};

    ghost left = { λ v. hand (v.parts - 1) v.begun v.put v.taken };

    ghost right = { λ v. hand 1 [] [] [] };
}

impl Join<Hand> for Cut {
    ghost use Rattle.std.specs.Prelude.{[], ◌+◌, ◌++◌};
    ghost use Rattle.handover.specs.Hands.{hand};

    ghost both = { λ v w. hand (v.parts + w.parts) (v.begun ++ w.begun) (v.put ++ w.put) (v.taken ++ w.taken) };

    ghost spent = { hand 0 [] [] [] };
}

/// A thing goes in for the first time.
pub(crate) struct Begins;

impl<T> Outcome<NumberedItem<T>, Hand> for Begins {
    ghost use Rattle.std.specs.Prelude.{◌≡◌, [], ◌∷◌, ◌++◌};
    ghost use Rattle.handover.specs.Hands.{hand};

    ghost then = { λ v x w. w ≡ hand v.parts (v.begun ++ x.number ∷ []) (v.put ++ x.number ∷ []) v.taken };
}

impl<T> Lesson<NumberedItem<T>, Hand> for Begins {
    ghost use Rattle.handover.specs.Hands.{LearnsAll, numbers_of};

    ghost fact = { λ v items. LearnsAll v (numbers_of items) };
}

/// A thing goes in again.
pub(crate) struct Puts;

impl<T> Outcome<NumberedItem<T>, Hand> for Puts {
    ghost use Rattle.std.specs.Prelude.{◌≡◌, [], ◌∷◌, ◌++◌};
    ghost use Rattle.handover.specs.Hands.{hand};

    ghost then = { λ v x w. w ≡ hand v.parts v.begun (v.put ++ x.number ∷ []) v.taken };
}

impl<T> Lesson<NumberedItem<T>, Hand> for Puts {
    ghost use Rattle.std.specs.Prelude.{⊤};

    ghost fact = { λ v items. ⊤ };
}

/// A thing comes out.
pub(crate) struct Takes;

impl<T> Outcome<NumberedItem<T>, Hand> for Takes {
    ghost use Rattle.std.specs.Prelude.{◌≡◌, [], ◌∷◌, ◌++◌};
    ghost use Rattle.handover.specs.Hands.{hand};

    ghost then = { λ v x w. w ≡ hand v.parts v.begun v.put (v.taken ++ x.number ∷ []) };
}

impl<T> Lesson<NumberedItem<T>, Hand> for Takes {
    ghost use Rattle.handover.specs.Hands.{LearnsAll, numbers_of};

    ghost fact = { λ v items. LearnsAll v (numbers_of items) };
}

/// What stands in the queue, for a share with all parts.
pub(crate) struct All;

impl<T> Lesson<NumberedItem<T>, Hand> for All {
    ghost use Rattle.handover.specs.Hands.{LearnsAll, numbers_of};

    ghost fact = { λ v items. LearnsAll v (numbers_of items) };
}
