//! The ephemerals at which a search finds that media arrives, in a place of fixed size that needs no memory from an allocator.
ghost use Rattle.std.specs.Prelude.{◌≡◌, ◌≤◌, None, length, IfSome};
ghost use Rattle.mg_model.specs.Members.{is_among};
ghost use Rattle.contexts.specs.Found.{all_found, noted, IsFull, IsTaken};

use std::marker::Model;

/// The most ephemerals that a search can note.
pub(crate) const FOUND_MOST: usize = 4096;

/// The ephemerals that were found, each once, in the order in which they were: the search has gone on from those before `next`, and is
/// still to go on from those before `count`.
#[derive(Drop)]
pub(crate) struct Found {
    numbers: [u32; FOUND_MOST],
    count: usize,
    next: usize,
}

impl Model for Found {
    ghost use Rattle.std.specs.Prelude.{◌≤◌, IsTrue, take, drop};
    ghost use Rattle.contexts.specs.Found.{FoundValue, all_differ};

    ghost Value = { FoundValue };

    ghost view = { λ f. record { done = take f.next (take f.count f.numbers); ahead = drop f.next (take f.count f.numbers) } };

    ghost invariant = { λ f. (f.next ≤ f.count) × (f.count ≤ 4096) × IsTrue (all_differ (take f.count f.numbers)) };
}

/// Whether a number is among numbers.
fn contains(numbers: &[u32], number: u32) -> bool
    ensures { result ≡ is_among numbers.now number }
{
    numbers.iter().any(|n| number == *n)
}

impl Found {
    ghost use Rattle.std.specs.Prelude.{[]};

    /// Nothing found.
    pub(crate) fn new() -> Found
        ensures { result ≡ record { done = []; ahead = [] } }
    {
        Found {
            numbers: [0; FOUND_MOST],
            count: 0,
            next: 0,
        }
    }

    /// Whether an ephemeral was found.
    pub(crate) fn has(&self, ephemeral: u32) -> bool
        ensures { result ≡ is_among (all_found self.now) ephemeral }
    {
        contains(&self.numbers[..self.count], ephemeral)
    }

    /// Notes an ephemeral, unless it was found before; `None`, and nothing is changed, where one more doesn't fit.
    pub(crate) fn note(&mut self, ephemeral: u32) -> Option<()>
        ensures noted { IfSome result (λ _. self.new ≡ noted ephemeral self.old) }
        ensures unchanged { result ≡ None → self.new ≡ self.old }
        ensures full { result ≡ None → IsFull FOUND_MOST ephemeral self.old }
    {
        if self.has(ephemeral) {
            return Some(());
        }
        if self.count == FOUND_MOST {
            return None;
        }
        self.numbers[self.count] = ephemeral;
        self.count += 1;
        Some(())
    }

    /// The next one to go on from, which counts as gone on from then; `None` where there is none.
    pub(crate) fn take_next(&mut self) -> Option<u32>
        ensures taken { IsTaken self.old self.new result }
        ensures bounded { length (all_found self.new) ≤ FOUND_MOST }
    {
        if self.next == self.count {
            return None;
        }
        let number = self.numbers[self.next];
        self.next += 1;
        Some(number)
    }
}
