//! Paths of media between the lines of a configuration.
ghost use Rattle.std.specs.Prelude.{false, ◌≡◌, ℕ, ◌+◌, ◌*◌, ◌≤◌, ◌<◌, ◌↔◌, ◌||◌, ◌&&◌, IsTrue};
ghost use Rattle.mg_model.specs.Configuration.{Configuration};
ghost use Rattle.mg_model.specs.Paths.{AreJoined};
ghost use Rattle.configuration.specs.Places.{AbsentPastEight};
ghost use Rattle.configuration.specs.Bits.{has};
ghost use Rattle.configuration.specs.Config.{configuration_of};
ghost use Rattle.configuration.specs.Search.{IsRows, IsCrossings, IsWays, Goes, reaches, crosses_to};

use crate::config::Config;
use crate::fields::{field, put};
use crate::rows::{crossings, lets_media_in, line_rows, rows, senders};
use mg_names::slots::Slot;
use std::marker::Model;

/// A byte of a word, where a mask has this bit.
fn part(word: u64, place: u32, mask: u64, bit: u32) -> u64
    requires place { place < 64 }
    requires bit { bit < 64 }
    ensures value { (u : ℕ) → u < 8 → has result u ≡ (has mask bit && has word (place + u)) }
    ensures small { result < 256 }
{
    if field(mask, bit, 1) != 0 {
        field(word, place, 8)
    } else {
        0
    }
}

/// Those that media goes to from the terminations of a mask.
fn reached(rows: u64, mask: u64) -> u64
    ensures { (u : ℕ) → u < 8 → has result u ≡ reaches rows mask u }
{
    let low = part(rows, 24, mask, 3)
        | (part(rows, 32, mask, 4)
            | (part(rows, 40, mask, 5) | (part(rows, 48, mask, 6) | part(rows, 56, mask, 7))));
    part(rows, 0, mask, 0) | (part(rows, 8, mask, 1) | (part(rows, 16, mask, 2) | low))
}

/// The ephemerals that media crosses to from those of a mask.
fn crossed(crossings: u64, mask: u64) -> u64
    ensures value { (i : ℕ) → i < 4 → has result i ≡ crosses_to crossings (λ k. has mask (4 + k)) i }
    ensures small { result < 16 }
{
    let high = part(crossings, 16, mask, 6) | part(crossings, 24, mask, 7);
    field(
        part(crossings, 0, mask, 4) | (part(crossings, 8, mask, 5) | high),
        0,
        4,
    )
}

/// A mask with those ephemerals that media crosses to from what it reaches.
fn next(rows: u64, crossings: u64, mask: u64) -> u64
    requires { mask < 256 }
    ensures lines { (t : ℕ) → t < 4 → has result t ≡ has mask t }
    ensures ephemerals { (k : ℕ) → k < 4 →
        has result (4 + k) ≡ (has mask (4 + k) || crosses_to crossings (λ e. reaches rows mask (4 + e)) k) }
    ensures more { mask ≤ result }
    ensures small { result < 256 }
{
    let reached = reached(rows, mask);
    mask | crossed(crossings, reached) << 4
}

/// The lines that media goes to from a line, a bit for each.
fn heard(rows: u64, crossings: u64, from: Slot) -> u64
    ensures lines { (c : Configuration) → IsRows c rows → IsCrossings c crossings → AbsentPastEight c
        → (j : ℕ) → j < 4 → IsTrue (has result j) ↔ Goes c from j }
    ensures small { result < 16 }
{
    let mut mask = 1 << from.index();
    let mut more = next(rows, crossings, mask);
    while mask != more {
        mask = more;
        more = next(rows, crossings, mask);
    }
    field(reached(rows, mask), 0, 4)
}

/// Whether media goes from no line to an ephemeral of its context.
fn stays_at_lines(rows: u64) -> bool
    ensures { IsTrue result → (i k : ℕ) → i < 4 → k < 4 → has rows (8 * i + (4 + k)) ≡ false }
{
    let low = field(rows, 4, 4) | field(rows, 12, 4);
    low | (field(rows, 20, 4) | field(rows, 28, 4)) == 0
}

/// Where media goes from each line, as many crossings as it takes.
fn all_heard(rows: u64, crossings: u64) -> u64
    ensures { (c : Configuration) → IsRows c rows → IsCrossings c crossings → AbsentPastEight c → IsWays c result }
{
    let slots = Slot::all();
    let first = put(0, 0, 8, heard(rows, crossings, slots[0]));
    let second = put(first, 8, 8, heard(rows, crossings, slots[1]));
    let third = put(second, 16, 8, heard(rows, crossings, slots[2]));
    put(third, 24, 8, heard(rows, crossings, slots[3]))
}

/// Which lines media of a configuration goes between.
#[derive(Clone, Copy)]
pub struct Ways {
    /// For each line a byte, with a bit for each line that media goes to from it.
    lines: u64,
}

impl Model for Ways {
    ghost use Rattle.std.specs.Prelude.{ℕ};

    ghost Value = { ℕ };

    ghost view = { λ w. w.lines };

    ghost inverse = { λ n. record { lines = n } };
}

impl Ways {
    /// Those of a configuration.
    pub fn of(config: &Config) -> Ways
        ensures { IsWays (configuration_of config.now) result }
    {
        if !lets_media_in(config) {
            return Ways { lines: 0 };
        }
        let senders = senders(config);
        let lines = line_rows(config, senders);
        if stays_at_lines(lines) {
            return Ways { lines };
        }
        let crossings = crossings(config);
        if crossings == 0 {
            return Ways { lines };
        }
        Ways {
            lines: all_heard(rows(config, senders, lines), crossings),
        }
    }

    fn lines(&self) -> u64
        ensures { result ≡ self.now }
    {
        self.lines
    }

    /// Whether media goes from one line to one that may be the same.
    fn lead(&self, from: Slot, to: Slot) -> bool
        ensures { (c : Configuration) → IsWays c self.now → IsTrue result ↔ Goes c from to }
    {
        field(self.lines(), 8 * from.index() as u32 + to.index() as u32, 1) != 0
    }

    /// Whether media goes from no line to any line.
    pub fn are_none(&self) -> bool
        ensures { IsTrue result → (c : Configuration) → IsWays c self.now → (i j : ℕ) → i < 4 → j < 4 → AreJoined c i j → ⊥ }
    {
        self.lines() == 0
    }

    /// Whether two different lines are joined: there is a path of media from one to the other, either way.
    pub fn join(&self, one: Slot, other: Slot) -> bool
        ensures { (c : Configuration) → IsWays c self.now → IsTrue result ↔ AreJoined c one other }
    {
        if one.index() == other.index() {
            return false;
        }
        if self.lead(one, other) {
            return true;
        }
        self.lead(other, one)
    }
}
