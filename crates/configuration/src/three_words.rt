//! Three words laid out as a packed configuration's, that need not be one.
use crate::config::Config;
use crate::fields::put;
use std::marker::Model;

/// A word for the lines, one for the ephemerals, and one for the cuts.
#[derive(Clone, Copy)]
pub(crate) struct ThreeWords {
    lines: u64,
    ephemerals: u64,
    cuts: u64,
}

impl Model for ThreeWords {
    ghost use Rattle.configuration.specs.Packed.{Words};

    ghost Value = { Words };

    ghost view = { λ c. record { lines = c.lines; ephemerals = c.ephemerals; cuts = c.cuts } };

    ghost inverse = { λ w. record { lines = w.lines; ephemerals = w.ephemerals; cuts = w.cuts } };
}

impl ThreeWords {
    ghost use Rattle.std.specs.Prelude.{◌≡◌, ◌+◌, ◌^◌, ◌<◌, ◌≤◌, ◌==◌};
    ghost use Rattle.configuration.specs.Fields.{IsPut};
    ghost use Rattle.configuration.specs.Packed.{IsPacked};
    ghost use Rattle.configuration.specs.Regions.{word_at, with_word, are_alike};

    /// Three words with no bit set.
    pub(crate) fn none() -> ThreeWords
        ensures { result ≡ record { lines = 0; ephemerals = 0; cuts = 0 } }
    {
        ThreeWords {
            lines: 0,
            ephemerals: 0,
            cuts: 0,
        }
    }

    /// The word with a number.
    pub(crate) fn word(&self, number: u8) -> u64
        ensures { result ≡ word_at self.now number }
    {
        match number {
            0 => self.lines,
            1 => self.ephemerals,
            _ => self.cuts,
        }
    }

    fn set_word(&mut self, number: u8, word: u64)
        ensures { self.new ≡ with_word self.old number word }
    {
        match number {
            0 => self.lines = word,
            1 => self.ephemerals = word,
            _ => self.cuts = word,
        }
    }

    /// Puts a value into a field of the word with a number.
    pub(crate) fn put(&mut self, number: u8, at: u32, bits: u32, value: u64)
        requires within { at + bits ≤ 64 }
        requires place { at < 64 }
        requires size { bits < 64 }
        requires small { value < 2 ^ bits }
        ensures here { IsPut (word_at self.new number) (word_at self.old number) at bits value }
        ensures others { self.new ≡ with_word self.old number (word_at self.new number) }
    {
        let word = put(self.word(number), at, bits, value);
        self.set_word(number, word);
    }

    /// Whether a configuration's words agree with these in the bits of others.
    pub(crate) fn is_like(&self, mask: &ThreeWords, config: &Config) -> bool
        ensures value { result ≡ are_alike config.now self.now mask.now }
        ensures packed { IsPacked config.now }
    {
        let lines = (config.lines_word() ^ self.lines) & mask.lines;
        let ephemerals = (config.ephemerals_word() ^ self.ephemerals) & mask.ephemerals;
        let cuts = (config.cuts_word() ^ self.cuts) & mask.cuts;
        lines | (ephemerals | cuts) == 0
    }
}
