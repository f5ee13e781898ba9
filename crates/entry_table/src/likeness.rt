//! What some bits of a configuration's words have to be.
use crate::fixed_bits::FixedBits;
use configuration::config::Config;
use configuration::value_set::config_word;
use std::marker::Model;

/// What some bits of a configuration's words have to be.
#[derive(Clone, Copy)]
pub(crate) struct Likeness {
    lines: FixedBits,
    ephemerals: FixedBits,
    cuts: FixedBits,
}

impl Model for Likeness {
    ghost use Rattle.entry_table.specs.Sieves as sieves;

    ghost Value = { sieves.Likeness };

    ghost view = { λ l. record {
      base = record { lines = l.lines.base; ephemerals = l.ephemerals.base; cuts = l.cuts.base };
      mask = record { lines = l.lines.mask; ephemerals = l.ephemerals.mask; cuts = l.cuts.mask };
    } };

    ghost inverse = { λ l. record {
      lines = record { base = l.base.lines; mask = l.mask.lines };
      ephemerals = record { base = l.base.ephemerals; mask = l.mask.ephemerals };
      cuts = record { base = l.base.cuts; mask = l.mask.cuts };
    } };
}

impl Likeness {
    ghost use Rattle.std.specs.Prelude.{◌≡◌, ◌+◌, ◌^◌, ◌≤◌, ◌<◌, ◌==◌, ◌&&◌};
    ghost use Rattle.std.specs.Bool.{OnTrue, OnFalse};
    ghost use Rattle.configuration.specs.Fields.{field_of};
    ghost use Rattle.configuration.specs.Packed.{IsPacked, Words};
    ghost use Rattle.configuration.specs.Regions.{word_at};
    ghost use Rattle.entry_table.specs.Sieves.{bare, is_like};

    /// No bit has to be anything.
    pub(crate) fn none() -> Likeness
        ensures { result ≡ bare.alike }
    {
        Likeness {
            lines: FixedBits::none(),
            ephemerals: FixedBits::none(),
            cuts: FixedBits::none(),
        }
    }

    /// Whether a configuration is so.
    pub(crate) fn has(&self, config: &Config) -> bool
        ensures { result ≡ is_like self.now config.now }
    {
        self.lines.agrees(config_word(config, 0))
            && self.ephemerals.agrees(config_word(config, 1))
            && self.cuts.agrees(config_word(config, 2))
    }

    /// A field of the word with a number has to be another number, if each of its bits may be anything yet; else nothing changes.
    pub(crate) fn fix(&mut self, word: u8, at: u32, bits: u32, number: u64) -> bool
        requires within { at + bits ≤ 64 }
        requires place { at < 64 }
        requires size { bits < 64 }
        requires small { number < 2 ^ bits }
        ensures fixed { OnTrue result ((w : Words) → is_like self.new w ≡ (is_like self.old w && field_of (word_at w word) at bits == number)) }
        ensures kept { OnFalse result (self.new ≡ self.old) }
    {
        match word {
            0 => self.lines.fix(at, bits, number),
            1 => self.ephemerals.fix(at, bits, number),
            _ => self.cuts.fix(at, bits, number),
        }
    }
}
