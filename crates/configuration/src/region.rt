//! The configurations of a state that have their values in some sets, asked word by word.
use crate::config::Config;
use crate::fields::field;
use crate::three_words::ThreeWords;
use crate::value_set::{ValueSet, are_in};
use std::alloc::{AllocError, Global};
use std::marker::Model;

/// The configurations of a state that have their values in some sets.
#[derive(Drop)]
pub struct Region {
    /// What the words have to be.
    base: ThreeWords,
    /// In these bits.
    mask: ThreeWords,
    /// The sets that the bits don't tell.
    wide: Vec<ValueSet>,
}

impl Model for Region {
    ghost use Rattle.configuration.specs.Regions as regions;

    ghost Value = { regions.Region };

    ghost view = { λ r. record { base = r.base; mask = r.mask; wide = r.wide.items } };
}

impl Region {
    ghost use Rattle.std.specs.Prelude.{◌≡◌, ◌↔◌, ◌+◌, ◌^◌, ◌<◌, ◌≤◌, ◌==◌, ◌&&◌, ℕ, IsTrue, OnOk, IfErr, []};
    ghost use Rattle.configuration.specs.Fields.{field_of, IsPut};
    ghost use Rattle.configuration.specs.Packed.{Words, IsPacked};
    ghost use Rattle.configuration.specs.Config.{configuration_of};
    ghost use Rattle.configuration.specs.Regions.{is_in, is_within, word_at};

    /// All of a state.
    pub fn of_state(alloc: Global, state: u8) -> Region
        ensures { (w : Words) → IsPacked w → IsTrue (is_within result w) ↔ ((configuration_of w).state ≡ state) }
    {
        let mut region = Region {
            base: ThreeWords::none(),
            mask: ThreeWords::none(),
            wide: Vec::new(alloc),
        };
        region.fix(0, 0, 6, u64::from(state) % 64);
        region.fix(0, 60, 2, u64::from(state) / 64);
        region
    }

    /// Leaves those that have this number in a field.
    fn fix(&mut self, word: u8, at: u32, bits: u32, number: u64)
        requires within { at + bits ≤ 64 }
        requires place { at < 64 }
        requires size { bits < 64 }
        requires small { number < 2 ^ bits }
        requires free { field_of (word_at self.old.mask word) at bits ≡ 0 }
        ensures within { (w : Words) → is_within self.new w ≡ (is_within self.old w && field_of (word_at w word) at bits == number) }
        ensures mask { (i n : ℕ) → at + bits ≤ i → field_of (word_at self.new.mask word) i n ≡ field_of (word_at self.old.mask word) i n }
    {
        self.base.put(word, at, bits, number);
        self.mask.put(word, at, bits, (1 << bits) - 1);
    }

    /// Leaves those that have a value in the set. The only error is running out of memory; the region is as before then.
    pub fn narrow(&mut self, set: ValueSet) -> Result<(), AllocError>
        ensures within { OnOk result ((w : Words) → is_within self.new w ≡ (is_within self.old w && is_in set w)) }
        ensures kept { IfErr result (λ e. self.new ≡ self.old) }
    {
        if set.is_every() {
            return Ok(());
        }
        if let Some(number) = set.number() {
            if field(self.mask.word(set.word()), set.place(), set.size()) == 0 {
                self.fix(set.word(), set.place(), set.size(), number);
                return Ok(());
            }
        }
        self.wide.push(set)?;
        Ok(())
    }

    /// Whether it has a configuration.
    pub fn has(&self, config: &Config) -> bool
        ensures value { result ≡ is_within self.now config.now }
        ensures packed { IsPacked config.now }
    {
        self.base.is_like(&self.mask, config) && are_in(self.wide.as_slice(), config)
    }
}
