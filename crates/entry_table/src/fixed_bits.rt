//! What some bits of one word have to be.
ghost use Rattle.std.specs.Prelude.{◌≡◌, ◌+◌, ◌^◌, ◌≤◌, ◌<◌, ◌==◌, ◌&&◌, ℕ};
ghost use Rattle.std.specs.Bool.{OnTrue, OnFalse};
ghost use Rattle.configuration.specs.Fields.{field_of};
ghost use Rattle.configuration.specs.Regions.{agrees};

use configuration::fields::{field, put};

/// What some bits of one word have to be.
#[derive(Clone, Copy)]
pub(crate) struct FixedBits {
    /// What the word has to be.
    pub(crate) base: u64,
    /// In these bits.
    pub(crate) mask: u64,
}

impl FixedBits {
    /// No bit has to be anything.
    pub(crate) fn none() -> FixedBits
        ensures base { result.base ≡ 0 }
        ensures mask { result.mask ≡ 0 }
    {
        FixedBits { base: 0, mask: 0 }
    }

    /// Whether a word is so.
    pub(crate) fn agrees(&self, word: u64) -> bool
        ensures { result ≡ agrees word self.now.base self.now.mask }
    {
        (word ^ self.base) & self.mask == 0
    }

    /// A field has to be a number, if each of its bits may be anything yet; else nothing changes.
    pub(crate) fn fix(&mut self, at: u32, bits: u32, number: u64) -> bool
        requires within { at + bits ≤ 64 }
        requires place { at < 64 }
        requires size { bits < 64 }
        requires small { number < 2 ^ bits }
        ensures fixed { OnTrue result ((word : ℕ)
            → agrees word self.new.base self.new.mask ≡ (agrees word self.old.base self.old.mask && field_of word at bits == number)) }
        ensures kept { OnFalse result (self.new ≡ self.old) }
    {
        if field(self.mask, at, bits) != 0 {
            return false;
        }
        self.base = put(self.base, at, bits, number);
        self.mask = put(self.mask, at, bits, (1 << bits) - 1);
        true
    }
}
