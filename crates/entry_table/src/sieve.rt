//! A sieve: which members of a group allow which numbers of one field.
use crate::likeness::Likeness;
use crate::rows::{is_alone, narrow_rows, narrowed, row_of_all, rows_of_all};
use configuration::fields::field;
use configuration::value_set::ValueSet;
use std::marker::Model;

/// Which members of a group of 64 allow which numbers of one field.
#[derive(Clone, Copy)]
pub(crate) struct Sieve {
    /// The number of the field's word.
    word: u8,
    /// The field's place in it.
    at: u32,
    /// Its size.
    bits: u32,
    /// As many bits, from the low end.
    mask: u64,
    /// For each number a bit for each member that allows it.
    rows: [u64; 32],
    /// Members that were narrowed last, by sets of the same numbers. The rows hear of them all at once.
    members: u64,
    /// A bit for each of these numbers.
    allowed: u64,
}

impl Model for Sieve {
    ghost use Rattle.std.specs.Prelude.{◌≡◌, ◌+◌, ◌-◌, ◌^◌, ◌<◌, ◌≤◌};
    ghost use Rattle.entry_table.specs.Sieves as sieves;

    ghost Value = { sieves.Sieve };

    ghost view = { λ s. record { word = s.word; at = s.at; bits = s.bits; rows = s.rows; members = s.members; allowed = s.allowed } };

    ghost invariant = { λ s. (s.word < 3) × (s.at < 64) × (s.bits ≤ 5) × (s.at + s.bits ≤ 64) × (s.mask ≡ 2 ^ s.bits - 1) };

    ghost inverse = { λ s. record { word = s.word; at = s.at; bits = s.bits; mask = 2 ^ s.bits - 1; rows = s.rows; members = s.members; allowed = s.allowed } };
}

impl Sieve {
    ghost use Rattle.std.specs.Prelude.{◌≡◌, ◌↔◌, ◌^◌, ◌<◌, ◌==◌, ◌&&◌, ◌||◌, ℕ, true, not, IfSome, IsTrue};
    ghost use Rattle.std.specs.Bool.{OnTrue, OnFalse};
    ghost use Rattle.configuration.specs.Bits.{has};
    ghost use Rattle.configuration.specs.Fields.{field_of};
    ghost use Rattle.configuration.specs.Packed.{Words};
    ghost use Rattle.configuration.specs.Regions.{AreWordsOf, is_in, word_at};
    ghost use Rattle.entry_table.specs.Sieves.{IsOfField, IsSameField, is_like, passes};

    /// The sieve of a set's field that lets every member pass.
    pub(crate) fn of_field(set: &ValueSet) -> Sieve
        ensures field { IsOfField result set.now }
        ensures every { (member : ℕ) (w : Words) → member < 64 → passes result member w ≡ true }
    {
        Sieve {
            word: set.word(),
            at: set.place(),
            bits: set.size(),
            mask: (1 << set.size()) - 1,
            rows: rows_of_all(),
            members: 0,
            allowed: set.allowed(),
        }
    }

    /// Whether its field is that of a set.
    pub(crate) fn is_of_field(&self, set: &ValueSet) -> bool
        ensures { IsTrue result → IsOfField self.now set.now }
    {
        self.word == set.word() && self.at == set.place() && self.bits == set.size()
    }

    /// The members that allow the number that a configuration with these words has in the field.
    pub(crate) fn row(&self, words: &[u64; 3]) -> u64
        ensures { (member : ℕ) (w : Words) → AreWordsOf words.now w → member < 64 → has result member ≡ passes self.now member w }
    {
        let number = (words[self.word as usize] >> self.at) & self.mask;
        let row = self.rows[number as usize];
        if self.members == 0 {
            return row;
        }
        let is_allowed = field(self.allowed, number as u32, 1) != 0;
        narrowed(row, self.members, is_allowed)
    }

    /// Narrows the rows by the members that were narrowed last.
    fn flush(&mut self)
        ensures same { (member : ℕ) (w : Words) → member < 64 → passes self.new member w ≡ passes self.old member w }
        ensures none { self.new.members ≡ 0 }
        ensures field { IsSameField self.new self.old }
    {
        narrow_rows(&mut self.rows, self.bits, self.members, self.allowed);
        self.members = 0;
    }

    /// The same with rows that have heard of all members.
    pub(crate) fn whole(&self) -> Sieve
        ensures same { (member : ℕ) (w : Words) → member < 64 → passes result member w ≡ passes self.now member w }
        ensures none { result.members ≡ 0 }
        ensures field { IsSameField result self.now }
    {
        let mut whole = *self;
        whole.flush();
        whole
    }

    /// Makes way for members that allow these numbers.
    fn make_way(&mut self, allowed: u64)
        ensures same { (member : ℕ) (w : Words) → member < 64 → passes self.new member w ≡ passes self.old member w }
        ensures allowed { self.new.allowed ≡ allowed }
        ensures field { IsSameField self.new self.old }
    {
        if self.allowed == allowed {
            return;
        }
        self.flush();
        self.allowed = allowed;
    }

    /// Lets a member pass with the values of a set alone.
    pub(crate) fn narrow(&mut self, member: u32, set: &ValueSet)
        requires member { member < 64 }
        requires field { IsOfField self.old set.now }
        ensures { (other : ℕ) (w : Words) → other < 64
            → passes self.new other w ≡ (passes self.old other w && (not (other == member) || is_in set.now w)) }
    {
        self.make_way(set.allowed());
        self.members |= 1 << member;
    }

    /// The number that each of some members wants in the field, and no other; nothing where they don't want one alone.
    fn number_of(&self, members: u64) -> Option<u64>
        ensures small { IfSome result (λ number. number < 2 ^ self.now.bits) }
        ensures alone { IfSome result (λ number. (member : ℕ) (w : Words) → member < 64 → has members member ≡ true
            → passes self.now member w ≡ (field_of (word_at w self.now.word) self.now.at self.now.bits == number)) }
    {
        let whole = self.whole();
        let number = row_of_all(&whole.rows, whole.bits, members)?;
        if !is_alone(&whole.rows, whole.bits, members, number) {
            return None;
        }
        Some(number as u64)
    }

    /// Whether what some members want in the field is wanted of single bits from now on; else nothing changes.
    pub(crate) fn settle(&self, members: u64, alike: &mut Likeness) -> bool
        ensures settled { OnTrue result ((member : ℕ) (w : Words) → member < 64 → has members member ≡ true
            → is_like alike.new w ≡ (is_like alike.old w && passes self.now member w)) }
        ensures kept { OnFalse result (alike.new ≡ alike.old) }
    {
        match self.number_of(members) {
            Some(number) => alike.fix(self.word, self.at, self.bits, number),
            None => false,
        }
    }
}
