//! Numbered lists of value sets, asked at once.
use crate::group::Group;
use crate::rows::first_members;
use configuration::config::Config;
use configuration::value_set::{ValueSet, config_word};
use std::alloc::{AllocError, Global};
use std::marker::Model;
use std::slice;

/// Some lists of value sets, numbered from 0: which of them have a configuration is asked of 64 at once. This profile's own.
#[derive(Drop)]
pub struct Sieves {
    /// How many lists there are.
    count: usize,
    /// The sieves of each 64 of them.
    groups: Vec<Group>,
}

impl Model for Sieves {
    ghost use Rattle.std.specs.Prelude.{◌*◌, ◌+◌, ◌<◌, ◌≤◌, length};
    ghost use Rattle.entry_table.specs.Sieves as sieves;

    ghost Value = { sieves.Sieves };

    ghost view = { λ s. record { count = s.count; groups = s.groups.items } };

    ghost invariant = { λ s. (s.count ≤ 64 * length s.groups.items) × (64 * length s.groups.items < s.count + 64) };
}

impl Sieves {
    ghost use Rattle.std.specs.Prelude.{◌≡◌, ◌<◌, ◌&&◌, ℕ, nat_lt, length, false, IfOk, OnOk, OnErr, IfSome, IfNone};
    ghost use Rattle.configuration.specs.Packed.{Words, IsPacked};
    ghost use Rattle.configuration.specs.Regions.{is_in};
    ghost use Rattle.entry_table.specs.Sieves.{IsFirstLeft, IsFirstLeftForEach, is_left, is_left_for_each};

    /// So many lists with no set: each is left for every configuration. The only error is running out of memory.
    pub fn new(alloc: Global, count: usize) -> Result<Sieves, AllocError>
        ensures left { IfOk result (λ sieves. (number : ℕ) (w : Words) → is_left sieves number w ≡ nat_lt number count) }
        ensures count { IfOk result (λ sieves. sieves.count ≡ count) }
    {
        let mut groups = Vec::new(alloc);
        for _group in 0..count.div_ceil(64) {
            groups.push(Group::new(alloc))?;
        }
        Ok(Sieves { count, groups })
    }

    /// Puts a set more into the list with a number. The only error is running out of memory; all is as before then.
    pub fn narrow(&mut self, number: usize, set: &ValueSet) -> Result<(), AllocError>
        requires { number < self.old.count }
        ensures here { OnOk result ((w : Words) → is_left self.new number w ≡ (is_left self.old number w && is_in set.now w)) }
        ensures others { OnOk result ((other : ℕ) (w : Words) → (other ≡ number → ⊥)
            → is_left self.new other w ≡ is_left self.old other w) }
        ensures count { self.new.count ≡ self.old.count }
        ensures kept { OnErr result (self.new ≡ self.old) }
    {
        let group = &mut self.groups[number / 64];
        group.narrow((number % 64) as u32, set)?;
        Ok(())
    }

    /// Wants of single bits what all lists of a group want there, as it is asked faster and takes less memory. No list is left for
    /// other configurations than before. The only error is running out of memory.
    pub fn settle(&mut self, alloc: Global) -> Result<(), AllocError>
        ensures left { (number : ℕ) (w : Words) → is_left self.new number w ≡ is_left self.old number w }
        ensures count { self.new.count ≡ self.old.count }
    {
        for place in 0..self.groups.len() {
            self.settle_group(alloc, place)?;
        }
        Ok(())
    }

    /// The same in the group at a place.
    fn settle_group(&mut self, alloc: Global, place: usize) -> Result<(), AllocError>
        requires { place < length self.old.groups }
        ensures left { (number : ℕ) (w : Words) → is_left self.new number w ≡ is_left self.old number w }
        ensures count { self.new.count ≡ self.old.count }
        ensures groups { length self.new.groups ≡ length self.old.groups }
    {
        let members = first_members(self.count - 64 * place);
        let group = &mut self.groups[place];
        group.settle(alloc, members)?;
        Ok(())
    }

    /// The lowest number of a list of which each set has a configuration; nothing where there is none.
    pub fn first_left(&self, config: &Config) -> Option<usize>
        ensures first { IfSome result (IsFirstLeft self.now config.now) }
        ensures none { IfNone result ((number : ℕ) → is_left self.now number config.now ≡ false) }
        ensures packed { IsPacked config.now }
    {
        // Where there is no list no word is read; one tells that all are packed.
        let _lines = config_word(config, 0);
        self.first_left_of_all(slice::from_ref(config))
    }

    /// The lowest number of a list of which each set has each of some configurations; nothing where there is none.
    pub fn first_left_of_all(&self, configs: &[Config]) -> Option<usize>
        ensures first { IfSome result (IsFirstLeftForEach self.now configs.now) }
        ensures none { IfNone result ((number : ℕ) → is_left_for_each self.now configs.now number ≡ false) }
    {
        for (place, group) in self.groups.iter().enumerate() {
            let left = group.left_of_each(first_members(self.count - 64 * place), configs);
            if left != 0 {
                return Some(64 * place + left.trailing_zeros() as usize);
            }
        }
        None
    }
}
