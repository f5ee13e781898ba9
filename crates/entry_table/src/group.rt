//! A group of up to 64 members: what each of them wants of single bits, and the sieves of the other fields that one of them narrows.
ghost use Rattle.std.specs.Prelude.{◌≡◌, ◌<◌, ◌&&◌, ℕ, true, OnOk};
ghost use Rattle.configuration.specs.Bits.{has};
ghost use Rattle.configuration.specs.Packed.{Words};
ghost use Rattle.entry_table.specs.Sieves.{is_like, passes, passes_sieves};

use crate::likeness::Likeness;
use crate::sieve::Sieve;
use configuration::config::Config;
use configuration::value_set::{ValueSet, words_of};
use std::alloc::{AllocError, Global};
use std::marker::Model;

/// What up to 64 members want of a configuration.
#[derive(Drop)]
pub(crate) struct Group {
    /// What each of them wants of single bits.
    alike: Likeness,
    sieves: Vec<Sieve>,
    /// Where the sieve of the set that comes next is sought first: members mostly bring their sets in one order.
    next: usize,
}

impl Model for Group {
    ghost use Rattle.entry_table.specs.Sieves as specs;

    ghost Value = { specs.Group };

    ghost view = { λ g. record { alike = g.alike; sieves = g.sieves.items } };
}

/// Wants of single bits what some members want by a sieve, or else keeps the sieve.
fn settle_or_keep(
    sieve: &Sieve,
    members: u64,
    alike: &mut Likeness,
    kept: &mut Vec<Sieve>,
) -> Result<(), AllocError>
    ensures { OnOk result ((member : ℕ) (w : Words) → member < 64 → has members member ≡ true
        → (is_like alike.new w && passes_sieves kept.new.items member w)
        ≡ ((is_like alike.old w && passes_sieves kept.old.items member w) && passes sieve.now member w)) }
{
    if sieve.settle(members, alike) {
        return Ok(());
    }
    kept.push(sieve.whole())?;
    Ok(())
}

impl Group {
    ghost use Rattle.std.specs.Prelude.{◌≡◌, ◌<◌, ◌==◌, ◌&&◌, ◌||◌, ℕ, true, not, IfOk, OnOk, OnErr, IfSome, length, slice_index_or};
    ghost use Rattle.std.specs.List.{list_all};
    ghost use Rattle.configuration.specs.Bits.{has};
    ghost use Rattle.configuration.specs.Packed.{Words};
    ghost use Rattle.configuration.specs.Regions.{is_in};
    ghost use Rattle.entry_table.specs.Sieves.{Sieve as FieldSieve, IsOfField, bare, passes_all, passes_sieves};

    /// A group of which nothing is narrowed.
    pub(crate) fn new(alloc: Global) -> Group
        ensures { result ≡ bare }
    {
        Group {
            alike: Likeness::none(),
            sieves: Vec::new(alloc),
            next: 0,
        }
    }

    /// Where the sieve of a set's field stands.
    fn place_of(&self, set: &ValueSet) -> Option<usize>
        ensures { IfSome result (λ place. (place < length self.now.sieves)
            × ((none : FieldSieve) → IsOfField (slice_index_or self.now.sieves place none) set.now)) }
    {
        if let Some(sieve) = self.sieves.get(self.next) {
            if sieve.is_of_field(set) {
                return Some(self.next);
            }
        }
        for (place, sieve) in self.sieves.iter().enumerate() {
            if sieve.is_of_field(set) {
                return Some(place);
            }
        }
        None
    }

    /// Where the sieve of a set's field stands; it is made where there is none.
    fn place_for(&mut self, set: &ValueSet) -> Result<usize, AllocError>
        ensures place { IfOk result (λ place. (place < length self.new.sieves)
            × ((none : FieldSieve) → IsOfField (slice_index_or self.new.sieves place none) set.now)) }
        ensures same { (member : ℕ) (w : Words) → member < 64 → passes_all self.new member w ≡ passes_all self.old member w }
        ensures kept { OnErr result (self.new ≡ self.old) }
    {
        if let Some(place) = self.place_of(set) {
            return Ok(place);
        }
        let place = self.sieves.len();
        self.sieves.push(Sieve::of_field(set))?;
        Ok(place)
    }

    /// Narrows a member by a set. The only error is running out of memory; the group is as before then.
    pub(crate) fn narrow(&mut self, member: u32, set: &ValueSet) -> Result<(), AllocError>
        requires { member < 64 }
        ensures within { OnOk result ((other : ℕ) (w : Words) → other < 64
            → passes_all self.new other w ≡ (passes_all self.old other w && (not (other == member) || is_in set.now w))) }
        ensures kept { OnErr result (self.new ≡ self.old) }
    {
        if set.is_every() {
            return Ok(());
        }
        let place = self.place_for(set)?;
        self.next = place.wrapping_add(1);
        let sieve = &mut self.sieves[place];
        sieve.narrow(member, set);
        Ok(())
    }

    /// Those of some members that pass all sieves with a configuration.
    fn left_by_sieves(&self, members: u64, config: &Config) -> u64
        ensures { (member : ℕ) → member < 64 → has result member ≡ (has members member && passes_sieves self.now.sieves member config.now) }
    {
        let words = words_of(config);
        let mut left = members;
        for sieve in &self.sieves {
            left &= sieve.row(&words);
            if left == 0 {
                return 0;
            }
        }
        left
    }

    /// Those of some members of whose sets each has a configuration.
    fn left_of(&self, members: u64, config: &Config) -> u64
        ensures { (member : ℕ) → member < 64 → has result member ≡ (has members member && passes_all self.now member config.now) }
    {
        if !self.alike.has(config) {
            return 0;
        }
        self.left_by_sieves(members, config)
    }

    /// Those of some members of whose sets each has each of some configurations.
    pub(crate) fn left_of_each(&self, members: u64, configs: &[Config]) -> u64
        ensures { (member : ℕ) → member < 64 → has result member ≡ (has members member && list_all (passes_all self.now member) configs.now) }
    {
        let mut left = members;
        for config in configs {
            left = self.left_of(left, config);
            if left == 0 {
                return 0;
            }
        }
        left
    }

    /// Wants of single bits what each of some members wants there. For these all stays as it was; the others aren't asked any more.
    /// The only error is running out of memory; the group is as before then.
    pub(crate) fn settle(&mut self, alloc: Global, members: u64) -> Result<(), AllocError>
        ensures same { (member : ℕ) (w : Words) → member < 64 → has members member ≡ true
            → passes_all self.new member w ≡ passes_all self.old member w }
    {
        let mut alike = self.alike;
        let mut kept = Vec::new(alloc);
        for sieve in &self.sieves {
            settle_or_keep(sieve, members, &mut alike, &mut kept)?;
        }
        self.alike = alike;
        self.sieves = kept;
        self.next = 0;
        Ok(())
    }
}
