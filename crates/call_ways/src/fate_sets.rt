//! Sets of fates: what becomes of each command in more ways than one.
ghost use Rattle.std.specs.Prelude.{◌≡◌, ◌≤◌, ◌||◌, ℕ, ◌∷◌, ◌++◌, [], IfOk, OnOk};
ghost use Rattle.configuration.specs.Config.{configuration_of};
ghost use Rattle.call_ways.specs.Crossed.{is_among, is_at, same_fate, values_of};
ghost use Rattle.call_ways.specs.Fates.{fates_in, has, set_at};

use crate::fates::{Fate, fates_in};
use configuration::config::Config;
use script_table::Script;
use std::alloc::{AllocError, Global};

/// What becomes of a command in one or more ways. This profile's own.
#[derive(Clone, Copy)]
pub struct FateSet {
    /// Whether it is left out in one of them.
    pub left_out: bool,
    /// Whether in one of them it isn't reached.
    pub not_reached: bool,
    /// Whether it is refused in one of them.
    pub refused: bool,
    /// Whether it is done in one of them.
    pub done: bool,
}

impl FateSet {
    /// The fates and one more.
    pub(crate) fn with(&self, it: Fate) -> FateSet
        ensures { (other : Fate) → has result other ≡ (has self.now other || same_fate other it) }
    {
        let mut more = *self;
        match it {
            Fate::LeftOut => more.left_out = true,
            Fate::NotReached => more.not_reached = true,
            Fate::Refused => more.refused = true,
            Fate::Done => more.done = true,
        }
        more
    }

    /// Whether a fate is one of them.
    pub fn has(&self, it: Fate) -> bool
        ensures { result ≡ has self.now it }
    {
        match it {
            Fate::LeftOut => self.left_out,
            Fate::NotReached => self.not_reached,
            Fate::Refused => self.refused,
            Fate::Done => self.done,
        }
    }
}

/// The set at a place; an empty one past the last.
pub(crate) fn set_at(sets: &[FateSet], place: usize) -> FateSet
    ensures { result ≡ set_at sets.now place }
{
    match sets.get(place) {
        Some(set) => *set,
        None => FateSet {
            left_out: false,
            not_reached: false,
            refused: false,
            done: false,
        },
    }
}

/// The larger one of two counts.
fn larger(one: usize, other: usize) -> usize
    ensures one { one ≤ result }
    ensures other { other ≤ result }
{
    if one < other { other } else { one }
}

/// The set at a place, with the fate that is there.
fn joined_at(sets: &[FateSet], fates: &[Fate], place: usize) -> FateSet
    ensures { (it : Fate) → has result it ≡ (has (set_at sets.now place) it || is_at fates.now place it) }
{
    let set = set_at(sets, place);
    match fates.get(place) {
        Some(it) => set.with(*it),
        None => set,
    }
}

/// Adds a set.
fn push_set(sets: &mut Vec<FateSet>, set: FateSet) -> Result<(), AllocError>
    ensures { OnOk result (sets.new.items ≡ sets.old.items ++ set ∷ []) }
{
    sets.extend_from_slice(&[set])
}

/// The sets, each with the fate at its place.
fn joined(alloc: Global, sets: &[FateSet], fates: &[Fate]) -> Result<Vec<FateSet>, AllocError>
    ensures { IfOk result (λ joined. (place : ℕ) (it : Fate) → has (set_at joined.items place) it
        ≡ (has (set_at sets.now place) it || is_at fates.now place it)) }
{
    let mut joined = Vec::new(alloc);
    let count = larger(sets.len(), fates.len());
    for place in 0..count {
        push_set(&mut joined, joined_at(sets, fates, place))?;
    }
    Ok(joined)
}

/// The sets, each with what becomes of the command at its place in a configuration.
fn with_fates_in(
    alloc: Global,
    script: &Script,
    config: &Config,
    sets: &[FateSet],
) -> Result<Vec<FateSet>, AllocError>
    ensures { IfOk result (λ more. (place : ℕ) (it : Fate) → has (set_at more.items place) it
        ≡ (has (set_at sets.now place) it || is_at (fates_in script.now (configuration_of config.now)) place it)) }
{
    let fates = fates_in(alloc, script, config)?;
    joined(alloc, sets, fates.as_slice())
}

/// What becomes of each command in some configurations. The only error is running out of memory.
pub(crate) fn fates_among(
    alloc: Global,
    script: &Script,
    configs: &[Config],
) -> Result<Vec<FateSet>, AllocError>
    ensures { IfOk result (λ sets. (place : ℕ) (it : Fate) → has (set_at sets.items place) it ≡ is_among script.now (values_of configs.now) place it) }
{
    let mut sets = Vec::new(alloc);
    for config in configs {
        let more = with_fates_in(alloc, script, config, sets.as_slice())?;
        sets = more;
    }
    Ok(sets)
}
