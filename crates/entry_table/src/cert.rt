//! Certificates.
ghost use Rattle.std.specs.Prelude.{◌≡◌, ◌<◌, ◌↔◌, ◌∷◌, ◌++◌, [], ℕ, false, IsTrue, IfOk, IfSome, IfNone, List, OnOk, Some, Contains, length, map};
ghost use Rattle.std.specs.List.{slice_get, slice_index_or};
ghost use Rattle.mg_model.specs.Configuration.{IsWellFormed};
ghost use Rattle.mg_model.specs.Entries.{IsCovered};
ghost use Rattle.configuration.specs.Config.{configuration_of};
ghost use Rattle.configuration.specs.Packed.{Words, IsPacked};
ghost use Rattle.entry_table.specs.Index.{IsIndex, places_of};
ghost use Rattle.entry_table.specs.Places.{PlaceIncludes};
ghost use Rattle.entry_table.specs.Sieved.{AreSieved};
ghost use Rattle.entry_table.specs.Listed.{Listed};
ghost use Rattle.entry_table.specs.WithAll.{AllowsEach, IsFirstWithAll, PlaceAllowsEach};

use crate::entry::Entry;
use crate::sieved::all_sieves;
use crate::sieves::Sieves;
use configuration::config::Config;
use configuration::value_set::config_word;
use std::alloc::{AllocError, Global};
use std::marker::Model;

/// How many entries of a state are sooner asked in turn than all at once.
const FEW: usize = 8;

/// A certificate: its entries in their order, and where those of each state stand among them. This profile's own.
#[derive(Drop)]
pub struct Cert {
    entries: Vec<Entry>,
    /// For each state the places of its entries.
    places: Vec<Vec<usize>>,
    /// For each state the sieves of its entries, in the order of the places.
    sieves: Vec<Sieves>,
}

impl Model for Cert {
    ghost use Rattle.std.specs.Prelude.{List, map};
    ghost use Rattle.entry_table.specs.Listed.{Listed};
    ghost use Rattle.entry_table.specs.Index.{IsIndex};
    ghost use Rattle.entry_table.specs.Sieved.{IsSieved};

    ghost Value = { List Listed };

    ghost view = { λ c. c.entries.items };

    ghost invariant = { λ c. IsIndex (map (λ v. v.items) c.places.items) c.entries.items × IsSieved c.sieves.items c.entries.items };
}

impl Cert {
    /// The certificate with some entries. The only error is running out of memory.
    pub fn new(alloc: Global, entries: Vec<Entry>) -> Result<Cert, AllocError>
        ensures { IfOk result (λ cert. cert ≡ entries.items) }
    {
        let places = all_places(alloc, entries.as_slice())?;
        let sieves = all_sieves(alloc, entries.as_slice(), places.as_slice())?;
        Ok(Cert {
            entries,
            places,
            sieves,
        })
    }

    /// The entries, in their order.
    pub fn entries(&self) -> &[Entry]
        ensures { result.now ≡ self.now }
    {
        self.entries.as_slice()
    }

    /// The places of a state's entries among all, in their order. They are kept, and not sought.
    pub fn of_state(&self, state: u8) -> &[usize]
        ensures { result.now ≡ places_of state self.now }
    {
        let places = &self.places[state as usize];
        places.as_slice()
    }

    /// The place of the first entry that has a configuration that is well formed; nothing where none has it. The entries of its
    /// state are asked in turn where they are few, and else all at once. This profile's own.
    pub fn place_of(&self, config: &Config) -> Option<usize>
        requires formed { IsWellFormed (configuration_of config.now) }
        ensures has { IfSome result (PlaceIncludes self.now (configuration_of config.now)) }
        ensures first { IfSome result (λ place. (other : ℕ) → other < place
            → PlaceIncludes self.now (configuration_of config.now) other → ⊥) }
        ensures none { IfNone result (IsCovered self.now (configuration_of config.now) → ⊥) }
    {
        let state = config.state();
        if self.of_state(state).len() <= FEW {
            return self.first_in_turn(state, config);
        }
        match self.sieves_of(state).first_left(config) {
            Some(number) => Some(self.place_at(state, number)),
            None => None,
        }
    }

    /// Whether the entry at a place has a configuration that is well formed; none has it past the last place. This profile's own.
    pub fn has_at(&self, place: usize, config: &Config) -> bool
        requires formed { IsWellFormed (configuration_of config.now) }
        ensures { IsTrue result ↔ PlaceIncludes self.now (configuration_of config.now) place }
    {
        match self.entries().get(place) {
            Some(entry) => entry.contains_formed(config),
            None => false,
        }
    }

    /// The first entry of a state that allows each of some configurations, well formed or not; nothing where none does, as where one
    /// of them is of another state. This profile's own.
    pub fn entry_with_all(&self, state: u8, configs: &[Config]) -> Option<&Entry>
        ensures has { IfSome result (λ entry. Contains self.now entry.now) }
        ensures allows { IfSome result (λ entry. AllowsEach configs.now entry.now) }
        ensures first { IfSome result (λ entry. IsFirstWithAll self.now state configs.now entry.now) }
        ensures none { IfNone result ((entry : Listed) → Contains self.now entry → entry.state ≡ state → AllowsEach configs.now entry → ⊥) }
    {
        match self.place_with_all(state, configs) {
            Some(place) => Some(self.entry_at(place)),
            None => None,
        }
    }

    /// The entry at a place.
    fn entry_at(&self, place: usize) -> &Entry
        requires { place < length self.now }
        ensures { slice_get self.now place ≡ Some result.now }
    {
        &self.entries[place]
    }

    /// The place of the first entry of a state that allows each of some configurations.
    fn place_with_all(&self, state: u8, configs: &[Config]) -> Option<usize>
        ensures has { IfSome result (PlaceAllowsEach self.now state configs.now) }
        ensures first { IfSome result (λ place. (other : ℕ) → other < place → PlaceAllowsEach self.now state configs.now other → ⊥) }
        ensures none { IfNone result ((place : ℕ) → PlaceAllowsEach self.now state configs.now place → ⊥) }
    {
        if self.of_state(state).len() <= FEW {
            return self.first_with_all_in_turn(state, configs);
        }
        if !are_of_state(configs, state) {
            return None;
        }
        match self.sieves_of(state).first_left_of_all(configs) {
            Some(number) => Some(self.place_at(state, number)),
            None => None,
        }
    }

    /// The place of the first entry of a state that allows each of some configurations; each entry is asked.
    fn first_with_all_in_turn(&self, state: u8, configs: &[Config]) -> Option<usize>
        ensures has { IfSome result (PlaceAllowsEach self.now state configs.now) }
        ensures first { IfSome result (λ place. (other : ℕ) → other < place → PlaceAllowsEach self.now state configs.now other → ⊥) }
        ensures none { IfNone result ((place : ℕ) → PlaceAllowsEach self.now state configs.now place → ⊥) }
    {
        for place in self.of_state(state) {
            if self.allows_each_at(*place, state, configs) {
                return Some(*place);
            }
        }
        None
    }

    /// Whether the entry at a place is one of a state and allows each of some configurations; none does past the last place.
    fn allows_each_at(&self, place: usize, state: u8, configs: &[Config]) -> bool
        ensures { IsTrue result ↔ PlaceAllowsEach self.now state configs.now place }
    {
        match self.entries().get(place) {
            Some(entry) if entry.state() == state => entry.allows_each(configs),
            Some(_) => false,
            None => false,
        }
    }

    /// The place of the first entry of a configuration's state that has it; each is asked.
    fn first_in_turn(&self, state: u8, config: &Config) -> Option<usize>
        requires formed { IsWellFormed (configuration_of config.now) }
        requires state { state ≡ (configuration_of config.now).state }
        ensures has { IfSome result (PlaceIncludes self.now (configuration_of config.now)) }
        ensures first { IfSome result (λ place. (other : ℕ) → other < place
            → PlaceIncludes self.now (configuration_of config.now) other → ⊥) }
        ensures none { IfNone result (IsCovered self.now (configuration_of config.now) → ⊥) }
    {
        for place in self.of_state(state) {
            if self.has_at(*place, config) {
                return Some(*place);
            }
        }
        None
    }

    /// The sieves of a state's entries.
    fn sieves_of(&self, state: u8) -> &Sieves
        ensures { AreSieved self.now (places_of state self.now) result.now }
    {
        &self.sieves[state as usize]
    }

    /// The place with a number among those of a state's entries.
    fn place_at(&self, state: u8, number: usize) -> usize
        requires { number < length (places_of state self.now) }
        ensures { slice_get (places_of state self.now) number ≡ Some result }
    {
        let places = &self.places[state as usize];
        places[number]
    }
}

/// Whether some configurations are of a state.
fn are_of_state(configs: &[Config], state: u8) -> bool
    ensures state { IsTrue result → (c : Words) → Contains configs.now c → (configuration_of c).state ≡ state }
    ensures packed { IsTrue result → (c : Words) → Contains configs.now c → IsPacked c }
    ensures others { result ≡ false → ((c : Words) → Contains configs.now c → (configuration_of c).state ≡ state) → ⊥ }
{
    for config in configs {
        if !is_of_state(config, state) {
            return false;
        }
    }
    true
}

/// Whether a configuration is of a state.
fn is_of_state(config: &Config, state: u8) -> bool
    ensures state { IsTrue result ↔ ((configuration_of config.now).state ≡ state) }
    ensures packed { IsPacked config.now }
{
    // The state is no word of its own; one tells that all are packed.
    let _lines = config_word(config, 0);
    config.state() == state
}

/// No places yet, for each state.
fn no_places(alloc: Global) -> Result<Vec<Vec<usize>>, AllocError>
    ensures count { IfOk result (λ v. length (map (λ places. places.items) v.items) ≡ 256) }
    ensures none { IfOk result (λ v. (state : ℕ) (none : List ℕ) → state < 256
        → slice_index_or (map (λ places. places.items) v.items) state none ≡ []) }
{
    let mut found = Vec::new(alloc);
    for _state in 0..256u16 {
        found.push(Vec::new(alloc))?;
    }
    Ok(found)
}

/// Adds a place to those of a state. The only error is running out of memory.
fn add_place(places: &mut Vec<Vec<usize>>, state: u8, place: usize) -> Result<(), AllocError>
    requires { length (map (λ list. list.items) places.old.items) ≡ 256 }
    ensures count { length (map (λ list. list.items) places.new.items) ≡ 256 }
    ensures here { OnOk result ((none : List ℕ) → slice_index_or (map (λ list. list.items) places.new.items) state none
        ≡ slice_index_or (map (λ list. list.items) places.old.items) state none ++ place ∷ []) }
    ensures others { (other : ℕ) (none : List ℕ) → (other ≡ state → ⊥)
        → slice_index_or (map (λ list. list.items) places.new.items) other none ≡ slice_index_or (map (λ list. list.items) places.old.items) other none }
{
    let list = &mut places[state as usize];
    list.push(place)?;
    Ok(())
}

/// The places of the entries of each state, found in one walk over the entries.
fn all_places(alloc: Global, entries: &[Entry]) -> Result<Vec<Vec<usize>>, AllocError>
    ensures { IfOk result (λ v. IsIndex (map (λ places. places.items) v.items) entries.now) }
{
    let mut found = no_places(alloc)?;
    for (place, entry) in entries.iter().enumerate() {
        add_place(&mut found, entry.state(), place)?;
    }
    Ok(found)
}
