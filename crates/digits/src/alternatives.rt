//! The alternatives of a map at the symbols so far: which remain, which is the only one, which is matched first.
ghost use Rattle.std.specs.Prelude.{◌≡◌, ◌<◌, ◌≤◌, ◌++◌, ◌∷◌, [], IfSome, List, length, position, slice_index_or, false, true};
ghost use Rattle.std.specs.List.{list_any};
ghost use Rattle.mg_names.specs.declared.symbols.Symbol.{Symbol};
ghost use Rattle.mg_model.specs.DigitMaps.{place_of, only, candidates, sole_match, first_match, matches};
ghost use Rattle.mg_model.specs.Tables.{is_empty};
ghost use Rattle.digits.specs.Alternatives.{accepts_at, places_from};
ghost use Rattle.digits.specs.Progress.{ShowsRemaining};

use crate::dialled::Dialled;
use crate::map::{DigitMap, LIMIT};
use mg_model::positions::Position;
use mg_names::symbols::Symbol;

/// The place of a symbol among 0 to 9, E, F.
fn place(symbol: Symbol) -> usize
    ensures value { result ≡ place_of symbol }
    ensures small { result < 12 }
{
    match symbol {
        Symbol::Zero => 0,
        Symbol::One => 1,
        Symbol::Two => 2,
        Symbol::Three => 3,
        Symbol::Four => 4,
        Symbol::Five => 5,
        Symbol::Six => 6,
        Symbol::Seven => 7,
        Symbol::Eight => 8,
        Symbol::Nine => 9,
        Symbol::E => 10,
        Symbol::F => 11,
    }
}

/// Whether an alternative has a position at this place which accepts the symbol.
fn accepts_at(alternative: &[Position], at: usize, symbol: Symbol) -> bool
    ensures { result ≡ accepts_at alternative.now at symbol }
{
    match alternative.get(at) {
        Some(position) => position.accepts[place(symbol)],
        None => false,
    }
}

/// Whether any remains.
fn any_remains(remaining: &[bool]) -> bool
    ensures { result ≡ list_any (λ b. b) remaining.now }
{
    remaining.iter().any(|remains| *remains)
}

/// The first place that remains.
fn first(remaining: &[bool]) -> Option<usize>
    ensures { result ≡ position (λ b. b) remaining.now }
{
    remaining.iter().position(|remains| *remains)
}

/// The one place that remains, if there is one alone.
fn only(remaining: &[bool]) -> Option<usize>
    ensures value { result ≡ only (places_from 0 remaining.now) }
    ensures remains { IfSome result (λ place. (place < length remaining.now) × slice_index_or remaining.now place false ≡ true) }
{
    let Some(place) = first(remaining) else {
        return None;
    };
    if any_remains(&remaining[place + 1..]) {
        return None;
    }
    Some(place)
}

impl DigitMap {
    /// Which alternatives remain after one more symbol.
    pub(crate) fn narrowed(
        &self,
        remaining: &[bool; LIMIT],
        symbols: &Dialled,
        symbol: Symbol,
    ) -> [bool; LIMIT]
        requires { ShowsRemaining self.now symbols.now remaining.now }
        ensures { ShowsRemaining self.now (symbols.now ++ symbol ∷ []) result }
    {
        let alternatives = self.alternatives();
        let count = symbols.len();
        let mut left = [false; LIMIT];
        for index in 0..alternatives.len() {
            left[index] = remaining[index]
                && accepts_at(alternatives[index].as_slice(), count, symbol);
        }
        left
    }

    /// Whether none remains.
    pub(crate) fn none_remains(&self, remaining: &[bool; LIMIT]) -> bool
        ensures value { (symbols : List Symbol) → ShowsRemaining self.now symbols remaining.now → result ≡ is_empty (candidates self.now symbols) }
        ensures short { (symbols : List Symbol) → ShowsRemaining self.now symbols remaining.now → result ≡ false → length symbols ≤ 16 }
    {
        let count = self.alternatives().len();
        !any_remains(&remaining[..count])
    }

    /// Whether the symbols match the alternative at a place.
    fn matches_at(&self, remaining: &[bool; LIMIT], symbols: &Dialled, place: usize) -> bool
        requires shows { ShowsRemaining self.now symbols.now remaining.now }
        requires within { place < length self.now }
        ensures { result ≡ matches (slice_index_or self.now place []) symbols.now }
    {
        let alternatives = self.alternatives();
        if !remaining[place] {
            return false;
        }
        alternatives[place].len() == symbols.len()
    }

    /// The alternative that is the only one left, if the symbols match it.
    pub(crate) fn sole_match(&self, remaining: &[bool; LIMIT], symbols: &Dialled) -> Option<u8>
        requires { ShowsRemaining self.now symbols.now remaining.now }
        ensures { result ≡ sole_match self.now symbols.now }
    {
        let count = self.alternatives().len();
        let Some(place) = only(&remaining[..count]) else {
            return None;
        };
        if !self.matches_at(remaining, symbols, place) {
            return None;
        }
        Some(place as u8)
    }

    /// The first alternative that the symbols match.
    pub(crate) fn first_match(&self, remaining: &[bool; LIMIT], symbols: &Dialled) -> Option<u8>
        requires { ShowsRemaining self.now symbols.now remaining.now }
        ensures { result ≡ first_match self.now symbols.now }
    {
        for place in 0..self.alternatives().len() {
            if self.matches_at(remaining, symbols, place) {
                return Some(place as u8);
            }
        }
        None
    }
}
