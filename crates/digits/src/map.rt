//! A digit map.
ghost use Rattle.std.specs.Prelude.{◌≡◌, [], IfOk, IfErr, IsTrue, map, length, nat_le};
ghost use Rattle.std.specs.List.{list_all};
ghost use Rattle.mg_model.specs.Memory.{Answers};
ghost use Rattle.digits.specs.Faults.{is_memory};
ghost use Rattle.digits.specs.Grammar.{IsMap};
ghost use Rattle.digits.specs.Reading.{fits, map_of, unwrapped};
ghost use Rattle.digits.specs.Refusals.{IsRefused};

use crate::fault::MapFault;
use crate::reading;
use mg_model::positions::Position;
use std::alloc::{AllocError, Global};
use std::marker::Model;

/// The most alternatives of a map, and the most positions of an alternative. This profile's own limit.
pub const LIMIT: usize = 16;

/// A digit map (ITU-T H.248.1 v1 / RFC 3525, 7.1.14): its alternatives, of which each is a list of positions.
#[derive(Drop)]
pub struct DigitMap {
    alternatives: Vec<Vec<Position>>,
}

impl Model for DigitMap {
    ghost use Rattle.std.specs.Prelude.{IsTrue, List, map};
    ghost use Rattle.mg_model.specs.declared.positions.Position.{Position};
    ghost use Rattle.mg_model.specs.Memory.{Answers};
    ghost use Rattle.digits.specs.Faults.{is_memory};
    ghost use Rattle.digits.specs.Reading.{fits};

    ghost Value = { List (List Position) };

    ghost view = { λ m. map (λ alternative. alternative.items) m.alternatives.items };

    ghost invariant = { λ m. IsTrue (fits (map (λ alternative. alternative.items) m.alternatives.items)) };
}

impl DigitMap {
    /// Reads a map. What is read is of the grammar and within the limits; a text of the grammar is refused only as `TooLong`,
    /// and any other text only by another fault: of `Empty`, `BadSymbol` and `BadRange` the first from the left.
    /// `NoMemory` may come in place of any answer.
    pub fn parse(alloc: Global, text: &str) -> Result<DigitMap, MapFault>
        ensures first_fault { Answers is_memory (λ m. m) result (map_of text.now) }
        ensures in_grammar { IfOk result (λ m. IsMap text.now m × IsTrue (fits m)) }
        ensures refused { IfErr result (IsRefused text.now) }
    {
        parsed(alloc, text)
    }

    /// The map without alternatives, which no digits match. It takes no memory.
    pub fn empty(alloc: Global) -> DigitMap
        ensures { result ≡ [] }
    {
        DigitMap {
            alternatives: Vec::new(alloc),
        }
    }

    /// An equal map.
    pub fn copy(&self, alloc: Global) -> Result<DigitMap, AllocError>
        ensures { IfOk result (λ copied. copied ≡ self.now) }
    {
        let alternatives = copied(alloc, self.alternatives())?;
        Ok(DigitMap { alternatives })
    }

    /// The alternatives, each a list of positions: 16 at most, with 16 positions at most.
    pub fn alternatives(&self) -> &[Vec<Position>]
        ensures value { map (λ a. a.items) result.now ≡ self.now }
        ensures short { IsTrue (fits self.now) }
    {
        self.alternatives.as_slice()
    }
}

impl PartialEq for DigitMap {
    ghost use Rattle.std.specs.Prelude.{◌≡◌};
    ghost use Rattle.std.specs.Bool.{Decides};
    ghost use Rattle.std.specs.Cmp.{on_per, partial_equiv_from_equiv, bool_eq_equiv};
    ghost use Rattle.std.specs.Cmp.Lexicographic.{lists_per};
    ghost use Rattle.mg_model.specs.declared.positions.Position.{Position};
    ghost use Rattle.digits.specs.Equality.{same_alternatives};

    ghost eq = { same_alternatives };

    ghost laws = { lists_per (lists_per (on_per (λ (p : Position). p.accepts) (lists_per (partial_equiv_from_equiv bool_eq_equiv)))) };

    /// Whether both have the same positions in the same alternatives.
    fn eq(&self, other: &DigitMap) -> bool
        ensures value { result ≡ same_alternatives self.now other.now }
        ensures same { Decides result (self.now ≡ other.now) }
    {
        self.alternatives() == other.alternatives()
    }
}

impl Eq for DigitMap {
    ghost use Rattle.std.specs.Cmp.{on_equiv, bool_eq_equiv};
    ghost use Rattle.std.specs.Cmp.Lexicographic.{lists_equiv};
    ghost use Rattle.mg_model.specs.declared.positions.Position.{Position};

    ghost laws = { lists_equiv (lists_equiv (on_equiv (λ (p : Position). p.accepts) (lists_equiv bool_eq_equiv))) };
}

/// The map that a text is read as.
#[tactic(auto, unfolding(crate::specs::Reading::map_of))]
fn parsed(alloc: Global, text: &str) -> Result<DigitMap, MapFault>
    ensures { Answers is_memory (λ m. m) result (map_of text.now) }
{
    let alternatives = read(alloc, text.as_bytes())?;
    if !is_short(alternatives.as_slice()) {
        return Err(MapFault::TooLong);
    }
    Ok(DigitMap { alternatives })
}

/// The alternatives, with or without parentheses round the whole text.
fn read(alloc: Global, text: &[u8]) -> Result<Vec<Vec<Position>>, MapFault>
    ensures { Answers is_memory (λ v. map (λ a. a.items) v.items) result (unwrapped text.now) }
{
    match text {
        [b'(', inside @ .., b')'] => reading::alternatives(alloc, inside, 1),
        _ => reading::alternatives(alloc, text, 0),
    }
}

/// The same positions again.
fn copied_positions(alloc: Global, positions: &[Position]) -> Result<Vec<Position>, AllocError>
    ensures { IfOk result (λ v. v.items ≡ positions.now) }
{
    let mut found = Vec::new(alloc);
    found.extend_from_slice(positions)?;
    Ok(found)
}

/// The same alternatives again.
fn copied(alloc: Global, alternatives: &[Vec<Position>]) -> Result<Vec<Vec<Position>>, AllocError>
    ensures { IfOk result (λ v. map (λ a. a.items) v.items ≡ map (λ a. a.items) alternatives.now) }
{
    let mut found = Vec::new(alloc);
    for alternative in alternatives {
        let positions = copied_positions(alloc, alternative.as_slice())?;
        found.push(positions)?;
    }
    Ok(found)
}

/// Whether each alternative is within the limit.
fn are_short(alternatives: &[Vec<Position>]) -> bool
    ensures { result ≡ list_all (λ a. nat_le (length a.items) 16) alternatives.now }
{
    alternatives
        .iter()
        .all(|alternative| alternative.len() <= LIMIT)
}

/// Whether a map is within the limits.
fn is_short(alternatives: &[Vec<Position>]) -> bool
    ensures { result ≡ fits (map (λ a. a.items) alternatives.now) }
{
    alternatives.len() <= LIMIT && are_short(alternatives)
}
