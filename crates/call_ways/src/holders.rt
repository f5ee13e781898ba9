//! Entries whose points others have.
ghost use Rattle.std.specs.Prelude.{◌≡◌, ◌<◌, ◌↔◌, ℕ, IsTrue, IfSome, IfNone, List, Some, slice_get};
ghost use Rattle.mg_model.specs.Entries.{Entry as Listed};
ghost use Rattle.call_ways.specs.Points.{IsPointIn};
ghost use Rattle.call_ways.specs.Warnings.{AllPointsIn, IsHeldBy};

use entry_table::{Cert, Entry};

/// Whether an entry has no point with a number, or another one has that point.
fn has_point_of(other: &Entry, entry: &Entry, number: u32) -> bool
    ensures { IsTrue result ↔ IsPointIn entry.now other.now number }
{
    match entry.point(number) {
        Some(config) => other.contains_formed(&config),
        None => true,
    }
}

/// Whether each point of an entry is in another one.
fn has_points_of(other: &Entry, entry: &Entry) -> bool
    ensures { IsTrue result ↔ AllPointsIn entry.now other.now }
{
    for number in 0..entry.size() {
        if !has_point_of(other, entry, number) {
            return false;
        }
    }
    true
}

/// Whether each point of an entry is in another one of its state, which isn't behind it where it has no other points.
fn holds(entry: &Entry, place: usize, other: &Entry, other_place: usize) -> bool
    ensures { (entries : List Listed) → slice_get entries place ≡ Some entry.now → slice_get entries other_place ≡ Some other.now
        → IsTrue result ↔ IsHeldBy entries place other_place }
{
    if place == other_place {
        return false;
    }
    if entry.state() != other.state() {
        return false;
    }
    if !has_points_of(other, entry) {
        return false;
    }
    if other_place < place {
        return true;
    }
    !has_points_of(entry, other)
}

/// Whether the entry at a place is one of a state whose points the one of it at another place has.
fn is_held_by(cert: &Cert, place: usize, other_place: usize) -> bool
    ensures { IsTrue result ↔ IsHeldBy cert.now place other_place }
{
    let Some(entry) = cert.entries().get(place) else {
        return false;
    };
    match cert.entries().get(other_place) {
        Some(other) => holds(entry, place, other, other_place),
        None => false,
    }
}

/// The place of the first entry of its state that has each point of the one at a place; nothing where none has. Of two that have each other's points the
/// earlier one counts.
pub fn find_holder(cert: &Cert, place: usize) -> Option<usize>
    ensures some { IfSome result (IsHeldBy cert.now place) }
    ensures first { IfSome result (λ other. (before : ℕ) → before < other → IsHeldBy cert.now place before → ⊥) }
    ensures none { IfNone result ((other : ℕ) → IsHeldBy cert.now place other → ⊥) }
{
    for other in 0..cert.entries().len() {
        if is_held_by(cert, place, other) {
            return Some(other);
        }
    }
    None
}
