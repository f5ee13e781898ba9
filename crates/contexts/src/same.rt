//! Whether two terminations are one.
ghost use Rattle.std.specs.Prelude.{◌≡◌};
ghost use Rattle.mg_model.specs.Board.{same_term};

use mg_names::identifiers::TermId;

/// Whether two terminations are one.
pub fn is_same(one: &TermId, other: &TermId) -> bool
    ensures { result ≡ same_term one.now other.now }
{
    match (one, other) {
        (TermId::Line(i), TermId::Line(j)) => i.0 == j.0,
        (TermId::Eph(i), TermId::Eph(j)) => *i == *j,
        _ => false,
    }
}
