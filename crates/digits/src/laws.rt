//! The law of the grammar. The function is empty: its contract is the law, which a crate above has by calling it.
ghost use Rattle.digits.specs.Laws.{IsUnambiguous};

/// A text writes at most one list of alternatives.
pub fn one_meaning()
    ensures { IsUnambiguous }
{}
