//! The laws of links and inboxes. Each function is empty: its contract is a law, which a crate above has by calling it.
ghost use Rattle.delivery.specs.Laws.{FreshExactlyAbove, FreshAtMostOnce, NewExactlyOnce, SeenOnceAccepted};

/// A request is new exactly where its number is above that of the last one that was executed, in the association of the link.
pub fn fresh_exactly_above<R: Drop>()
    ensures { FreshExactlyAbove R }
{}

/// Once a request was executed, neither its number nor a lower one is new again in the association, whatever requests are
/// executed later (H.248.1 Annex D.1.1; that lower numbers are never new again is this profile's own).
pub fn fresh_at_most_once<R: Drop>()
    ensures { FreshAtMostOnce R }
{}

/// In the association of an inbox a note is new exactly where none of its number arrived before, and else it was seen.
pub fn new_exactly_once()
    ensures { NewExactlyOnce }
{}

/// A note that was accepted is seen where it arrives again.
pub fn seen_once_accepted()
    ensures { SeenOnceAccepted }
{}
