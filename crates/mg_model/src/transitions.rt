use mg_names::kinds::Kind;
use mg_names::slots::Slot;
use mg_names::strictness::Strict;

/// An item of an events list; `M` is how a digit map is named: by its place in a script, or by the map itself.
#[derive(Clone, Copy, Drop)]
pub enum EventItem<M> {
    /// `al/on`.
    OnHook(Strict),
    /// `al/of`.
    OffHook(Strict),
    /// `al/fl`.
    Flash,
    /// `dd/ce` with its digit map.
    Digits(M),
}

/// A transition of a state: where a note of this line and kind leads.
#[derive(Clone, Copy)]
pub struct Transition {
    /// The line.
    pub line: Slot,
    /// What the note reports.
    pub kind: Kind,
    /// The state that is entered, by its place from 0.
    pub target: u8,
}

/// Two lines that a state marks as talking; the order has no meaning.
#[derive(Clone, Copy)]
pub struct Pair {
    /// One line.
    pub first: Slot,
    /// The other line.
    pub second: Slot,
}
