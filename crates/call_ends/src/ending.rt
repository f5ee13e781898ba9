//! Whether each call can be brought to its end.
use call_ways::way::WayStep;

/// What is known of how calls can be brought to their ends. This profile's own.
#[derive(Drop)]
pub enum Ending {
    /// Each call can, wherever it has come to, by so many moves at most.
    EachCanEnd {
        /// So many, and no fewer would do for all.
        moves: usize,
    },
    /// A call that came this way can't. No way is shorter that leads to the same configuration.
    Stuck {
        /// The way from the opening.
        way: Vec<WayStep>,
    },
    /// Calls come to a million configurations: it isn't known.
    TooMany,
}

/// What is known of how calls that are in a state can be brought to their ends. This profile's own.
#[derive(Clone, Copy)]
pub struct StateEnding {
    /// The place of the state, from 0.
    pub state: u8,
    /// Whether each call that is in it can be.
    pub can_end: bool,
    /// Whether each call that rests in it can be moved on, where it isn't an end.
    pub can_be_moved: bool,
}
