//! What a step of a shard comes to.
use agent::Retired;

/// What a step of a shard comes to.
#[derive(Drop)]
pub enum Stepped {
    /// The event happened.
    Done,
    /// A call began on the lines of the one that was handed in, of which this is left.
    Begun {
        /// What is left of the call that was handed in.
        retired: Retired,
    },
}
