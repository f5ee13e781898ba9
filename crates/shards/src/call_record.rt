//! What a shard keeps of a call.
use crate::messages::Messages;
use agent::Plain;

/// What a shard keeps of a call: its agent, how many events happened to it, all that was sent to it and by it, and up to where its notes are settled.
#[derive(Drop)]
pub(crate) struct CallRecord {
    pub(crate) agent: Plain,
    pub(crate) events: usize,
    pub(crate) messages: Messages,
    /// How many of its notes, from the first on, are known to be settled: the agent never waits for them again.
    pub(crate) settled: usize,
}
