//! A worker's place at the queue of a shard.
use handover::{NumberedItem, Share};

/// A place at the queue of a shard: a share of that queue, and the calls that were taken out with it and are done with. This profile's own.
#[derive(Drop)]
pub struct WorkerQueue<T> {
    /// The number of the shard.
    pub shard: usize,
    /// The share of its queue.
    pub share: Share<T>,
    /// The calls that are done with, each with its number in the plan.
    pub done: Vec<NumberedItem<T>>,
}
