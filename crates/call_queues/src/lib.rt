//! The queues through which the calls of a plan pass in an epoch: from their places into the queue of their shard, to workers and back, and to their places.
//! What is done with a call while it is away, and what it is, is nothing to them.
//!
//! The way of a call: the calls of a shard go into a queue of their own, of which the run has the first share (`filling`, `queue_owner`). Each worker gets a
//! place at each queue, with a share of it (`owners`); by that it takes calls out and hands them back, or is done with them (`worker_queue`). When
//! it ends its places come back with the calls that it was done with, and once none is away and nothing stands in a queue, the calls are those that went in,
//! and go back to their places (`queue_owner`, `settling`).
#![tactic(auto)]

mod fault;
mod filling;
mod owners;
mod queue_owner;
mod settling;
mod worker_queue;

pub use fault::QueueFault;
pub use filling::open_queues;
pub use owners::{absorb_all, worker_queues};
pub use queue_owner::QueueOwner;
pub use settling::settle;
pub use worker_queue::WorkerQueue;
