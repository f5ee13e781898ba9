//! The calls of a plan moved on by threads.
//!
//! The way of a step: each shard is opened with its calls and stands under its lock (`run_shards`). In an epoch the calls of a shard go into its
//! queue (`epoch`, over `call_queues`), and each worker takes calls out in a thread of its own (`worker`): before each step of a call the gate is asked, and
//! the step is done in the call's shard under its lock, where it is counted (`workplace`). Then the call goes back into its queue, or it is done with. Between
//! two epochs each shard restarts (`epochs`, `passed_epochs`). Once all workers are joined the shards come out of their locks, and each call is at its number,
//! with no step of an epoch left that is passed. Of a shard is known then that it is of this script and this plan, and that what is counted of its calls is
//! what a log of it counts; that calls and shards agree is established from data, by `run_account`.
#![tactic(auto)]

mod epoch;
mod epochs;
mod passed_epochs;
mod worker;
mod workplace;

pub use epochs::run_calls;
pub use run_shards::{
    Gate, LockedShard, NoGate, Places, PlannedCall, PlayedShards, RestartedShards, RunFault,
    RunPlan, Running, all_planned, epochs_of, open_all, unlocked,
};
