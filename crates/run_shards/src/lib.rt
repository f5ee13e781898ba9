//! The shards of a run, each under its lock, and what each counts of its calls.
//!
//! The way of a shard: it is opened with its calls of the plan and put under its lock (`opening`, `locked_shard`), while each call goes to its number among
//! all (`places`). Under the lock a call takes the next step of the plan, which is counted as it is taken (`shard_count`), or the gateway restarts
//! (`restarts`), with all others in turn (`restarted`): so a log stands behind what is counted, by which it is the report. Once no worker is left the shards
//! come out of their locks, and all calls have to be at their numbers (`joined`). Of a shard is known throughout that it is of this script and this plan
//! (`running`, `run_plan`), whatever happened in it.
#![tactic(auto)]

mod joined;
mod locked_shard;
mod opening;
mod places;
mod restarted;
mod restarts;
mod run_plan;
mod running;
mod shard_count;

pub use joined::{PlayedShards, all_planned, unlocked};
pub use locked_shard::LockedShard;
pub use opening::open_all;
pub use places::Places;
pub use planned_calls::{
    CallCount, CallLog, CallPhase, Gate, Line, NoGate, PLAN_CALLS, PlanTotals, PlannedCall,
    RunFault, Shard, Standing, epochs_of, is_restart, lines_of, opened_call, phase_of,
};
pub use restarted::RestartedShards;
pub use run_plan::RunPlan;
pub use running::Running;
pub use shard_count::ShardCount;
