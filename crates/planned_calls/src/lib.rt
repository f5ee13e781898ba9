//! A call of a plan on its way through a run, and what is counted and told of it.
//!
//! The way of a step of the plan: the `gate` lets it pass, and `planned_call` has the call that stands; the step is the event that the call's shard says it means, which happens to both, or
//! it is idle, since the event can't happen in the shard. What it came to is an entry of the log that a shard's steps make, by which `call_count` counts the
//! events and the idle steps of the call that stands and of those before it; `lines` tells these, under where the shard leaves the last. `plan_totals` counts
//! the epochs and restarts of the plan.
#![tactic(auto)]

mod call_count;
mod fault;
mod gate;
mod lines;
mod opening;
mod plan_totals;
mod planned_call;

pub use call_count::{CallCount, RetiredCall};
pub use fault::RunFault;
pub use gate::{Gate, NoGate};
pub use lines::{CallPhase, Line, lines_of, phase_of};
pub use opening::opened_call;
pub use plan_totals::{PlanTotals, epochs_of};
pub use planned_call::{CallLog, PLAN_CALLS, PlannedCall, TakenStep, is_restart};
pub use shards::{OpenFault, OpenedCall, Shard, Standing, Stepped};
