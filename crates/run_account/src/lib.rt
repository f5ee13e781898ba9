//! The account of a run, from data, once its threads are joined: one history of all shards, what each call went through, and the report.
//!
//! The way of an event: the shard that it happened in has it in its history, and its call in its transcript. Both are gone along side by side and have to
//! agree (`compare`). What is counted in each shard has to be all of the plan's steps (`taken_all`). Then the lines that it counts of a call are those of a run
//! of the call alone, and each has to tell where the shard leaves the call (`report`, `final_state`). At last nothing is left of the shards but their histories
//! (`histories`), which are merged into one where that is asked for (`merge`).
//! `account` puts these together, and `outcome` is what they come to.
#![tactic(auto)]

mod account;
mod compare;
mod final_state;
mod histories;
mod merge;
mod outcome;
mod report;
mod taken_all;

pub use account::{PlannedRun, finish};
pub use outcome::Outcome;
pub use run_shards::{
    CallPhase, Gate, Line, NoGate, PLAN_CALLS, RunFault, epochs_of, is_restart, opened_call,
};
