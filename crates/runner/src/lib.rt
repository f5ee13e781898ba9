//! Runs of plans: the calls of a plan in shards, moved on by any number of threads, and what such a run leaves: one history, which is a run of the plan's calls
//! in which every world is good, and what each call went through.
//!
//! The way of a plan: its calls go through its epochs on threads (`workers`), each by its own steps (`planned_calls`), and once the threads are joined
//! it is established from data what they did (`run_account`). `plan_run` is the whole, with its one theorem.
#![tactic(auto)]

mod plan_run;

pub use plan_run::run;
pub use run_account::{
    CallPhase, Gate, Line, NoGate, Outcome, PLAN_CALLS, RunFault, epochs_of, is_restart,
    opened_call,
};
