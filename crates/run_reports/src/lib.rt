//! The report of a run: a plan of a script that is checked is read and run, and the line of each call is written, or why there is no report.
//!
//! The way of a plan: `run` checks the script with its certificate, and only after a yes reads the plan and hands both to `runner`; `report` writes the lines of what
//! came out. What is no yes, a plan that can't be read and a run that wasn't told are lines of `check_lines`.
#![tactic(auto)]

mod report;
pub mod run;

pub use report::state_name;
pub use runner::{Line, PLAN_CALLS, RunFault};
