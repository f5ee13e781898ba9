//! The line of a check: what is said of a script and a certificate, and of whatever else ends in one line, with its exit status.
//!
//! The way of a verdict: `check` asks `composition` and names the fault or the broken obligation in an `Answer`; `reply` has the text of each line and the
//! status that goes with it; `telling` writes it to a device. It stands on no runner, so what explains a check waits for none.
#![tactic(auto)]

pub mod answer;
pub mod check;
pub mod reply;
pub mod telling;
