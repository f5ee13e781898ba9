//! Laws of reports: what a plan leaves open of the line of a call; that a plan has one report where no call has restarts of other calls: whatever
//! identifiers the gateways give, the lines are the same; and that a call among others tells what it tells alone, so the log of a gateway tells the
//! report of each of its calls. Each function here is empty: its contract is a law, which a crate above has by calling it.
#![tactic(auto)]

pub mod laws;
pub mod one_report;
