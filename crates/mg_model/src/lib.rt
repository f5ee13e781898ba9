//! The definitions that more than one layer cites: the table of a call control script, the configurations of one call,
//! what each command does to them, the steps between them, and the obligations of a certificate. The files of `specs/`
//! hold them; here stand the plain types that the code shares with them. Nothing here runs.
#![tactic(auto)]

pub mod commands;
pub mod components;
pub mod events;
pub mod failures;
pub mod faults;
pub mod items;
pub mod line_events;
pub mod plans;
pub mod positions;
pub mod references;
pub mod rows;
pub mod steps;
pub mod transitions;
