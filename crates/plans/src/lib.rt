//! Plans of runs: the calls, on which lines of the gateway, and the steps of each, epoch by epoch. A document is either read, with the script whose calls it
//! plans, into the plan that it means, or refused with its lowest fault. The format is this profile's own.
//!
//! The way of a document: its bytes are a tree (`reader`), the tree is gone through by its shape (`tables` over `for_script`, and `steps` for the texts of
//! steps), and then the plan is tested against its limits (`plan`).
#![tactic(auto)]

mod fault;
mod for_script;
mod lines;
mod plan;
mod reader;
mod steps;
mod tables;

pub use fault::PlanFault;
pub use plan::{Epoch, Plan, PlanCall};
