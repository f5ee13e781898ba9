//! The check of a certificate in pieces, one job each. The answer is that of the check in one, whatever the number of pieces.
#![tactic(auto)]

mod first_broken;
pub mod first_fault;
mod in_order;
mod pieces;
mod walked;
