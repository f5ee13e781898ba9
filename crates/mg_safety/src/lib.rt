//! The theory over the definitions of `mg_model`. Each function here is empty: its contract is a law, which a crate above
//! has by calling it.
#![tactic(auto)]

pub mod laws;
pub mod runs;
