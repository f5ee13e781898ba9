//! The law that the product's own gateway and calls are the model's: whatever calls of `gateway` and `agent` are made for the calls of a
//! script, with any delivery, repeat or loss of what they sent, the world that this leaves is a world of a run. Its functions are empty: their contracts
//! are the law, which a crate above has by calling them.
#![tactic(auto)]

pub mod laws;
