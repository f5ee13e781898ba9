//! Things that threads hand on to each other through one queue: each is in one place at a time, and each that is put in comes out once. No thread is made
//! here, and nothing is locked.
#![tactic(auto)]

mod hand;
mod queue;

pub use hand::{Hand, NumberedItem};
pub use queue::{Queue, Share};
