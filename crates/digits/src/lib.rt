//! Digit maps: the texts by which a gateway knows when a dialled number is complete
//! (ITU-T H.248.1 v1 / RFC 3525, 7.1.14). A text is read whole or refused with the first fault from its left.
#![tactic(auto)]

mod alternatives;
mod collector;
mod dialled;
mod fault;
pub mod laws;
mod map;
mod reading;
mod span;
mod step;

pub use collector::Collector;
pub use dialled::Dialled;
pub use fault::MapFault;
pub use map::{DigitMap, LIMIT};
pub use step::Step;
