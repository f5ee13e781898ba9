//! Delivery over a network that loses, repeats and delays: a gateway's link executes each request of an association at most
//! once and sends a kept reply once more where it is asked again (ITU-T H.248.1 v1 / RFC 3525, Annex D.1.1), and an inbox accepts
//! each note of an association exactly once. `laws` has both as laws.
#![tactic(auto)]

mod inbox;
pub mod laws;
mod link;
mod numbers;

pub use inbox::{Arrival, Inbox};
pub use link::{Link, Offer};
