//! The agent of one call of call control, as data: the state of the script that the call is in, what its names stand for, what it
//! waits for, and the number of its next request. This profile's own, over the messages of ITU-T H.248.1 v1 / RFC 3525, section 8.
//!
//! The way of a step: what reaches the call is a `Delivery` (`delivered`). Whether it may step is asked, its results are bound
//! (`results`, `bindings`) and the next state is entered with its request built (`steps`, `entering`, `building`, with `references` and
//! `descriptors`): a `PreparedStep`, for which all memory is there. It is put in place or taken back (`preparing`). So each call on a
//! `Plain` is a step of the agent, or says that the step can't be taken and changes nothing.
//!
//! A `Call` is an agent with its script and what happened to it (`logged`), whose type says which steps it may take (`call`); `Next` is
//! a call by what it is after a step (`next`, and `advancing` for a step of whichever kind).
#![tactic(auto)]

mod advancing;
mod bindings;
mod building;
mod call;
mod created_at;
mod delivered;
mod descriptors;
mod enabled;
mod entering;
mod fault;
mod logged;
mod next;
mod phase;
mod plain;
mod prepared_step;
mod preparing;
mod references;
mod refusal;
mod results;
mod retired;
mod steps;

pub use call::{Call, Ended, Next, Refused, Resting, Waiting};
pub use delivered::Delivery;
pub use fault::PlainFault;
pub use plain::Plain;
pub use prepared_step::PreparedStep;
pub use refusal::Refusal;
pub use retired::Retired;
