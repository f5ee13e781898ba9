//! Shards: a gateway with the calls that are on it, all that they sent each other, and the history that led there.
//!
//! The way of an event: a shard is opened with its calls (`opening`), each of which has a record by its number: its agent, its messages, and how many events it
//! had (`call_record`, `call_table`). All that a call and its gateway sent each other is kept by the number of its transaction, or a note's own, so that each
//! can be delivered at any time, any number of times (`messages`). A step of a plan means an event, which is looked up in what was sent (`meaning`; `meant`
//! tells it with where the call is, by one look for its record). An event comes with the call that it is of, which has to be as far as its record (`step`;
//! where it is behind, `could_happen` says whether that is why it is refused): one of its agent is taken by both (`at_agent`), one of a line and a request go
//! to the gateway (`at_gateway`), and a beginning is one of the gateway, the records and the call (`begin`). All that may want memory comes first, then it
//! happens, and it is the last of the history (`shard`). `standing` tells where a call is, and `laws` what every shard keeps.
#![tactic(auto)]

mod at_agent;
mod at_gateway;
mod begin;
mod call_record;
mod call_table;
mod can_occur;
mod could_happen;
mod fault;
mod laws;
mod meaning;
mod meant;
mod messages;
mod opened;
mod opening;
mod shard;
mod standing;
mod step;
mod stepped;

pub use fault::{OpenFault, RestartFault};
pub use meant::Meant;
pub use opened::OpenedCall;
pub use shard::Shard;
pub use standing::Standing;
pub use stepped::Stepped;
