//! A step of a plan, taken with a call on its gateway: what it came to, where the call is, and what the two sent each other.
//!
//! The way of a step: where it means an event that can happen, that happens to the call and to the gateway (`taking`), and it `came` to that event. Else it is
//! idle, for a reason (`idle`) that is found out of the call and of its gateway as they were before (`reasons`, `causes`). Where the call is then is its
//! `position`.
//!
//! The way of what is sent: a second gateway goes along, and each event of the call happens to it too (`scene`); nothing of that decides what happens. A
//! request is known by its number from when it is sent until it reaches the gateway; its commands are those of the script, by the names that were
//! bound as it was built (`names_bound`). What reached one of the two, and what was sent at it, is shown beside the signals of each line and who hears whom
//! (`shown`), of a reply what each command came to (`results`). Where the gateway that goes along can't follow, a fault says so (`fault`). This profile's own.
#![tactic(auto)]

mod came;
mod causes;
mod fault;
mod idle;
mod names_bound;
mod position;
mod reasons;
mod results;
mod scene;
mod shown;
mod taking;

pub use came::Came;
pub use fault::SceneFault;
pub use idle::{Idle, Numbers};
pub use names_bound::NamesBound;
pub use planned_calls::{OpenFault, Shard};
pub use position::{Position, position_of};
pub use results::CommandResult;
pub use scene::Scene;
pub use shown::{Executed, Fate, Hearing, NoteSent, Sent, Shown, TakenReply};
pub use taking::{Taken, take};
