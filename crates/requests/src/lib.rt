//! The messages between a call's agent and the gateway, and what the gateway does with the commands of one request
//! (H.248.1 section 8): each one on the connection model, then the Signals and Events descriptors of its line.
#![tactic(auto)]

mod command;
mod connections;
mod descriptors;
mod event;
mod follow;
mod idle;
mod items;
mod message_id;
mod note;
mod outcome;
mod progress;
mod raising;
mod reply;
mod request;
mod run;

pub use command::{LineDescriptors, Newcomer, RequestCommand, Target};
pub use connections::Connections;
pub use message_id::MessageId;
pub use note::SentNote;
pub use outcome::{LineNote, Outcome};
pub use reply::Reply;
pub use request::Request;
