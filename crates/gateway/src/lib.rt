//! A media gateway of call control (ITU-T H.248.1 v1 / RFC 3525): its association, its connections, which call holds which line, and
//! for each open call the reply that is kept and how many notes were sent. It executes each request of an association at most once,
//! and running out of memory changes nothing. What a request is made of, and what is told of it, is here too: a program needs this
//! crate and `mg_names` alone.
#![tactic(auto)]

mod active_and_standby;
mod answer;
mod begin;
mod call;
mod calls;
mod created;
mod creators;
mod execute;
mod fault;
mod gateway;
mod happen;
mod holders;
mod numbering;
mod open_call;
mod possible;
mod readers;
mod restart;

pub use answer::Answer;
pub use contexts::{Board, Done};
pub use digits::{Dialled, DigitMap, MapFault};
pub use fault::{BeginFault, CannotHappen, OpenFault};
pub use gateway::Gateway;
pub use line_events::{EventList, LineRow, ListItem, Note};
pub use mg_model::failures::{ChosenRefusal, Failure, Refusal};
pub use mg_model::line_events::{Hook, LineEvent, Method, SignalSet};
pub use mg_model::references::{ContextRef, EphemeralRef, RemoteRef, SettingsRef, TerminationRef};
pub use mg_model::rows::Row;
pub use mg_model::transitions::EventItem;
pub use requests::{
    LineDescriptors, MessageId, Newcomer, Reply, Request, RequestCommand, SentNote, Target,
};
