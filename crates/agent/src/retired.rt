//! What is left of a call that another begins on.
use mg_model::events::Event;
use mg_names::identifiers::CallNo;

/// What is left of a call on whose lines another has begun. This profile's own.
#[derive(Drop)]
pub struct Retired {
    /// The call.
    pub call: CallNo,
    /// The state of the script that it ended in, by its place from 0.
    pub state: u8,
    /// What happened to it, the latest last.
    pub transcript: Vec<Event>,
}
