//! What reaches an agent.
use mg_names::identifiers::Assoc;
use requests::{Reply, SentNote};

/// What reaches an agent: each is what one of its steps is taken at.
#[derive(Clone, Copy)]
pub enum Delivery<'a> {
    /// A reply to a request (H.248.1 section 8.2.2).
    Reply(&'a Reply),
    /// That it is to go on from an empty request, which was not sent (this profile's own).
    Pass,
    /// A note of what happened on a line (H.248.1 section 7.2.7).
    Note(&'a SentNote),
    /// The end of the timer of its state (this profile's own).
    Timer,
    /// The association that the call hears of (H.248.1 section 11.2 on ServiceChange).
    Hear(Assoc),
}
