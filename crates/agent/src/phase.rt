//! What an agent waits for.
use requests::Request;

/// What an agent waits for. This profile's own.
#[derive(Drop)]
pub(crate) enum Phase {
    /// The reply to a request.
    AwaitsReply(Request),
    /// To be told to go on: the state's request was empty, so it was not sent.
    AwaitsPass,
    /// Nothing: it rests.
    Resting,
}
