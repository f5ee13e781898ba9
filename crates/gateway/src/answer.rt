//! What a gateway answers to a request.
use requests::{Reply, SentNote};

/// What a gateway answers to a request that reaches it (H.248.1 Annex D.1.1).
#[derive(Drop)]
pub enum Answer {
    /// The request was executed: its reply, and the notes that it raised.
    Executed {
        /// The reply.
        reply: Reply,
        /// The notes, in their order.
        notes: Vec<SentNote>,
    },
    /// It was executed before: its reply once more.
    Kept(Reply),
    /// It does nothing: its call isn't open or was retired, its association is another one, or its number is lower than the last one's or 0.
    Discarded,
    /// The numbers of notes could run out (this profile's own).
    CannotHappen,
    /// Memory ran out.
    NoMemory,
}
