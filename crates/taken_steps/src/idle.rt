//! Why a step of a plan is idle.
use mg_names::identifiers::{Assoc, LineNo};

/// Messages that have numbers of their own. This profile's own.
#[derive(Clone, Copy)]
pub enum Numbers {
    /// The notes of a gateway to a call.
    Notes,
    /// The requests of a call.
    Requests,
}

/// Why a step of a plan is idle: it means no event, or one that can't happen there. Of several reasons it is the first of the order that
/// `taken_steps/specs/Reasons` has. This profile's own.
#[derive(Clone, Copy)]
pub enum Idle {
    /// No such message was sent.
    NothingSent,
    /// No note waits for the call.
    NoNoteWaits,
    /// The call waits, for a reply or for its pass, and the step is for one that doesn't.
    Waits,
    /// The call rests in a state that isn't an end, and the step is for one that doesn't.
    Rests,
    /// The call has ended, and the step is for one that hasn't.
    HasEnded,
    /// No call begins on the lines of one that is of another association than its gateway.
    Lost {
        /// The association of the call, from 1.
        own: Assoc,
        /// The gateway's.
        current: Assoc,
    },
    /// The call waits, and for something else.
    NotAwaited {
        /// The number of the request whose reply it waits for; none where it waits for its pass.
        expected: Option<u32>,
        /// The number of the request whose reply came; none of a pass.
        came: Option<u32>,
    },
    /// The note reached the call before.
    NotNew {
        /// The number of the note, from 1.
        number: u32,
    },
    /// The note never reached the call, and is of another association.
    OtherAssociation {
        /// The number of the note, from 1.
        number: u32,
    },
    /// The state of the call has no timer.
    NoTimer,
    /// The call is in the association that it would hear of, or in a newer one.
    NothingToHear,
    /// The gateway hasn't begun the association yet.
    NotBegun {
        /// The association.
        association: Assoc,
    },
    /// The call doesn't hold the line.
    NotOfCall {
        /// The line of the gateway.
        line: LineNo,
    },
    /// What the line is like rules the event out.
    NotOnLine {
        /// The line of the gateway.
        line: LineNo,
    },
    /// A line of the call isn't released, or an ephemeral stands that it created: no other call can begin on its lines.
    NotReleased,
    /// Nothing else rules the event out, and no number is left for a message.
    NumbersEnd {
        /// Of which messages.
        which: Numbers,
    },
}
