//! What happens to a call, and in a gateway with its calls, as data: a message is named by its number.
use crate::failures::ChosenRefusal;
use crate::line_events::LineEvent;
use mg_names::identifiers::{Assoc, CallNo, LineNo};

/// What happens to a call (this profile's own).
#[derive(Clone, Copy, PartialEq, Eq)]
pub enum CallEvent {
    /// An event of a line that the call holds.
    OnLine {
        /// The line.
        line: LineNo,
        /// What happens on it.
        event: LineEvent,
    },
    /// A request of the call reaches the gateway.
    Execute {
        /// The number of the request, from 1.
        number: u32,
        /// A refusal that the gateway chooses for one of its commands, if it does.
        chosen: Option<ChosenRefusal>,
    },
    /// The reply to a request of the call reaches its agent.
    Reply {
        /// The number of the request, from 1.
        number: u32,
    },
    /// The agent goes on from a state whose request is empty.
    Pass,
    /// A note to the call reaches its agent.
    Note {
        /// The number of the note, from 1.
        number: u32,
    },
    /// The timer of the agent's state ends.
    Timer,
    /// The call begins on the lines of one that has ended, which is retired.
    Begin {
        /// The call that has ended.
        old: CallNo,
    },
    /// The agent hears that an association has begun.
    Hear {
        /// The association.
        association: Assoc,
    },
}

/// What can happen: to a call, or a restart of the gateway (H.248.1 section 11.2).
#[derive(Clone, Copy, PartialEq, Eq)]
pub enum Event {
    /// It happens to a call.
    OfCall {
        /// The call.
        call: CallNo,
        /// What happens to it.
        event: CallEvent,
    },
    /// The gateway restarts.
    Restart,
}
