//! What is sent at a step of a call, what plays behind it, and who hears whom then.
use crate::names_bound::NamesBound;
use crate::results::CommandResult;
use gateway::{Dialled, Failure, Method, SentNote, SignalSet};
use mg_model::commands::Command;
use mg_names::identifiers::{Assoc, LineNo};
use mg_names::kinds::Kind;
use std::alloc::Global;

/// A request that a call sends. This profile's own.
#[derive(Drop)]
pub struct Sent {
    /// Its number among the requests of the call.
    pub number: u32,
    /// The place of the state that it is of, from 0.
    pub state: u8,
    /// Its commands, as the script has them.
    pub commands: Vec<Command>,
    /// What the names of the call were bound to as it was built.
    pub bound: NamesBound,
}

/// What became of a request that reached the gateway. This profile's own.
#[derive(Clone, Copy)]
pub enum Fate {
    /// It was executed, and replied to.
    Executed,
    /// It was executed before, and its reply is sent once more.
    Repeated,
    /// It was dropped: it is of another association, or older than the one that was executed last.
    Discarded,
}

/// A request that reached the gateway. This profile's own.
#[derive(Drop)]
pub struct Executed {
    /// Its number among the requests of the call.
    pub number: u32,
    /// What became of it.
    pub fate: Fate,
    /// Its commands, as the script has them.
    pub commands: Vec<Command>,
    /// What the names of the call were bound to as it was built.
    pub bound: NamesBound,
    /// What the reply says of the commands that were done, in their order; nothing where none is sent.
    pub results: Vec<CommandResult>,
    /// The command that was refused, where one was.
    pub failure: Option<Failure>,
}

/// A reply that reached the call. This profile's own.
#[derive(Clone, Copy)]
pub struct TakenReply {
    /// The number of its request.
    pub number: u32,
    /// The command that was refused, where one was.
    pub failure: Option<Failure>,
}

/// A note on its way. This profile's own.
#[derive(Drop)]
pub struct NoteSent {
    /// Its number among the notes of the call, from 1.
    pub number: u32,
    /// The association in which it was sent.
    pub association: Assoc,
    /// The line of the gateway that it tells of.
    pub line: LineNo,
    /// What it tells.
    pub kind: Kind,
    /// The RequestID of the list that raised it.
    pub request: u32,
    /// How a digit map was completed, where one was.
    pub method: Option<Method>,
    /// The symbols that completed it.
    pub symbols: Dialled,
}

impl NoteSent {
    /// What a note tells.
    pub(crate) fn of(sent: &SentNote) -> NoteSent {
        let note = sent.note();
        NoteSent {
            number: sent.number(),
            association: sent.association(),
            line: sent.line(),
            kind: note.kind(),
            request: note.request(),
            method: note.method(),
            symbols: note.symbols().copy(),
        }
    }

    /// The same once more.
    pub(crate) fn copy(&self) -> NoteSent {
        NoteSent {
            number: self.number,
            association: self.association,
            line: self.line,
            kind: self.kind,
            request: self.request,
            method: self.method,
            symbols: self.symbols.copy(),
        }
    }
}

/// A line of a call that hears another one: a path of media leads from the one to the other. This profile's own.
#[derive(Clone, Copy)]
pub struct Hearing {
    /// The line that is heard.
    pub from: LineNo,
    /// The line that hears it.
    pub to: LineNo,
}

/// What is sent at a step of a call, what plays behind it, and who hears whom then. This profile's own.
#[derive(Drop)]
pub struct Shown {
    /// The request that reached the gateway.
    pub executed: Option<Executed>,
    /// The reply that reached the call.
    pub reply: Option<TakenReply>,
    /// The note that reached the call.
    pub note: Option<NoteSent>,
    /// The notes that the gateway sent.
    pub notes: Vec<NoteSent>,
    /// The request that the call sent.
    pub sent: Option<Sent>,
    /// The signals of each line behind the step, in the order of the script.
    pub plays: Vec<SignalSet>,
    /// Which lines hear which behind the step: those that hear the first line of the script stand first.
    pub hears: Vec<Hearing>,
}

impl Shown {
    /// Nothing was sent, nothing plays, and nobody hears anybody.
    pub(crate) fn nothing(alloc: Global) -> Shown {
        Shown {
            executed: None,
            reply: None,
            note: None,
            notes: Vec::new(alloc),
            sent: None,
            plays: Vec::new(alloc),
            hears: Vec::new(alloc),
        }
    }
}
