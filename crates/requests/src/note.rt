//! A note on its way.
ghost use Rattle.std.specs.Prelude.{◌≡◌};

use crate::message_id::MessageId;
use crate::outcome::LineNote;
use line_events::Note;
use mg_names::identifiers::{Assoc, CallNo, LineNo};
use std::marker::Model;

/// A note to a call's agent, with its number among the notes of the call (H.248.1 section 7.2.7 on Notify; the numbers are this
/// profile's own).
#[derive(Drop)]
pub struct SentNote {
    id: MessageId,
    raised: LineNote,
}

impl Model for SentNote {
    ghost use Rattle.mg_model.specs.Messages as model;

    ghost Value = { model.SentNote };

    ghost view = { λ n. record { call = n.id.call.0; association = n.id.association.0; number = n.id.number; line = n.raised.line.0; note = n.raised.note } };
}

impl SentNote {
    /// What is raised on a line, on its way to a call.
    pub fn new(id: MessageId, raised: LineNote) -> SentNote
        ensures { result ≡ record { call = id.call.0; association = id.association.0; number = id.number; line = raised.line.0; note = raised.note } }
    {
        SentNote { id, raised }
    }

    /// The call.
    pub fn call(&self) -> CallNo
        ensures { result.0 ≡ self.now.call }
    {
        self.id.call
    }

    /// The association in which it was sent.
    pub fn association(&self) -> Assoc
        ensures { result.0 ≡ self.now.association }
    {
        self.id.association
    }

    /// Its number among the notes of the call, from 1.
    pub fn number(&self) -> u32
        ensures { result ≡ self.now.number }
    {
        self.id.number
    }

    /// The line.
    pub fn line(&self) -> LineNo
        ensures { result.0 ≡ self.now.line }
    {
        self.raised.line
    }

    /// What is reported of the line.
    pub fn note(&self) -> &Note
        ensures { result.now ≡ self.now.note }
    {
        &self.raised.note
    }
}
