//! What a controller keeps of the notes of one call.
ghost use Rattle.std.specs.Prelude.{◌≡◌, IfOk, OnOk, OnErr};
ghost use Rattle.mg_model.specs.Delivery.{new_inbox, arrival, after_arrival, arrives_new, without_accepted};

use crate::numbers::Numbers;
use mg_names::identifiers::Assoc;
use std::alloc::{AllocError, Global};
use std::marker::Model;

/// What an inbox says of a note that arrives.
#[derive(Clone, Copy)]
pub enum Arrival {
    /// A new number: the note is accepted.
    New,
    /// A number that was accepted before.
    Seen,
    /// Another association.
    Old,
}

/// An inbox: its association, and the numbers of the notes that were accepted in it.
#[derive(Drop)]
pub struct Inbox {
    association: Assoc,
    accepted: Numbers,
}

impl Model for Inbox {
    ghost use Rattle.delivery.specs.Inboxes.{Accepted};

    ghost Value = { Accepted };

    ghost view = { λ i. record { association = i.association.0; numbers = i.accepted } };
}

impl Inbox {
    ghost use Rattle.delivery.specs.Inboxes.{inbox_of, arrived};

    /// The inbox of a new association: no note was accepted.
    pub fn new(alloc: Global, association: Assoc) -> Inbox
        ensures { inbox_of result ≡ new_inbox association.0 }
    {
        Inbox {
            association,
            accepted: Numbers::new(alloc),
        }
    }

    /// The same inbox once more. `AllocError` where memory ran out.
    pub fn copy(&self) -> Result<Inbox, AllocError>
        ensures { IfOk result (λ copied. inbox_of copied ≡ inbox_of self.now) }
    {
        Ok(Inbox {
            association: self.association,
            accepted: self.accepted.copy()?,
        })
    }

    /// The association.
    pub fn association(&self) -> Assoc
        ensures { result.0 ≡ (inbox_of self.now).association }
    {
        self.association
    }

    /// What a note of this association and number is, where it arrives.
    pub fn arrival(&self, association: Assoc, note: u32) -> Arrival
        ensures { arrived result ≡ arrival (inbox_of self.now) association.0 note }
    {
        if association != self.association {
            return Arrival::Old;
        }
        if self.accepted.has(note) {
            Arrival::Seen
        } else {
            Arrival::New
        }
    }

    /// A note of this association and number arrives. Where memory runs out nothing changes, and only a new number needs memory.
    pub fn accept(&mut self, association: Assoc, note: u32) -> Result<Arrival, AllocError>
        ensures answer { IfOk result (λ found. arrived found ≡ arrival (inbox_of self.old) association.0 note) }
        ensures accepted { OnOk result (inbox_of self.new ≡ after_arrival (inbox_of self.old) association.0 note) }
        ensures unchanged { OnErr result (self.new ≡ self.old) }
        ensures only_new { OnErr result (arrival (inbox_of self.old) association.0 note ≡ arrives_new) }
    {
        if association != self.association {
            return Ok(Arrival::Old);
        }
        if self.accepted.add(note)? {
            Ok(Arrival::New)
        } else {
            Ok(Arrival::Seen)
        }
    }

    /// A note of this number counts as not accepted: it is new where it arrives again. It takes no memory, and nothing changes where none
    /// of this number was accepted.
    pub fn forget(&mut self, note: u32)
        ensures { inbox_of self.new ≡ without_accepted (inbox_of self.old) note }
    {
        self.accepted.remove(note);
    }

    /// A new association begins: no note was accepted.
    pub fn restart(&mut self, association: Assoc)
        ensures { inbox_of self.new ≡ new_inbox association.0 }
    {
        self.association = association;
        self.accepted.clear();
    }
}
