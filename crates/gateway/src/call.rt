//! An open call.
ghost use Rattle.std.specs.Prelude.{◌≡◌, ℕ, ◌+◌, true, OnOk};
ghost use Rattle.mg_model.specs.Delivery.{offer, fresh};
ghost use Rattle.mg_model.specs.Numbers.{last_number};
ghost use Rattle.delivery.specs.Offers.{offered};
ghost use Rattle.gateway.specs.Calls.{delivery_link, new_call, keeping, counting, creating, restarting};
ghost use Rattle.mg_model.specs.Members.{is_among};
ghost use Rattle.gateway.specs.Creators.{any_created};

use crate::created;
use contexts::Done;
use delivery::{Link, Offer};
use mg_names::identifiers::{Assoc, LAST_NUMBER, LineNo};
use requests::Reply;
use std::alloc::{AllocError, Global};
use std::collections::BTreeSet;
use std::marker::Model;

/// What a gateway keeps of an open call: its link, with the reply to the last request that was executed, the number of the last
/// note that was sent, the lines that it holds, and the numbers of the ephemerals that its requests created, each once. A number stays
/// there when its ephemeral is no more: there are no more of them than ephemerals ever stood in the gateway at once.
#[derive(Drop)]
pub(crate) struct CallState {
    link: Link<Reply>,
    notes: u32,
    lines: Vec<LineNo>,
    created: BTreeSet<u32>,
}

impl Model for CallState {
    ghost use Rattle.gateway.specs.Calls.{OpenCall, reply_in, IsNumbered};

    ghost Value = { OpenCall };

    ghost view = { λ c. record { association = c.link.association; last = reply_in c.link.last; notes = c.notes; lines = c.lines.items; created = c.created.keys } };

    ghost invariant = { λ c. IsNumbered c.link.last };
}

impl CallState {
    /// A call that is opened on lines: no request was executed and no note was sent. This takes no memory.
    pub(crate) fn new(alloc: Global, association: Assoc, lines: Vec<LineNo>) -> CallState
        ensures { result ≡ new_call association.0 lines.items }
    {
        CallState {
            link: Link::new(association),
            notes: 0,
            lines,
            created: BTreeSet::new(alloc),
        }
    }

    /// The lines that it holds.
    pub(crate) fn lines(&self) -> &[LineNo]
        ensures { result.now ≡ self.now.lines }
    {
        self.lines.as_slice()
    }

    /// The lines that it held.
    pub(crate) fn into_lines(self) -> Vec<LineNo>
        ensures { result.items ≡ self.lines }
    {
        self.lines
    }

    /// The numbers among which is that of each ephemeral that its requests created.
    pub(crate) fn created(&self) -> &BTreeSet<u32>
        ensures { result.now.keys ≡ self.now.created }
    {
        &self.created
    }

    /// Notes the numbers of the ephemerals that commands created. Where memory runs out some may be noted.
    pub(crate) fn note_created(&mut self, results: &[Done]) -> Result<(), AllocError>
        ensures rest { self.new ≡ creating self.new.created self.old }
        ensures kept { (k : ℕ) → is_among self.old.created k ≡ true → is_among self.new.created k ≡ true }
        ensures noted { OnOk result ((k : ℕ) → any_created results.now k ≡ true → is_among self.new.created k ≡ true) }
    {
        created::note(&mut self.created, results)
    }

    /// What is to be done with a request of this association and number.
    pub(crate) fn offer(&self, association: Assoc, number: u32) -> Offer<'_, Reply>
        ensures { offered result ≡ offer (delivery_link self.now) association.0 number }
    {
        self.link.offer(association, number)
    }

    /// The number of the last note that was sent, 0 where none was.
    pub(crate) fn notes(&self) -> u32
        ensures { result ≡ self.now.notes }
    {
        self.notes
    }

    /// For how many notes more numbers are left.
    pub(crate) fn room(&self) -> usize
        ensures { result + self.now.notes ≡ last_number }
    {
        (LAST_NUMBER - self.notes) as usize
    }

    /// Keeps the reply to a request that was executed, with the number of the last note.
    pub(crate) fn keep(&mut self, reply: Reply, notes: u32)
        requires { offer (delivery_link self.old) self.old.association reply.number ≡ fresh }
        ensures { self.new ≡ keeping reply notes self.old }
    {
        self.link.keep(reply.number(), reply);
        self.notes = notes;
    }

    /// Sets the number of the last note.
    pub(crate) fn count(&mut self, notes: u32)
        ensures { self.new ≡ counting notes self.old }
    {
        self.notes = notes;
    }

    /// A new association begins: no reply is kept, and what was created is no more.
    pub(crate) fn restart(&mut self, association: Assoc)
        ensures { self.new ≡ restarting association.0 self.old }
    {
        self.link.restart(association);
        self.created.clear();
    }
}
