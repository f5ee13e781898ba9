//! All messages of one call.
ghost use Rattle.std.specs.Prelude.{◌≡◌, ◌+◌, ◌==◌, [], ◌∷◌, ◌++◌, ◌<◌, ◌≤◌, false, OnOk, option_map, length, vec_capacity};
ghost use Rattle.std.specs.List.{find};
ghost use Rattle.mg_model.specs.Messages as model;
ghost use Rattle.shards.specs.Messages.{none_sent, placed, request_for, reply_for, sending, answering, raising, note_numbers, AreNumberedFrom, HasRoomToSend, HasRoomForNotes, WasSent, IsNextOver};

use requests::{Reply, Request, SentNote};
use std::alloc::{AllocError, Global};
use std::marker::Model;

/// The messages of one call. Its requests are numbered on from the number of the first, and its notes from 1, so that each is found by
/// its number at once. A request that is still awaited is the agent's to keep.
#[derive(Drop)]
pub struct Messages {
    first: u64,
    requests: Vec<Request>,
    replies: Vec<Option<Reply>>,
    answered: Option<usize>,
    notes: Vec<SentNote>,
}

impl Model for Messages {
    ghost use Rattle.std.specs.Prelude.{vec_capacity};
    ghost use Rattle.shards.specs.Messages.{MessagesValue, AreNumberedFrom, request_numbers, note_numbers};

    ghost Value = { MessagesValue };

    ghost view = { λ m. record { sent = record { first = m.first; requests = m.requests.items; replies = m.replies.items; answered = m.answered; notes = m.notes.items }; places = record { requests = vec_capacity m.requests; replies = vec_capacity m.replies; notes = vec_capacity m.notes } } };

    ghost invariant = { λ m. AreNumberedFrom m.first (request_numbers m.requests.items) × AreNumberedFrom 1 (note_numbers m.notes.items) };
}

/// The note at the place of a number, where they are numbered from 1.
fn numbered(notes: &[SentNote], number: u32) -> Option<&SentNote>
    ensures { option_map (λ n. n.now) result ≡ placed 1 notes.now number }
{
    if number < 1 {
        return None;
    }
    notes.get((number - 1) as usize)
}

/// Puts more notes after others, where there is room.
fn append(notes: &mut Vec<SentNote>, more: Vec<SentNote>)
    requires { length notes.old.items + length more.items ≤ vec_capacity notes.old }
    ensures { notes.new.items ≡ notes.old.items ++ more.items }
{
    let mut more = more;
    // There is room, so this can't fail.
    let _ = notes.append(&mut more);
}

impl Messages {
    /// None yet, where the first request will have this number. It takes no memory.
    pub fn new(alloc: Global, first: u64) -> Messages
        ensures { result.sent ≡ none_sent first }
    {
        Messages {
            first,
            requests: Vec::new(alloc),
            replies: Vec::new(alloc),
            answered: None,
            notes: Vec::new(alloc),
        }
    }

    /// The request at the place of a number.
    fn request_numbered(&self, number: u32) -> Option<&Request>
        ensures { option_map (λ r. r.now) result ≡ placed self.now.sent.first self.now.sent.requests number }
    {
        if (number as u64) < self.first {
            return None;
        }
        self.requests.get((number as u64 - self.first) as usize)
    }

    /// The request with this number, or the latest one, among those that are awaited no more.
    pub fn request(&self, which: Option<u32>) -> Option<&Request>
        ensures { option_map (λ r. r.now) result ≡ request_for self.now.sent which }
    {
        match which {
            Some(number) => self.request_numbered(number),
            None => self.requests.last(),
        }
    }

    /// The reply to the request with this number, or the one that was sent last.
    pub fn reply(&self, which: Option<u32>) -> Option<&Reply>
        ensures { option_map (λ r. r.now) result ≡ reply_for self.now.sent which }
    {
        let place = match which {
            Some(number) if (number as u64) < self.first => return None,
            Some(number) => (number as u64 - self.first) as usize,
            None => self.answered?,
        };
        self.replies.get(place)?.as_ref()
    }

    /// The note with this number.
    pub fn note(&self, number: u32) -> Option<&SentNote>
        ensures { option_map (λ n. n.now) result ≡ find (λ (n : model.SentNote). n.number == number) self.now.sent.notes }
    {
        numbered(self.notes.as_slice(), number)
    }

    /// The notes, the latest last; they are numbered from 1.
    pub fn notes(&self) -> &[SentNote]
        ensures notes { result.now ≡ self.now.sent.notes }
        ensures numbered { AreNumberedFrom 1 (note_numbers self.now.sent.notes) }
    {
        self.notes.as_slice()
    }

    /// Makes room for a request that is awaited no more, and for the reply to another. `AllocError` where memory ran out.
    pub fn room_to_send(&mut self) -> Result<(), AllocError>
        ensures same { self.new.sent ≡ self.old.sent }
        ensures room { OnOk result (HasRoomToSend self.new) }
    {
        self.requests.reserve(1)?;
        self.replies.reserve(1)?;
        Ok(())
    }

    /// Makes room for so many notes. `AllocError` where memory ran out.
    pub fn room_for_notes(&mut self, count: usize) -> Result<(), AllocError>
        ensures same { self.new.sent ≡ self.old.sent }
        ensures room { OnOk result (HasRoomForNotes self.new count) }
    {
        self.notes.reserve(count)
    }

    /// Takes in a request that is awaited no more, if there is one.
    fn keep(&mut self, over: Option<Request>)
        requires room { length self.old.sent.requests < self.old.places.requests }
        requires next { IsNextOver self.old.sent over }
        ensures sent { self.new.sent ≡ sending self.old.sent over false }
        ensures places { self.new.places ≡ self.old.places }
    {
        match over {
            Some(request) => self.requests.push_reserved(request),
            None => {}
        }
    }

    /// A request that was awaited, if there was one, is awaited no more, and another may be sent. It takes no memory.
    pub fn send(&mut self, over: Option<Request>, sends: bool)
        requires room { HasRoomToSend self.old }
        requires next { IsNextOver self.old.sent over }
        ensures { self.new.sent ≡ sending self.old.sent over sends }
    {
        self.keep(over);
        if sends {
            self.replies.push_reserved(None);
        }
    }

    /// The reply to a request is sent, perhaps once more. It takes no memory.
    pub fn answer(&mut self, reply: Reply)
        requires { WasSent self.old.sent reply.number }
        ensures sent { self.new.sent ≡ answering self.old.sent reply }
        ensures places { self.new.places ≡ self.old.places }
    {
        let place = (reply.number() as u64 - self.first) as usize;
        self.replies[place] = Some(reply);
        self.answered = Some(place);
    }

    /// Notes are sent. It takes no memory.
    pub fn raise(&mut self, notes: Vec<SentNote>)
        requires room { HasRoomForNotes self.old (length notes.items) }
        requires numbered { AreNumberedFrom (length self.old.sent.notes + 1) (note_numbers notes.items) }
        ensures { self.new.sent ≡ raising self.old.sent notes.items }
    {
        append(&mut self.notes, notes);
    }

    /// A note is sent. It takes no memory.
    pub fn raise_one(&mut self, note: SentNote)
        requires room { HasRoomForNotes self.old 1 }
        requires numbered { note.number ≡ length self.old.sent.notes + 1 }
        ensures { self.new.sent ≡ raising self.old.sent (note ∷ []) }
    {
        self.notes.push_reserved(note);
    }
}
