//! Messages that a row writes out, as they may reach a call.
use crate::pages::Answer;
use crate::words::{Words, number, number_behind};
use contexts::{Board, Done};
use line_events::{EventList, LineFault, LineSet, Note};
use mg_model::failures::Failure;
use mg_model::items::{Added, Item, Settings};
use mg_model::line_events::Hook;
use mg_model::transitions::EventItem;
use mg_names::codes::Code;
use mg_names::identifiers::{Assoc, CallNo, ContextId, LineNo};
use mg_names::kinds::Kind;
use mg_names::strictness::Strict;
use requests::{LineNote, MessageId, Reply, SentNote};
use script_table::Script;
use std::alloc::{AllocError, Global};

/// What reaches a call.
#[derive(Drop)]
pub(crate) enum Delivered {
    /// A reply to a request.
    Reply(Reply),
    /// That it is to go on from an empty request.
    Pass,
    /// A note of what happened on a line.
    Note(SentNote),
    /// The end of the timer of its state.
    Timer,
    /// An association that it hears of.
    Hear(Assoc),
}

/// The call that messages are of, on the lines of the gateway for the lines of its script.
#[derive(Clone, Copy)]
pub(crate) struct Party {
    /// Its number.
    pub(crate) call: CallNo,
    /// Its lines, in the order of the script's.
    pub(crate) lines: [LineNo; 2],
}

/// Nobody yet.
pub(crate) const NOBODY: Party = Party {
    call: CallNo(0),
    lines: [LineNo(1), LineNo(2)],
};

/// The call and the lines of a row that opens it, as `7 on 11 12`.
pub(crate) fn read_party(words: &mut Words<'_>) -> Option<Party> {
    let call = words.number();
    let _on = words.next();
    match (call, words.number(), words.number()) {
        (Some(call), Some(first), Some(second)) => Some(Party {
            call: CallNo(call),
            lines: [LineNo(first), LineNo(second)],
        }),
        _ => None,
    }
}

/// The line of the gateway that a row names by its name in the script.
fn line_of(script: &Script, party: &Party, name: &str) -> Option<LineNo> {
    let [first, second] = party.lines;
    match script.line(name) {
        Some(line) if line.index() == 0 => Some(first),
        Some(_) => Some(second),
        None => None,
    }
}

/// What is raised on a line by a descriptor with this RequestID. A line goes on hook, or is flashed, that was off hook before.
fn raise(
    lines: &mut LineSet,
    line: LineNo,
    kind: Kind,
    list: &EventList,
    request: u32,
) -> Result<Option<Note>, LineFault> {
    lines.add_line(line)?;
    if kind != Kind::Of {
        lines.hook(line, Hook::Off)?;
    }
    lines.arm(line, list, request)?;
    match kind {
        Kind::On => lines.hook(line, Hook::On),
        Kind::Fl => lines.flash(line),
        _ => lines.hook(line, Hook::Off),
    }
}

/// What happens on a line that is armed for each thing that may, with this RequestID.
fn raised(alloc: Global, line: LineNo, kind: Kind, request: u32) -> Result<Note, Answer> {
    let on = EventItem::OnHook(Strict::Exact);
    let off = EventItem::OffHook(Strict::Exact);
    let Ok(items) = Vec::from_array(alloc, [on, off, EventItem::Flash]) else {
        return Err(Answer::NoMemory);
    };
    let mut lines = LineSet::new(alloc);
    match raise(&mut lines, line, kind, &EventList::new(items), request) {
        Ok(Some(note)) => Ok(note),
        Err(LineFault::NoMemory) => Err(Answer::NoMemory),
        _ => Err(Answer::NoCall),
    }
}

/// A note as a row writes it: `1 a.of request 0`, or `1 a.of request 0 in 3`.
fn note(
    alloc: Global,
    script: &Script,
    party: &Party,
    words: &mut Words<'_>,
) -> Result<Delivered, Answer> {
    let number = words.number();
    let line = line_of(script, party, words.part("."));
    let kind = Kind::read(words.next());
    let _request = words.next();
    let (Some(number), Some(line), Some(kind), Some(request)) = (number, line, kind, words.number())
    else {
        return Err(Answer::NoCall);
    };
    let _in = words.next();
    let id = MessageId {
        call: party.call,
        association: Assoc(u64::from(words.number().unwrap_or(1))),
        number,
    };
    match raised(alloc, line, kind, request) {
        Ok(note) => Ok(Delivered::Note(SentNote::new(id, LineNote { line, note }))),
        Err(answer) => Err(answer),
    }
}

/// The failure of a reply: a code, and the place of its command, as `500 at 0`.
fn failed(words: &mut Words<'_>) -> Option<Failure> {
    let code = match words.number() {
        Some(number) => Code::read(u16::try_from(number).unwrap_or(0)),
        None => None,
    };
    let _at = words.next();
    match (code, words.number()) {
        (Some(code), Some(place)) => Some(Failure {
            place: place as usize,
            code,
        }),
        _ => None,
    }
}

/// The result of an Add of the first line to a new context, on a board with the lines of the call.
fn added(alloc: Global, party: &Party) -> Result<Done, AllocError> {
    let [first, _] = party.lines;
    let add = Item::Add {
        context: ContextId::CHOOSE,
        added: Added::Line(first),
        settings: Settings {
            mode: None,
            remote: None,
        },
    };
    let mut board = Board::new(alloc, &party.lines)?;
    match board.exec(&add) {
        Ok(done) => Ok(done),
        Err(_) => Err(AllocError),
    }
}

/// The results of a reply whose first command created a context, or of one with none.
fn results(alloc: Global, party: &Party, has_context: bool) -> Result<Vec<Done>, AllocError> {
    let mut found = Vec::new(alloc);
    if has_context {
        found.push(added(alloc, party)?)?;
    }
    Ok(found)
}

/// A reply to a request of a call: `1`, `1 in 3`, `1 with a context`, `1 with 500 at 1`, `1 with a context and 500 at 1`.
fn reply(alloc: Global, party: &Party, words: &mut Words<'_>) -> Result<Delivered, Answer> {
    let Some(number) = words.number() else {
        return Err(Answer::NoCall);
    };
    let association = number_behind(words.rest(), "in ").unwrap_or(1);
    let id = MessageId {
        call: party.call,
        association: Assoc(u64::from(association)),
        number,
    };
    let has_context = words.rest().starts_with("with a context");
    let failure = match words
        .rest()
        .split_once(if has_context { "and " } else { "with " })
    {
        Some((_, failure)) => failed(&mut Words::of(failure)),
        None => None,
    };
    match results(alloc, party, has_context) {
        Ok(results) => Ok(Delivered::Reply(Reply::new(id, results, failure))),
        Err(_) => Err(Answer::NoMemory),
    }
}

/// What a row writes that reaches a call.
pub(crate) fn read(
    alloc: Global,
    script: &Script,
    party: &Party,
    words: &mut Words<'_>,
) -> Result<Delivered, Answer> {
    match (words.next(), number(words.rest())) {
        ("pass", _) => Ok(Delivered::Pass),
        ("timer", _) => Ok(Delivered::Timer),
        ("hear", Some(of)) => Ok(Delivered::Hear(Assoc(u64::from(of)))),
        ("note", _) => note(alloc, script, party, words),
        ("reply", _) => reply(alloc, party, words),
        _ => Err(Answer::NoCall),
    }
}
