//! Events descriptors, as words such as `al/on:state+dd/ce:12|123` (H.248.1 section 7.1.9), what happens on a line, and the notes of it.
use crate::pages::{Answer, Page};
use crate::signals;
use crate::words::Words;
use digits::{DigitMap, MapFault};
use line_events::{EventList, LineFault, LineRow, ListItem, Note};
use mg_model::line_events::{Hook, LineEvent, Method};
use mg_model::transitions::EventItem;
use mg_names::signals::Signal;
use mg_names::strictness::Strict;
use mg_names::symbols::Symbol;
use std::alloc::Global;

/// The most items of an Events descriptor that a row writes.
const MOST: usize = 16;

/// The item of package al that a word names; `:state` is `strict=state`, and `strict=exact` where it isn't there.
fn hook_item(word: &str) -> Option<ListItem> {
    match word {
        "al/on" => Some(EventItem::OnHook(Strict::Exact)),
        "al/on:state" => Some(EventItem::OnHook(Strict::State)),
        "al/of" => Some(EventItem::OffHook(Strict::Exact)),
        "al/of:state" => Some(EventItem::OffHook(Strict::State)),
        "al/fl" => Some(EventItem::Flash),
        _ => None,
    }
}

/// The item that a word names.
fn item(alloc: Global, word: &str) -> Result<ListItem, Answer> {
    let Some(text) = word.strip_prefix("dd/ce:") else {
        return match hook_item(word) {
            Some(item) => Ok(item),
            None => Err(Answer::NoCall),
        };
    };
    match DigitMap::parse(alloc, text) {
        Ok(map) => Ok(EventItem::Digits(map)),
        Err(MapFault::NoMemory) => Err(Answer::NoMemory),
        Err(_) => Err(Answer::NoCall),
    }
}

/// Adds the item that a word names.
fn add_item(alloc: Global, items: &mut Vec<ListItem>, word: &str) -> Answer {
    match item(alloc, word) {
        Ok(item) => match items.push(item) {
            Ok(()) => Answer::Told,
            Err(_) => Answer::NoMemory,
        },
        Err(answer) => answer,
    }
}

/// Adds the items that a text names.
fn add_items(alloc: Global, items: &mut Vec<ListItem>, text: &str) -> Answer {
    let mut words = Words::of(text);
    for _ in 0..MOST {
        let answer = add_item(alloc, items, words.part("+"));
        if answer != Answer::Told || words.rest().is_empty() {
            return answer;
        }
    }
    Answer::NoCall
}

/// The Events descriptor that a text names; `none` is an empty one.
pub(crate) fn read(alloc: Global, text: &str) -> Result<EventList, Answer> {
    let mut items = Vec::new(alloc);
    if text == "none" {
        return Ok(EventList::new(items));
    }
    match add_items(alloc, &mut items, text) {
        Answer::Told => Ok(EventList::new(items)),
        answer => Err(answer),
    }
}

/// What happens on a line, by the verb of a row and the words behind its line.
pub(crate) fn event(verb: &str, words: &mut Words<'_>) -> Option<LineEvent> {
    let word = words.next();
    match (verb, Symbol::read(word), Signal::read(word)) {
        ("off", _, _) => Some(LineEvent::Hook(Hook::Off)),
        ("on", _, _) => Some(LineEvent::Hook(Hook::On)),
        ("flash", _, _) => Some(LineEvent::Flash),
        ("pause", _, _) => Some(LineEvent::Pause),
        ("digit", Some(symbol), _) => Some(LineEvent::Digit(symbol)),
        ("end", _, Some(signal)) => Some(LineEvent::SignalEnd(signal)),
        _ => None,
    }
}

/// Writes what a note reports, with how a digit map was completed, and by what (Annex E.6).
pub(crate) fn write_note(page: &mut Page, note: &Note) {
    page.say(note.kind().text());
    page.numbered(", RequestID ", u64::from(note.request()));
    page.say(match note.method() {
        Some(Method::Unambiguous) => ", Meth=UM ds=",
        Some(Method::Full) => ", Meth=FM ds=",
        Some(Method::Partial) => ", Meth=PM ds=",
        None => return,
    });
    for symbol in note.symbols().as_slice() {
        page.say(symbol.text());
    }
}

/// Writes the items of a list.
fn write_items(page: &mut Page, items: &[ListItem]) {
    for item in items {
        match item {
            EventItem::OnHook(strict) => {
                page.say(", al/on ");
                page.say(strict.text());
            }
            EventItem::OffHook(strict) => {
                page.say(", al/of ");
                page.say(strict.text());
            }
            EventItem::Flash => page.say(", al/fl"),
            EventItem::Digits(map) => page.numbered(", dd/ce ", map.alternatives().len() as u64),
        }
    }
}

/// Writes the row of a line: its hook state, its RequestID with its events, and what plays.
pub(crate) fn write_line(page: &mut Page, row: Option<&LineRow>) -> Answer {
    let Some(row) = row else {
        page.say("unknown");
        return Answer::Told;
    };
    page.say(match row.hook_state() {
        Hook::On => "on hook",
        Hook::Off => "off hook",
    });
    if let Some(request) = row.request() {
        page.numbered(", RequestID ", u64::from(request));
    }
    write_items(page, row.list().items());
    signals::write(page, row.playing());
    Answer::Told
}

/// Writes why nothing happened on a line.
pub(crate) fn write_fault(page: &mut Page, fault: LineFault) -> Answer {
    match fault {
        LineFault::NoMemory => Answer::NoMemory,
        fault => page.refused(u16::from(fault.number()), fault.name()),
    }
}

/// Writes the note that something raised on a line.
pub(crate) fn write_noted(page: &mut Page, answer: &Result<Option<Note>, LineFault>) -> Answer {
    match answer {
        Ok(Some(note)) => {
            page.say("note ");
            write_note(page, note);
            Answer::Told
        }
        Ok(None) => {
            page.say("no note");
            Answer::Told
        }
        Err(fault) => write_fault(page, *fault),
    }
}
