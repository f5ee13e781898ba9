//! The layer `line_events`: lines with their descriptors, and what happens on them.
use crate::events::{self, write_fault, write_noted};
use crate::pages::{Answer, Page};
use crate::sheets::{End, Layer, Sheet};
use crate::words::Words;
use crate::{names, signals};
use digits::{DigitMap, MapFault};
use line_events::{LineFault, LineSet, Note};
use mg_model::line_events::LineEvent;
use mg_names::identifiers::LineNo;
use std::alloc::Global;
use std::mem;

/// Lines of lower numbers than this are told where a call has to leave all as it was; rows name no others.
const LINES: u32 = 16;

/// Lines, with others that are kept beside them.
#[derive(Drop)]
struct Lines {
    alloc: Global,
    lines: LineSet,
    kept: LineSet,
}

/// Something happens on a line.
fn happen(lines: &mut LineSet, line: LineNo, event: LineEvent) -> Result<Option<Note>, LineFault> {
    match event {
        LineEvent::Hook(hook) => lines.hook(line, hook),
        LineEvent::Flash => lines.flash(line),
        LineEvent::Digit(symbol) => lines.digit(line, symbol),
        LineEvent::Pause => lines.pause(line),
        LineEvent::SignalEnd(signal) => match lines.signal_end(line, signal) {
            Ok(()) => Ok(None),
            Err(fault) => Err(fault),
        },
    }
}

/// Writes that it is done, or why nothing happened.
fn write_did(page: &mut Page, answer: Result<(), LineFault>) -> Answer {
    match answer {
        Ok(()) => page.done(),
        Err(fault) => write_fault(page, fault),
    }
}

/// Writes why a text is no digit map, and at which byte of it, from 0.
fn write_map_fault(page: &mut Page, fault: MapFault) -> Answer {
    page.refused(u16::from(fault.number()), fault.name());
    match fault {
        MapFault::BadSymbol { at } | MapFault::BadRange { at } => page.numbered(" at ", at as u64),
        MapFault::NoMemory => return Answer::NoMemory,
        MapFault::Empty | MapFault::TooLong => {}
    }
    Answer::Told
}

/// Writes how many alternatives the copy of a map has.
fn write_map(page: &mut Page, alloc: Global, map: &DigitMap) -> Answer {
    match map.copy(alloc) {
        Ok(copied) => {
            page.numbered("alternatives ", copied.alternatives().len() as u64);
            Answer::Told
        }
        Err(_) => Answer::NoMemory,
    }
}

/// Tells each line.
fn show_rows(page: &mut Page, lines: &LineSet) {
    for number in 0..LINES {
        page.numbered("; l/", u64::from(number));
        page.say(" ");
        events::write_line(page, lines.row(LineNo(number)));
    }
}

/// The rows of lines.
pub(crate) fn play(alloc: Global, sheet: &mut Sheet, rows: &str) -> End {
    let mut lines = Lines {
        alloc,
        lines: LineSet::new(alloc),
        kept: LineSet::new(alloc),
    };
    sheet.play(&mut lines, rows)
}

impl Lines {
    /// An Events descriptor, by a copy of the one that the words name.
    fn events(&mut self, page: &mut Page, line: LineNo, words: &mut Words<'_>) -> Answer {
        let Some(request) = words.number() else {
            return Answer::NoCall;
        };
        let list = match events::read(self.alloc, words.rest()) {
            Ok(list) => list,
            Err(answer) => return answer,
        };
        match list.copy(self.alloc) {
            Ok(copied) => write_noted(page, &self.lines.arm(line, &copied, request)),
            Err(_) => Answer::NoMemory,
        }
    }

    /// What is done to a line, or read of it.
    fn of_line(
        &mut self,
        page: &mut Page,
        verb: &str,
        line: LineNo,
        words: &mut Words<'_>,
    ) -> Answer {
        match verb {
            "line" => write_did(page, self.lines.add_line(line)),
            "events" => self.events(page, line, words),
            "signals" => match signals::read(words.next()) {
                Some(set) => write_did(page, self.lines.signal(line, set)),
                None => Answer::NoCall,
            },
            "clear" => write_did(page, self.lines.clear(line)),
            "show" => events::write_line(page, self.lines.row(line)),
            _ => match events::event(verb, words) {
                Some(event) => write_noted(page, &happen(&mut self.lines, line, event)),
                None => Answer::NoCall,
            },
        }
    }

    /// A copy is kept.
    fn keep(&mut self, page: &mut Page) -> Answer {
        match self.lines.copy() {
            Ok(copied) => {
                self.kept = copied;
                page.done()
            }
            Err(_) => Answer::NoMemory,
        }
    }

    /// Writes what a text is as a digit map.
    fn map(&self, page: &mut Page, text: &str) -> Answer {
        match DigitMap::parse(self.alloc, text) {
            Ok(map) => write_map(page, self.alloc, &map),
            Err(fault) => write_map_fault(page, fault),
        }
    }

    /// What is done to all lines.
    fn of_all(&mut self, page: &mut Page, verb: &str) -> Answer {
        match verb {
            "new" => self.lines = LineSet::new(self.alloc),
            "clear" => self.lines.clear_all(),
            "swap" => mem::swap(&mut self.lines, &mut self.kept),
            "copy" => return self.keep(page),
            _ => return Answer::NoCall,
        }
        page.done()
    }
}

impl Layer for Lines {
    fn show(&self, page: &mut Page) {
        show_rows(page, &self.lines);
        show_rows(page, &self.kept);
    }

    fn answer(&mut self, page: &mut Page, words: Words<'_>) -> Answer {
        let mut words = words;
        let verb = words.next();
        if verb == "map" {
            return self.map(page, words.rest());
        }
        match names::line(words.next()) {
            Some(line) => self.of_line(page, verb, line, &mut words),
            None => self.of_all(page, verb),
        }
    }
}
