//! The layer `terminations`: a table of terminations with the context, the mode and the Remote of each.
use crate::board_seen::show_row;
use crate::names::{self, NO_NAMES, Names, write_all};
use crate::pages::{Answer, Page};
use crate::results;
use crate::sheets::{End, Layer, Sheet};
use crate::words::Words;
use contexts::{AddLineFault, CreateFault, Terms};
use mg_names::codes::Code;
use mg_names::identifiers::{LineNo, TermId};
use mg_names::modes::Mode;
use std::alloc::Global;
use std::mem;

/// A table of terminations, with another one that is kept beside it.
#[derive(Drop)]
struct Tables {
    alloc: Global,
    terms: Terms,
    kept: Terms,
    names: Names,
}

/// Writes that it is done, or with which code it is refused.
fn write_did(page: &mut Page, answer: Result<(), Code>) -> Answer {
    match answer {
        Ok(()) => page.done(),
        Err(code) => results::write_code(page, code),
    }
}

/// Writes the number of a termination.
fn write_number(page: &mut Page, t: TermId) -> Answer {
    match t {
        TermId::Line(line) => page.number(u64::from(line.0)),
        TermId::Eph(number) => page.number(u64::from(number)),
    }
    Answer::Told
}

/// Tells these lines of a table.
fn show_lines(page: &mut Page, terms: &Terms, lines: &[LineNo]) {
    for line in lines {
        let t = TermId::Line(*line);
        show_row(page, t, terms.get(t));
    }
}

/// Tells these ephemerals of a table.
fn show_ephemerals(page: &mut Page, terms: &Terms, ephemerals: &[u32]) {
    for ephemeral in ephemerals {
        let t = TermId::Eph(*ephemeral);
        show_row(page, t, terms.get(t));
    }
}

/// Tells a table of terminations.
fn show_terms(page: &mut Page, alloc: Global, terms: &Terms) {
    page.say(if terms.is_full() {
        "; full"
    } else {
        "; not full"
    });
    match (terms.lines(alloc), terms.ephemerals(alloc)) {
        (Ok(lines), Ok(ephemerals)) => {
            show_lines(page, terms, lines.as_slice());
            show_ephemerals(page, terms, ephemerals.as_slice());
        }
        _ => page.lack(),
    }
}

/// The rows of terminations.
pub(crate) fn play(alloc: Global, sheet: &mut Sheet, rows: &str) -> End {
    let mut tables = Tables {
        alloc,
        terms: Terms::new(alloc),
        kept: Terms::new(alloc),
        names: NO_NAMES,
    };
    sheet.play(&mut tables, rows)
}

impl Tables {
    /// No termination, and numbers of a class.
    fn anew(&mut self, page: &mut Page, (first, stride): (u32, u32)) -> Answer {
        self.names = NO_NAMES;
        if (first, stride) == (0, 1) {
            self.terms = Terms::new(self.alloc);
        } else if first < stride {
            self.terms = Terms::with_ids(self.alloc, first, stride);
        } else {
            return Answer::NoCall;
        }
        page.done()
    }

    /// A line is added.
    fn line(&mut self, page: &mut Page, word: &str) -> Answer {
        let Some(line) = names::line(word) else {
            return Answer::NoCall;
        };
        match self.terms.add_line(line) {
            Ok(()) => page.done(),
            Err(AddLineFault::NoMemory) => Answer::NoMemory,
            Err(fault) => page.refused(u16::from(fault.number()), fault.name()),
        }
    }

    /// An ephemeral is created.
    fn create(&mut self, page: &mut Page) -> Answer {
        match self.terms.create() {
            Ok(TermId::Eph(number)) => {
                self.names.ephemerals.give(number);
                self.names.write_ephemeral(page, number);
                Answer::Told
            }
            Ok(TermId::Line(_)) => Answer::NoCall,
            Err(CreateFault::NoMemory) => Answer::NoMemory,
            Err(fault) => page.refused(u16::from(fault.number()), fault.name()),
        }
    }

    /// What is set on a termination.
    fn set(&mut self, page: &mut Page, verb: &str, t: TermId, word: &str) -> Answer {
        let answer = match (verb, Mode::read(word), self.names.context(word)) {
            ("mode", Some(mode), _) => self.terms.set_mode(t, mode),
            ("put", _, Some(context)) => self.terms.put(t, context),
            ("remote", _, _) => self.terms.set_remote(t, self.names.ephemeral(word)),
            _ => return Answer::NoCall,
        };
        write_did(page, answer)
    }

    /// Takes back an ephemeral that is there.
    fn withdraw(&mut self, page: &mut Page, t: TermId) -> Answer {
        let TermId::Eph(number) = t else {
            return Answer::NoCall;
        };
        if self.terms.get(TermId::Eph(number)).is_none() {
            return Answer::NoCall;
        }
        self.terms.withdraw(number);
        page.done()
    }

    /// What is done to a termination, or read of it.
    fn of_termination(&mut self, page: &mut Page, verb: &str, words: &mut Words<'_>) -> Answer {
        let Some(t) = self.names.termination(words.next()) else {
            return Answer::NoCall;
        };
        match verb {
            "show" => self.names.write_row(page, self.terms.get(t)),
            "destroy" => write_did(page, self.terms.destroy(t)),
            "leave" => write_did(page, self.terms.leave(t)),
            "number" => write_number(page, t),
            "withdraw" => self.withdraw(page, t),
            _ => self.set(page, verb, t, words.next()),
        }
    }

    /// A copy is kept.
    fn keep(&mut self, page: &mut Page) -> Answer {
        match self.terms.copy() {
            Ok(copied) => {
                self.kept = copied;
                page.done()
            }
            Err(_) => Answer::NoMemory,
        }
    }
}

impl Layer for Tables {
    fn show(&self, page: &mut Page) {
        self.names.show(page);
        show_terms(page, self.alloc, &self.terms);
        show_terms(page, self.alloc, &self.kept);
    }

    fn answer(&mut self, page: &mut Page, words: Words<'_>) -> Answer {
        let mut words = words;
        let verb = words.next();
        match verb {
            "new" => self.anew(page, words.class()),
            "line" => self.line(page, words.next()),
            "create" => self.create(page),
            "full" => page.yes_or_no(self.terms.is_full()),
            "lines" => write_all(page, &self.names, &self.terms.lines(self.alloc)),
            "ephemerals" => write_all(page, &self.names, &self.terms.ephemerals(self.alloc)),
            "copy" => self.keep(page),
            "settle" => {
                self.terms.settle();
                page.done()
            }
            "reset" => {
                self.terms.reset();
                page.done()
            }
            "swap" => {
                mem::swap(&mut self.terms, &mut self.kept);
                page.done()
            }
            _ => self.of_termination(page, verb, &mut words),
        }
    }
}
