//! How rows name contexts and terminations: `$`, `-` and `*` as H.248.1 writes them, `c1` and `e1` for the first context and the first
//! ephemeral that was given, `l/1` for line 1, `5` and `e/5` for the context and the ephemeral of that very number.
use crate::given::{Given, NOTHING_GIVEN};
use crate::pages::{Answer, Page};
use crate::words::{Words, number, number_behind};
use mg_model::rows::Row;
use mg_names::identifiers::{CallNo, ContextId, LineNo, TermId};
use std::alloc::AllocError;

/// The most lines that a row names.
const MOST_LINES: usize = 32;

/// The contexts and ephemerals that were given.
#[derive(Clone, Copy)]
pub(crate) struct Names {
    pub(crate) contexts: Given,
    pub(crate) ephemerals: Given,
}

/// Nothing was given.
pub(crate) const NO_NAMES: Names = Names {
    contexts: NOTHING_GIVEN,
    ephemerals: NOTHING_GIVEN,
};

/// The line that a word names.
pub(crate) fn line(word: &str) -> Option<LineNo> {
    match number_behind(word, "l/") {
        Some(number) => Some(LineNo(number)),
        None => None,
    }
}

/// The context that a sign names.
fn sign(word: &str) -> Option<ContextId> {
    match word {
        "$" => Some(ContextId::CHOOSE),
        "-" => Some(ContextId::NULL),
        "*" => Some(ContextId::ALL),
        _ => None,
    }
}

impl Names {
    /// Tells the numbers of contexts and of ephemerals that were given.
    pub(crate) fn show(&self, page: &mut Page) {
        page.say("contexts");
        self.contexts.show(page);
        page.say(", ephemerals");
        self.ephemerals.show(page);
    }

    /// The context that a word names.
    pub(crate) fn context(&self, word: &str) -> Option<ContextId> {
        match (sign(word), self.contexts.named(word, "c"), number(word)) {
            (Some(context), _, _) => Some(context),
            (_, Some(known), _) => Some(ContextId(known)),
            (_, _, Some(known)) => Some(ContextId(known)),
            _ => None,
        }
    }

    /// The ephemeral that a word names.
    pub(crate) fn ephemeral(&self, word: &str) -> Option<u32> {
        match number_behind(word, "e/") {
            Some(number) => Some(number),
            None => self.ephemerals.named(word, "e"),
        }
    }

    /// The termination that a word names.
    pub(crate) fn termination(&self, word: &str) -> Option<TermId> {
        match (line(word), self.ephemeral(word)) {
            (Some(line), _) => Some(TermId::Line(line)),
            (_, Some(number)) => Some(TermId::Eph(number)),
            _ => None,
        }
    }

    /// Writes the name of a context.
    pub(crate) fn write_context(&self, page: &mut Page, context: ContextId) {
        match self.contexts.place(context.0) {
            0 if context == ContextId::NULL => page.say("-"),
            0 => page.number(u64::from(context.0)),
            place => page.numbered("c", place as u64),
        }
    }

    /// Writes the name of an ephemeral.
    pub(crate) fn write_ephemeral(&self, page: &mut Page, ephemeral: u32) {
        match self.ephemerals.place(ephemeral) {
            0 => page.numbered("e/", u64::from(ephemeral)),
            place => page.numbered("e", place as u64),
        }
    }

    /// Writes what is kept of a termination.
    pub(crate) fn write_row(&self, page: &mut Page, row: Option<Row>) -> Answer {
        let Some(row) = row else {
            page.say("unknown");
            return Answer::Told;
        };
        page.say("in ");
        self.write_context(page, row.place);
        page.say(", ");
        page.say(row.mode.text());
        if let Some(remote) = row.remote {
            page.say(", remote ");
            self.write_ephemeral(page, remote);
        }
        Answer::Told
    }
}

/// What rows list by names.
pub(crate) trait Named: Copy {
    /// Writes its name.
    fn write(self, page: &mut Page, names: &Names);
}

impl Named for LineNo {
    fn write(self, page: &mut Page, _names: &Names) {
        page.numbered("l/", u64::from(self.0));
    }
}

impl Named for u32 {
    fn write(self, page: &mut Page, names: &Names) {
        names.write_ephemeral(page, self);
    }
}

impl Named for ContextId {
    fn write(self, page: &mut Page, names: &Names) {
        names.write_context(page, self);
    }
}

impl Named for CallNo {
    fn write(self, page: &mut Page, _names: &Names) {
        page.number(u64::from(self.0));
    }
}

/// Writes names, each behind a blank.
pub(crate) fn write_names<T: Named>(page: &mut Page, names: &Names, found: &[T]) {
    for named in found {
        page.say(" ");
        named.write(page, names);
    }
}

/// Writes how many there are, and their names, where there was memory to find them.
pub(crate) fn write_all<T: Named>(
    page: &mut Page,
    names: &Names,
    found: &Result<Vec<T>, AllocError>,
) -> Answer {
    let Ok(found) = found else {
        return Answer::NoMemory;
    };
    page.number(found.len() as u64);
    page.say(":");
    write_names(page, names, found.as_slice());
    Answer::Told
}

/// Reads the lines that the words of a text name.
pub(crate) fn read_lines(lines: &mut Vec<LineNo>, text: &str) -> Answer {
    lines.clear();
    let mut words = Words::of(text);
    for _ in 0..MOST_LINES {
        if let Some(line) = line(words.next()) {
            if lines.push(line).is_err() {
                return Answer::NoMemory;
            }
        }
    }
    Answer::Told
}
