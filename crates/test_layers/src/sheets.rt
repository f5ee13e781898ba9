//! Rows with their answers. What rows see of a layer is told before each call. Where the call wants memory, it is told again, and has to be the same; then the
//! call is made once more.
use crate::pages::{Answer, Page};
use crate::words::{Words, row_in};
use std::alloc::{AllocError, Global};

/// Room for the rows of a file with their answers, made at once.
const ROOM: usize = 0x2_0000;
/// Room for what is told around a call, made at once.
const ROOM_AROUND: usize = 0x4000;
/// The most lines of a file.
const MOST_LINES: usize = 4096;

/// What makes the calls of a layer.
pub trait Layer {
    /// Makes the call that the words of a row name, and writes its answer. Where memory runs out all is as it was before.
    fn answer(&mut self, page: &mut Page, words: Words<'_>) -> Answer;

    /// Tells what rows see of the layer.
    fn show(&self, page: &mut Page);
}

/// How the rows of a file ended.
#[derive(Clone, Copy)]
pub enum End {
    /// All are answered.
    Well,
    /// Memory ran out, and not in a call that is made once more.
    NoMemory,
    /// A call wanted memory, and what it was made on isn't as it was.
    Changed,
    /// A row that has to be there isn't, or is none.
    Unreadable,
}

/// Rows with their answers, and what is told around the call of one.
#[derive(Drop)]
pub struct Sheet {
    told: Page,
    answer: Page,
    before: Page,
    after: Page,
}

impl Sheet {
    /// No row yet.
    pub fn new(alloc: Global) -> Result<Sheet, AllocError> {
        Ok(Sheet {
            told: Page::new(alloc, ROOM)?,
            answer: Page::new(alloc, ROOM_AROUND)?,
            before: Page::new(alloc, ROOM_AROUND)?,
            after: Page::new(alloc, ROOM_AROUND)?,
        })
    }

    /// The rows with their answers.
    pub fn told(&self) -> &str {
        self.told.text()
    }

    /// Tells what rows see before a call.
    fn look<L: Layer>(&mut self, layer: &L) {
        self.before.clear();
        layer.show(&mut self.before);
    }

    /// Whether rows see the same after a call that wanted memory.
    fn is_same<L: Layer>(&mut self, layer: &L) -> bool {
        self.after.clear();
        layer.show(&mut self.after);
        self.before.text() == self.after.text()
    }

    /// The answer of a call.
    fn call<L: Layer>(&mut self, layer: &mut L, call: &str) -> Answer {
        self.answer.clear();
        layer.answer(&mut self.answer, Words::of(call))
    }

    /// Writes a row with the answer of its call, which is made once more where it wanted memory and rows see that all is as it was.
    fn row<L: Layer>(&mut self, layer: &mut L, call: &str) -> End {
        self.look(layer);
        let mut answer = self.call(layer, call);
        if answer == Answer::NoMemory {
            if !self.is_same(layer) {
                return self.tell_change(call);
            }
            answer = self.call(layer, call);
        }
        self.tell(call, answer)
    }

    /// Writes a row with its answer.
    fn tell(&mut self, call: &str, answer: Answer) -> End {
        let lacks = self.answer.lacks_memory()
            || self.before.lacks_memory()
            || self.told.lacks_memory();
        if answer == Answer::NoMemory || lacks {
            return End::NoMemory;
        }
        self.told.say(call);
        self.told.say(" => ");
        match answer {
            Answer::Told => self.told.say(self.answer.text()),
            _ => self.told.say("no such call"),
        }
        self.told.say("\n");
        End::Well
    }

    /// Writes a row whose call wanted memory and changed what rows see; where what they see couldn't be told, memory ran out.
    fn tell_change(&mut self, call: &str) -> End {
        if self.before.lacks_memory() || self.after.lacks_memory() {
            return End::NoMemory;
        }
        self.told.say(call);
        self.told.say(" => changed, was ");
        self.told.say(self.before.text());
        self.told.say("\n");
        self.told.say(call);
        self.told.say(" => changed, is ");
        self.told.say(self.after.text());
        self.told.say("\n");
        End::Changed
    }

    /// Writes each row of a text with the answer of its call.
    pub fn play<L: Layer>(&mut self, layer: &mut L, rows: &str) -> End {
        let mut lines = Words::of(rows);
        for _ in 0..MOST_LINES {
            if let Some(call) = row_in(lines.part("\n")) {
                let end = self.row(layer, call);
                if end != End::Well {
                    return end;
                }
            }
            if lines.rest().is_empty() {
                return End::Well;
            }
        }
        End::Unreadable
    }
}
