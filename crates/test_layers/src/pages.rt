//! What is written of rows, and what became of a call.
use std::alloc::{AllocError, Global};

/// What became of a call.
#[derive(Clone, Copy)]
pub enum Answer {
    /// Its answer is written.
    Told,
    /// The row names no call.
    NoCall,
    /// It wanted memory.
    NoMemory,
}

/// A text with room that is made at once.
#[derive(Drop)]
pub struct Page {
    text: String,
    /// Whether the room was too small for what was to be written, or memory was wanted for what is told.
    lacks_memory: bool,
}

impl Page {
    /// An empty page with this room.
    pub fn new(alloc: Global, room: usize) -> Result<Page, AllocError> {
        Ok(Page {
            text: String::with_capacity(alloc, room)?,
            lacks_memory: false,
        })
    }

    /// What is written.
    pub fn text(&self) -> &str {
        self.text.as_str()
    }

    /// Whether something isn't written for want of memory.
    pub fn lacks_memory(&self) -> bool {
        self.lacks_memory
    }

    /// What is to be told can't be had for want of memory.
    pub fn lack(&mut self) {
        self.lacks_memory = true;
    }

    /// Nothing is written.
    pub fn clear(&mut self) {
        self.text.clear();
    }

    /// Writes a text.
    pub fn say(&mut self, text: &str) {
        if self.text.push_str(text).is_err() {
            self.lacks_memory = true;
        }
    }

    /// Writes a number.
    pub fn number(&mut self, number: u64) {
        if write!(self.text, "{number}").is_err() {
            self.lacks_memory = true;
        }
    }

    /// Writes a text and then a number.
    pub fn numbered(&mut self, text: &str, number: u64) {
        self.say(text);
        self.number(number);
    }

    /// The answer to a call that has none of its own.
    pub fn done(&mut self) -> Answer {
        self.say("done");
        Answer::Told
    }

    /// The answer to a question.
    pub fn yes_or_no(&mut self, is_so: bool) -> Answer {
        self.say(if is_so { "yes" } else { "no" });
        Answer::Told
    }

    /// The answer of a call that is refused, by the number and the name of what refuses it.
    pub fn refused(&mut self, number: u16, name: &str) -> Answer {
        self.number(u64::from(number));
        self.say(" ");
        self.say(name);
        Answer::Told
    }
}
