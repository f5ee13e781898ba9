//! The words of a row.

/// The words of a row that weren't read yet.
#[derive(Clone, Copy)]
pub struct Words<'a> {
    rest: &'a str,
}

impl<'a> Words<'a> {
    /// The words of a text.
    pub fn of(text: &'a str) -> Words<'a> {
        Words { rest: text }
    }

    /// What wasn't read yet.
    pub fn rest(&self) -> &'a str {
        self.rest
    }

    /// What stands before the next of these signs, or all that is left; it and the sign are read.
    pub fn part(&mut self, sign: &str) -> &'a str {
        let text = self.rest;
        match text.split_once(sign) {
            Some((part, rest)) => {
                self.rest = rest;
                part
            }
            None => {
                self.rest = "";
                text
            }
        }
    }

    /// The next word; an empty one where there is none.
    pub fn next(&mut self) -> &'a str {
        self.part(" ")
    }

    /// The next word as a number.
    pub fn number(&mut self) -> Option<u32> {
        number(self.next())
    }

    /// The value of the next word, where it is this key with a value, such as `class=3/16`; else no word is read, and the value is empty.
    pub fn value_of(&mut self, key: &str) -> &'a str {
        let mut ahead = *self;
        let word = ahead.next();
        match word.strip_prefix(key) {
            Some(value) => {
                *self = ahead;
                value
            }
            None => "",
        }
    }

    /// The class of numbers that comes next, such as `class=3/16`: those that leave 3 where they are divided by 16. Every number where
    /// none comes.
    pub fn class(&mut self) -> (u32, u32) {
        two_numbers(self.value_of("class=")).unwrap_or((0, 1))
    }
}

/// A word as a number.
pub fn number(word: &str) -> Option<u32> {
    word.parse::<u32>().ok()
}

/// The number behind a sign, as in `l/7`.
pub(crate) fn number_behind(word: &str, sign: &str) -> Option<u32> {
    match word.strip_prefix(sign) {
        Some(text) => number(text),
        None => None,
    }
}

/// Both numbers of a word such as `3/16`.
pub fn two_numbers(text: &str) -> Option<(u32, u32)> {
    let mut words = Words::of(text);
    match (number(words.part("/")), number(words.rest())) {
        (Some(first), Some(second)) => Some((first, second)),
        _ => None,
    }
}

/// The row in a line, without the answer that may stand behind it; none in a comment, an empty line or a line of a document.
pub fn row_in(line: &str) -> Option<&str> {
    let mut words = Words::of(line);
    let row = words.part(" => ");
    if row.is_empty() || row.starts_with('#') || row.starts_with('|') {
        return None;
    }
    Some(row)
}
