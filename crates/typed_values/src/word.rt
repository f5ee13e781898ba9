//! Texts of a document, and lists of them.
ghost use Rattle.std.specs.Prelude.{◌≡◌, IfOk};

use std::alloc::{AllocError, Global};
use std::marker::Model;

/// A text of a document.
#[derive(Drop)]
pub struct Word {
    text: String,
}

impl Model for Word {
    ghost use Rattle.std.specs.Prelude.{List, ℕ, string_bytes};

    ghost Value = { List ℕ };

    ghost view = { λ w. string_bytes w.text };
}

impl Word {
    /// A copy of a text.
    pub fn copy(alloc: Global, text: &str) -> Result<Word, AllocError>
        ensures { IfOk result (λ w. w ≡ text.now) }
    {
        let text = String::from_str(alloc, text)?;
        Ok(Word { text })
    }

    /// The text.
    pub fn as_str(&self) -> &str
        ensures { result.now ≡ self.now }
    {
        self.text.as_str()
    }
}

/// A list of texts of a document.
#[derive(Drop)]
pub struct Words {
    words: Vec<Word>,
}

impl Model for Words {
    ghost use Rattle.std.specs.Prelude.{List, ℕ};

    ghost Value = { List (List ℕ) };

    ghost view = { λ w. w.words.items };
}

impl Words {
    /// The list of these texts.
    pub fn new(words: Vec<Word>) -> Words
        ensures { result ≡ words.items }
    {
        Words { words }
    }

    /// The texts.
    pub fn as_slice(&self) -> &[Word]
        ensures { result.now ≡ self.now }
    {
        self.words.as_slice()
    }
}
