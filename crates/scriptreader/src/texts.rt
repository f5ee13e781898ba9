//! The parts of texts: names, and what a sign divides.
ghost use Rattle.std.specs.Prelude.{◌≡◌, ◌<◌, option_map};
ghost use Rattle.typed_values.specs.Shape.{Gives};
ghost use Rattle.scriptreader.specs.Texts.{parts_at, name_of, marked_of};

use std::alloc::Global;
use typed_values::{Missing, Word, is_name};

/// The two parts of a text round the first such sign.
pub(crate) fn split_once(text: &str, sign: char) -> Option<(&str, &str)>
    requires { sign < 128 }
    ensures { option_map (λ p. (p.0.now, p.1.now)) result ≡ parts_at sign text.now }
{
    text.split_once(sign)
}

/// A word that has the form of a name.
pub(crate) fn name(alloc: Global, text: &str) -> Result<Word, Missing>
    ensures { Gives (λ w. w) result (name_of text.now) }
{
    if !is_name(text) {
        return Err(Missing::Nothing);
    }
    Ok(Word::copy(alloc, text)?)
}

/// Whether a word begins with `$`, and what is left of it then.
pub(crate) fn marked(text: &str) -> (bool, &str)
    ensures mark { result.0 ≡ (marked_of text.now).0 }
    ensures rest { result.1.now ≡ (marked_of text.now).1 }
{
    match text.strip_prefix('$') {
        Some(rest) => (true, rest),
        None => (false, text),
    }
}
