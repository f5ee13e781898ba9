//! What readers of typed values share: the texts of a document, the form of names, why nothing is given where something was asked for, why
//! a document is not read, and in `specs/` the words by which a definition says what a value has to be.
//!
//! A reader goes over a tree of values. A shape is a function from a part of the tree to what it says, or nothing, and
//! nothing is always a bad key: so the order of reading can't matter. `Gives` in `specs/Shape.antt` ties the answer of
//! a function to such a shape.
//!
//! Of a TOML tree a type says by `Reads` what it reads; a key that has to be there, one that may be left out and one that holds a list of
//! such values are then read by `needed`, `optional`, `needed_list` and `listed`, each exactly: the answer is what the shape
//! in the contract gives, or that a key is bad; only running out of memory may stand in place of it. The words of these
//! shapes are in `specs/Keys.antt`.
#![tactic(auto)]

mod missing;
mod names;
mod reads;
mod texts;
mod unread;
mod word;

pub use missing::Missing;
pub use names::{is_among, is_name, is_reserved};
pub use reads::{
    Reads, entries, has_only, listed, member, needed, needed_list, optional, table, text,
};
pub use texts::words;
pub use unread::Unread;
pub use word::{Word, Words};
