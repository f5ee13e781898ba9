//! The reader of call control scripts. A document is either read into the table that it describes, or refused with the
//! lowest fault that it has anywhere. The format is this profile's own.
//!
//! The way of a document:
//!
//! 1. Its bytes are a tree, whose tables are taken apart by their keys (`tables`), and the texts in them by their words (`texts`, `items`,
//!    `commands`). What comes of it is a `Document` as it is written (`syntax`), or nothing, where a key is unknown or missing, a value is of
//!    the wrong kind, or a text isn't of the grammar: that is a bad key. Whether a document is within this profile's limits stands in `limits`.
//! 2. What has a name tells it (`named`), and the names of each kind stand in one table (`names`, `scope`).
//! 3. One fault after the other is searched for (`faults`, by `fault`'s order): those of the names that a document declares (`duplicates`), then
//!    those of the names that it uses (`uses`) and all later ones. Each test is of the whole document and stands for itself.
//! 4. Each name is looked up (`lookups`), each command becomes one of the table (`requests`), and so do states, lists and maps (`build`).
//!
//! `reader` puts these together, with `faultless`. The contract of `read_script` is exact: the answer is the table that the document
//! means, or its lowest fault, or that the bytes are no TOML; only running out of memory may stand in place of it. `laws` has what every
//! table has that is answered.
#![tactic(auto)]

mod build;
mod commands;
mod duplicates;
mod fault;
mod faultless;
mod faults;
mod items;
pub mod laws;
mod limits;
mod lookups;
mod named;
mod names;
mod reader;
mod requests;
mod scope;
mod syntax;
mod tables;
mod texts;
mod uses;

pub use fault::ScriptFault;
pub use reader::read_script;
