//! The reader of certificates. A document is either read into the entries that it describes, or refused with the lowest
//! fault that it has anywhere. The format, a JSON text, is this profile's own.
//!
//! The way of a document:
//!
//! 1. Its bytes are a tree; each type says what of a tree it reads (`reads`, `written`), and the whole is read by these (`document`), or
//!    nothing, where a key is unknown or missing, or a value is of the wrong kind: that is a bad key.
//! 2. Each entry is looked at for the limits before any is kept (`outline`, over `varied`).
//! 3. Its names are looked up once (`draft`, over `entry_rows`): those of lines, contexts and ephemerals (`by_slot`), and the keys of the cuts
//!    (`named_cuts`, over `names`). Which components a configuration has, and in which order, a script says (`key`). Of each the words are at
//!    hand, each word names a value (`vocabulary`), and the values make a set in their order (`ranked`), the component (`component`).
//! 4. The entries are made of that (`reader`).
//!
//! The faults of a certificate and their order are in `fault`, and `laws` has what every certificate has that is read.
#![tactic(auto)]

mod by_slot;
mod component;
mod document;
mod draft;
mod entry_rows;
mod fault;
mod key;
pub mod laws;
mod named_cuts;
mod names;
mod outline;
mod ranked;
mod reader;
mod reads;
mod varied;
mod vocabulary;
mod written;

pub use fault::CertFault;
pub use outline::MOST_ENTRIES;
pub use reader::read_cert;
