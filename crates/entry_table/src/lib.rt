//! Entries and certificates as values: for each state of a script, the configurations that may stand there. An entry is
//! a set of values for each component of a configuration; its points are the product of the sets, numbered. A
//! certificate is a list of entries that knows where those of each state stand. No format is known here: whoever
//! builds them brings the sets.
//!
//! Which entries have a configuration is asked of all at once (`sieves`). They stand in groups of 64. A group has a sieve for each field that one
//! of its entries narrows: for each number that the field can hold, a word with a bit for each entry that allows it. What all entries of a
//! group want of a field to be one number is asked of whole words. This profile's own.
#![tactic(auto)]

mod cert;
mod component;
mod entry;
mod fixed_bits;
mod group;
mod likeness;
mod numbers;
mod regions;
mod rows;
mod sieve;
mod sieved;
mod sieves;
mod turned;
mod values;

pub use cert::Cert;
pub use component::Component;
pub use entry::{Entry, PointsByComponent, product_of};
pub use regions::set_of;
pub use values::Values;
