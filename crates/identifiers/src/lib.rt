//! Identifiers that are used again: what each one identifies, under a number of a class. A number is given again only once what it
//! identified was freed and this was settled, so that within a request no number changes its meaning.
#![tactic(auto)]

mod class;
mod fault;
mod identifiers;

pub use fault::CreateFault;
pub use identifiers::Identifiers;
