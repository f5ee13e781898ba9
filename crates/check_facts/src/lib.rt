//! The facts of a check: what its line is about, as one JSON value whose fields are values. Sentences are made of these by whoever reads it, and nothing is
//! decided here. The line is made by the same calls as `mgcall check` makes it.
//!
//! The way of an input: it is two sections, or its fault is told; these are checked, and the verdict or the fault is told (`told`), as a text with its
//! status (`said`) in a `form`. A No has its facts (`no_facts`): the point with its configuration (`configurations`, `components`), the way there (`ways`),
//! what of it breaks the obligation (`breaches`), its step (`requests`), and what no entry has (`uncovered`). A yes has its `worth`: its `warnings`, what
//! calls tell of its `arrows`, whether each can be brought to its end (`endings`), and what is so where they rest (`rests`), there also of each line's telephone
//! (`telephones`, `telephone_facts`), which may be forgotten (`telephone_warnings`). Each writes behind one text, in the names of the script (`names`,
//! `command_text`) of the `documents`; no name and no word needs an escape. This profile's own.
#![tactic(auto)]

mod arrows;
mod breaches;
pub mod command_text;
mod components;
mod configurations;
mod documents;
mod endings;
pub mod form;
pub mod names;
mod no_facts;
mod requests;
mod rests;
pub mod said;
mod telephone_facts;
mod telephone_warnings;
mod telephones;
pub mod told;
mod uncovered;
mod warnings;
mod ways;
mod worth;
