//! The configurations that calls come to, and what of a certificate and of its script they don't use.
//!
//! The shortest way from the opening through listed configurations to one of them is found, or that there is none (`find`, `way`, over `search` and
//! `trace`), and so are all that calls come to (`reached`). Two configurations have one key exactly where they are equal (`key`), so a table of
//! keys tells which were found.
//!
//! What a yes is worth: it says that nothing bad can happen; a warning tells a place at which it says so of nothing, of a telephone that nobody
//! can use, or of a note that nothing comes of (`swallowed`). All that can be warned of is listed (`candidates`), each is held against the
//! configurations that calls come to (`sights`, with who hears whom by `hearing`), against what they tell of the arrows (`commands`), against the
//! points of its entry (`points`) or against the other entries (`holders`), and what is so is kept (`warnings`). That no call of the gateway's
//! association comes to anything else, in any run, is a law over the model (`laws`).
//!
//! The arrows of a script (`arrows`): each is told by the configurations that calls enter over it (`entering`), and these by what becomes in each of the
//! commands of its state (`fates`), all together (`fate_sets`, `crossings`). This profile's own.
#![tactic(auto)]

pub mod arrows;
mod candidates;
mod commands;
pub mod crossings;
mod entering;
pub mod fate_sets;
pub mod fates;
pub mod find;
mod found;
mod hearing;
mod holders;
pub mod key;
pub mod laws;
mod points;
pub mod reached;
mod search;
mod sights;
mod swallowed;
mod trace;
mod warning;
mod warnings;
pub mod way;

pub use hearing::has_path;
pub use holders::find_holder;
pub use points::find_unreached;
pub use sights::{Sight, is_shown};
pub use warning::Warning;
pub use warnings::find_warnings;
