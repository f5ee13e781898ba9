//! The table of a call control script: what a script is, apart from the format that it is written in.
//!
//! `Tables` is the plain data that a reader builds, and a `Script` is such tables within this profile's limits, which
//! never changes. A script is looked up by name (`named`) and by place (`script`, `places`); a place that a script does
//! not have is read as a state with nothing in it, or as a list without items. Each contract says what is read in the
//! words of the script's definition, `mg_model/specs/Script.antt` and `Tables.antt`, so nothing here knows TOML, and
//! whoever reads a script need not wait for its reader.
#![tactic(auto)]

mod lists;
mod named;
mod names;
mod places;
mod script;
mod state;
mod tables;
mod words;

pub use lists::{EventsList, NamedMap, SignalsList};
pub use script::Script;
pub use state::State;
pub use tables::Tables;
