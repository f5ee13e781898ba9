//! The table of terminations of a gateway (H.248.1 section 6.2): for each termination its context, its mode and its Remote.
//!
//! `Terms` keeps the lines in a map by their numbers and the ephemerals in a table of identifiers, which also chooses the number of a new
//! ephemeral. Each call of `Terms` changes the row of one termination; `settle` and `reset` are the exceptions. `specs/Table.antt` defines
//! the row of a termination and the effect of each call on it; `specs/Rows.antt` defines the effect of the settings of a command.
//!
//! `term_rows` reads and writes the rows of the maps. `keys` lists the numbers of a map in rising order, as names of lines, contexts or
//! calls; `numbered` has the types that are such names.
#![tactic(auto)]

mod faults;
mod keys;
mod numbered;
mod term_rows;
mod terms;

pub use faults::AddLineFault;
pub use identifiers::CreateFault;
pub use keys::{named, names};
pub use numbered::Numbered;
pub use term_rows::IDLE;
pub use terms::Terms;
