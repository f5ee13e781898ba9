//! The connection model of a gateway (H.248.1 section 6): which terminations stand in which contexts, between which of them media
//! is cut.
//!
//! The way of a command: `Board::exec` carries it out or refuses it with the first code that applies. `refusals` asks for each code in its
//! order; where none applies the command goes over three tables: the rows of the terminations (the crate `terminations`, H.248.1 section
//! 6.2: the context in which each stands, its mode and its Remote), the members of each context (`members`) and the pairs between which
//! media is cut (`cuts`). `specs/TiedBoard.antt` reads the board off these three and says how they are tied.
//!
//! The way of media: a `Wiring` reads the tables and changes nothing. `media` says where it goes in one step, `reach` goes on from each
//! ephemeral that it finds, and where there are more of them than can be noted `trail` follows each way by itself.
#![tactic(auto)]

mod add;
mod board;
pub mod cuts;
mod done;
mod exec;
mod exec_add;
mod exec_subtract;
mod fault;
mod found;
mod media;
pub mod members;
mod modify;
mod move_to;
mod opening;
mod paths;
mod reach;
mod refusals;
mod rows;
mod same;
mod single;
mod subtract;
mod subtract_all;
mod topology;
mod trail;
mod wired;
mod wiring;

pub use board::Board;
pub use done::Done;
pub use fault::ExecFault;
pub use terminations::{AddLineFault, CreateFault, Terms, names};
