//! Whether each call can be brought to its end, decided from the configurations that calls come to.
//!
//! A call is brought to its end by moves that can be made to happen: a request is executed as far as its commands are legal, a reply is taken, a timer ends, a
//! receiver is lifted or put down (`targets`). In rounds each configuration is marked that is an end or from which a move leads to a marked one, until a round
//! marks none (`rounds`, over `split` and `marks`): what is marked in a round has a way of fewer moves than there were rounds, and from the others none leads to
//! an end. So either each call can be brought to its end, by so many moves at most, or it can't from one to which a way is told (`find`, `ending`); and so for
//! each state (`states`). That a way to the end is one in any world is a law over the model (`laws`).
//!
//! The telephone at one line is followed beside the configurations (`telephone`, `following`): by the commands of the requests what its line was given last
//! (`given`), by notes and turns whether its receiver is lifted (`notes`). All that calls come to with it is found breadth first, each once (`spread`, over
//! `points`), in both manners; what of that rests in a state (`at_rest`) tells of the telephone there (`resting_telephones`). This profile's own.
#![tactic(auto)]

mod at_rest;
pub mod ending;
pub mod find;
mod following;
mod given;
pub mod laws;
mod marks;
mod notes;
mod points;
pub mod resting_telephones;
mod rounds;
mod split;
mod spread;
pub mod states;
mod targets;
pub mod telephone;
