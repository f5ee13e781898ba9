//! The names that the whole of mgcall shares: the words of H.248.1 and of this profile, with their texts both ways,
//! and the numbers that tell lines, calls, contexts, terminations and associations apart.
#![tactic(auto)]

pub mod codes;
pub mod context_values;
pub mod events;
pub mod identifiers;
pub mod kinds;
pub mod list_places;
pub mod modes;
pub mod obligations;
pub mod phases;
pub mod signals;
pub mod slots;
pub mod strictness;
pub mod symbols;
pub mod topologies;
