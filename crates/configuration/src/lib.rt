//! Configurations of one call as data: a reader and a setter for each component, the tests that the checker asks of
//! them, the two that it starts from, and sets of them that are asked word by word. Layers above see a configuration by
//! its components alone.
#![tactic(auto)]

mod codes;
pub mod config;
mod cuts;
pub mod fields;
pub mod formed;
mod numbers;
mod places;
pub mod region;
mod rows;
pub mod spots;
mod standing;
pub mod step;
mod three_words;
pub mod value_set;
pub mod well_formed;
