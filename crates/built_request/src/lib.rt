//! Built requests: the commands of a state in their order, less those that use a name that is neither bound nor created
//! by an earlier command that was kept. Whoever builds one says which names are bound, a checker by a configuration and
//! an agent by its bindings; which commands are kept is decided here. This profile's own.
#![tactic(auto)]

mod names;
mod request;

pub use names::Names;
pub use request::Request;
