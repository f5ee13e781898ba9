//! The laws that the histories of several shards merge to one run, and that identifiers last as long as a plan may go on. Their functions are
//! empty: a contract is the law, which a crate above has by calling it.
#![tactic(auto)]

pub mod laws;
