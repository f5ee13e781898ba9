//! The laws that two worlds treat a call alike: its agent steps alike, its requests run alike, and so does each event of it, whatever identifiers
//! either gateway chooses. Their functions are empty: a contract is the law, which a crate above has by calling it. In the trade's words: a
//! renaming, one to one, of the identifiers of contexts and ephemerals, under which two worlds are bisimilar for one call; its number, its lines
//! and the numbers of its messages stand for themselves.
#![tactic(auto)]

pub mod laws;
