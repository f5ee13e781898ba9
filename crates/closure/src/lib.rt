//! The steps of a configuration, each with its result; and the first broken obligation of a certificate, or that none is broken and how many points it has.
//!
//! The way of a certificate: its entries are taken one after the other (`first_fault`), each for each of its links by itself (`walk`), as `way` says. Points of
//! an entry are what is well formed of a product: of one set of values for each component. It is asked of many points at once whether all obligations but that
//! of joined lines hold (`kept_block`), by an over-approximation of them: the hull of a few configurations (`hull`, `block_hull`). Hulls are taken apart by the
//! names that are bound (`named_hull`), and where these few are led all are (`hull_steps`), into one entry or in parts into several (`hull_parts`). What a
//! command makes of a hull is told by `hull_commands`, over `hull_refusals`, `hull_found`, `hull_emptying`, `hull_surviving` and `hull_contexts`. Where joined
//! lines are known to be marked in all of it too, by the ways that media may take (`hull_media`, over `hull_hops` and `hull_seen`), the points are counted and
//! asked for nothing else (`formed_count`). Where the others aren't known to hold, the points are asked so in parts, and at last one by one: for their
//! obligations (`obligations`), and their steps (`steps`, over `requests`, `effects` and `at_rest`) are told to who looks whether an entry has their results
//! (`covering`, over `lookup`). What is asked of many at once may be in vain: it is paid for by points that were looked at (`looks`).
#![tactic(auto)]

mod at_rest;
mod block_hull;
mod broken;
mod collected;
pub mod cover;
mod covering;
pub mod effects;
pub mod first_fault;
mod formed_count;
mod hull;
mod hull_commands;
mod hull_contexts;
mod hull_emptying;
mod hull_found;
mod hull_hops;
mod hull_media;
mod hull_parts;
mod hull_refusals;
mod hull_seen;
mod hull_steps;
mod hull_surviving;
mod kept_block;
pub mod looks;
mod lookup;
mod marks;
mod named_hull;
pub mod obligations;
pub mod requests;
pub mod steps;
mod visitor;
mod walk;
mod way;
