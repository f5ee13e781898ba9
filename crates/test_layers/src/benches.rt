//! The public calls of one layer, made as often as numbers say, for `tools/bench` to time: `board CONTEXTS COMMANDS`, `chain CONTEXTS`, `crossings CROSSINGS`,
//! `gateway CALLS REQUESTS`, `begin CALLS BEGINNINGS` and `notes NOTES STRIDE`.
pub use crate::bench_notes::SCRIPT;
use crate::{bench_boards, bench_gateways, bench_notes};
use std::alloc::Global;

/// Whether the calls of a layer came to what they should.
pub fn measured(alloc: Global, layer: &str, first: u32, second: u32) -> bool {
    match layer {
        "gateway" => bench_gateways::measured(alloc, first, second, 1),
        "begin" => bench_gateways::measured(alloc, first, second, 2),
        "notes" => bench_notes::measured(alloc, first, second),
        _ => bench_boards::measured(alloc, layer, first, second),
    }
}
