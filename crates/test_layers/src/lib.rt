//! Rows of layers (`tests/rows`): of the gateway's, terminations, boards, lines with their digit maps, requests and gateways, and of agents above them. The call
//! of each row is made, and the row stands on a sheet with its answer; `test_rows` reads the rows and writes the sheet. Beside them calls of a layer, as many as
//! `tools/bench` asks for (`benches`). No part of the product. It promises nothing; what it is proved to be is safe. The proof of a function costs by what it
//! owns at each of its exits: so what is written goes to a page that notes itself that it had no room, and few functions own anything.
#![tactic(auto)]

mod agents;
mod bench_boards;
mod bench_gateways;
mod bench_notes;
pub mod benches;
mod board_reads;
mod board_seen;
mod boards;
mod commands;
mod deliveries;
mod events;
mod gateways;
mod given;
mod items;
mod lines;
mod names;
mod options;
pub mod pages;
mod replies;
mod results;
mod runs;
pub mod scripts;
pub mod sheets;
mod signals;
mod tables;
pub mod told;
pub mod words;

use crate::sheets::{End, Sheet};
use std::alloc::Global;

/// Adds the rows of a layer of the gateway or of calls to a sheet, with their answers; none of another layer.
pub fn play(alloc: Global, sheet: &mut Sheet, layer: &str, rows: &str) -> End {
    match layer {
        "terminations" => tables::play(alloc, sheet, rows),
        "contexts" => boards::play(alloc, sheet, rows),
        "line_events" => lines::play(alloc, sheet, rows),
        "requests" => runs::play(alloc, sheet, rows),
        "gateway" => gateways::play(alloc, sheet, rows),
        "agents" => agents::play(alloc, sheet, rows),
        _ => End::Well,
    }
}
