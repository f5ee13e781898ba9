//! Documents that are read once, for `tools/bench` to time: a plan for a script of two lines, and trees of TOML and of JSON, with the library alone.
use plans::Plan;
use serde_json::Value;
use std::alloc::Global;
use std::io::Read;
use test_layers::benches::SCRIPT;
use test_layers::scripts::read_script;

/// Whether a plan is one for the script of two lines.
fn reads_plan(alloc: Global, bytes: &[u8]) -> bool {
    match read_script(alloc, SCRIPT.as_bytes()) {
        Ok(script) => Plan::read(alloc, bytes, &script).is_ok(),
        Err(_) => false,
    }
}

/// Whether a document is read.
fn reads(alloc: Global, kind: &str, bytes: &[u8]) -> bool {
    match kind {
        "toml" => toml::table_from_slice(alloc, bytes).is_ok(),
        "json" => Value::from_slice(alloc, bytes).is_ok(),
        _ => reads_plan(alloc, bytes),
    }
}

/// Whether the document in standard input is read.
pub(crate) fn reads_input(rt: &HostRuntime, kind: &str) -> bool {
    let mut bytes = Vec::new(rt.alloc());
    let is_there = rt.stdin().read_to_end(&mut bytes).is_ok();
    is_there && reads(rt.alloc(), kind, bytes.as_slice())
}
