//! `test_rows`: answers rows of every layer. It reads files of rows from standard input, makes the call that each row writes, and writes the row again with the
//! answer that it got. `tests/rows/README.md` says how rows are written; `tools/gate/rows` compares. A row whose call wants memory is compared with what
//! it saw before the call, and answered once more, so what is written is the same where one growth is refused. Where memory was wanted by the program itself the
//! status is 4. With words it makes the public calls of one layer as often as they say (`test_layers::benches`), or reads one document, `toml`, `json` or
//! `plan`; then the status says whether each came to what it should. It promises nothing else.
#![tactic(auto)]

mod apart;
mod bench_documents;
mod plan_steps;
mod shard_opening;
mod shard_rows;
mod typed;

use crate::bench_documents::reads_input;
use std::alloc::Global;
use std::env;
use std::io::{self, Read};
use std::process::ExitCode;
use test_layers::benches::measured;
use test_layers::sheets::{End, Sheet};
use test_layers::words::{Words, number};

/// Room for the files of rows that the program is given, made at once.
const ROOM: usize = 65_536;
/// The most files of rows that it is given.
const MOST_FILES: usize = 64;

/// Adds the rows of a layer to a sheet, with their answers.
fn play(alloc: Global, sheet: &mut Sheet, layer: &str, rows: &str) -> End {
    match layer {
        "shards" => shard_rows::play(alloc, sheet, rows),
        _ => test_layers::play(alloc, sheet, layer, rows),
    }
}

/// The rows of a file, whose first line names its layer.
fn tell_file(rt: &HostRuntime, file: &str) -> End {
    let Some((layer, rows)) = file.split_once('\n') else {
        return End::Unreadable;
    };
    let Ok(mut sheet) = Sheet::new(rt.alloc()) else {
        return End::NoMemory;
    };
    let end = play(rt.alloc(), &mut sheet, layer, rows);
    match print!(rt; "{}", sheet.told()) {
        Ok(()) => end,
        Err(_) => End::Unreadable,
    }
}

/// The rows of each file of a text.
fn tell_files(rt: &HostRuntime, text: &str) -> End {
    let Some(files) = text.strip_prefix("layer ") else {
        return End::Unreadable;
    };
    let mut files = Words::of(files);
    for _ in 0..MOST_FILES {
        let end = tell_file(rt, files.part("\nlayer "));
        if end != End::Well || files.rest().is_empty() {
            return end;
        }
    }
    End::Unreadable
}

/// All that standard input gives.
fn read_input(rt: &HostRuntime) -> io::Result<String> {
    let mut text = String::with_capacity(rt.alloc(), ROOM)?;
    let _read = rt.stdin().read_to_string(&mut text)?;
    Ok(text)
}

/// How it ended where a device failed.
fn failed(error: &io::Error) -> End {
    match error.kind() {
        io::ErrorKind::OutOfMemory => End::NoMemory,
        _ => End::Unreadable,
    }
}

/// The rows of each file that is read.
fn tell_input(rt: &HostRuntime) -> End {
    match read_input(rt) {
        Ok(text) => tell_files(rt, text.as_str()),
        Err(error) => failed(&error),
    }
}

/// The number that a word is; 0 where there is none.
fn number_at(words: &[String], place: usize) -> u32 {
    match words.get(place) {
        Some(word) => number(word.as_str()).unwrap_or(0),
        None => 0,
    }
}

/// Whether the calls or the document that words ask for came to what they should.
fn is_measured(rt: &HostRuntime, layer: &str, words: &[String]) -> bool {
    match layer {
        "toml" | "json" | "plan" => reads_input(rt, layer),
        _ => measured(rt.alloc(), layer, number_at(words, 2), number_at(words, 3)),
    }
}

/// What words ask for, or else the rows that are read.
fn answer(rt: &HostRuntime, words: &[String]) -> End {
    match words.get(1) {
        Some(layer) => {
            if is_measured(rt, layer.as_str(), words) {
                End::Well
            } else {
                End::Unreadable
            }
        }
        None => tell_input(rt),
    }
}

/// The words that the process was called with.
fn arguments(rt: &HostRuntime) -> io::Result<Vec<String>> {
    let words = env::args(rt)?.collect(rt.alloc())?;
    Ok(words)
}

fn main(rt: HostRuntime) -> ExitCode {
    let end = match arguments(&rt) {
        Ok(words) => answer(&rt, words.as_slice()),
        Err(error) => failed(&error),
    };
    match end {
        End::Well => ExitCode::SUCCESS,
        End::NoMemory => ExitCode::from(4),
        _ => ExitCode::FAILURE,
    }
}
