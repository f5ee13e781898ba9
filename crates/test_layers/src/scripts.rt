//! Scripts that stand in files of rows before the row `script`, their lines behind bars.
use crate::pages::{Answer, Page};
use crate::sheets::End;
use crate::words::Words;
use script_table::Script;
use scriptreader::ScriptFault;
use std::alloc::{AllocError, Global};
use typed_values::Unread;

/// Room for a document, made at once.
const ROOM: usize = 16_384;
/// The most lines of a document, with those between.
const MOST_LINES: usize = 1024;

/// Adds the lines of a document.
fn add_lines(page: &mut Page, text: &str) {
    let mut lines = Words::of(text);
    for _ in 0..MOST_LINES {
        if let Some(part) = lines.part("\n").strip_prefix("| ") {
            page.say(part);
            page.say("\n");
        }
    }
}

/// The document that stands in these lines.
pub fn document(alloc: Global, lines: &str) -> Result<Page, AllocError> {
    let mut page = Page::new(alloc, ROOM)?;
    add_lines(&mut page, lines);
    Ok(page)
}

/// A script that is read, once more where that wanted memory.
pub fn read_script(alloc: Global, bytes: &[u8]) -> Result<Script, Unread<ScriptFault>> {
    match scriptreader::read_script(alloc, bytes) {
        Err(Unread::NoMemory) => scriptreader::read_script(alloc, bytes),
        answer => answer,
    }
}

/// The script of a document.
fn of_document(alloc: Global, document: &Page) -> Result<Script, End> {
    match read_script(alloc, document.text().as_bytes()) {
        Ok(script) => Ok(script),
        Err(Unread::NoMemory) => Err(End::NoMemory),
        Err(Unread::Fault(_)) => Err(End::Unreadable),
    }
}

/// The script that stands before the rows of a file, which has to be one.
pub(crate) fn script(alloc: Global, rows: &str) -> Result<Script, End> {
    let Some((lines, _)) = rows.split_once("\nscript") else {
        return Err(End::Unreadable);
    };
    match document(alloc, lines) {
        Ok(document) => of_document(alloc, &document),
        Err(_) => Err(End::NoMemory),
    }
}

/// Writes how many lines and states a script has.
pub fn write_sizes(page: &mut Page, script: &Script) -> Answer {
    page.numbered("lines ", script.lines() as u64);
    page.numbered(", states ", script.states() as u64);
    Answer::Told
}
