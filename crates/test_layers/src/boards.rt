//! The layer `contexts`: a board, commands on it, what exists on it, and where media goes.
use crate::names::{self, NO_NAMES, Names};
use crate::pages::{Answer, Page};
use crate::sheets::{End, Layer, Sheet};
use crate::words::Words;
use crate::{board_reads, board_seen, items, results};
use contexts::{Board, ExecFault};
use mg_model::items::Item;
use mg_names::identifiers::LineNo;
use std::alloc::Global;
use std::mem;

/// A board, with another one that is kept beside it, and the names of what the first one gave.
#[derive(Drop)]
struct Boards {
    alloc: Global,
    lines: Vec<LineNo>,
    board: Board,
    kept: Board,
    names: Names,
}

/// The rows of boards.
pub(crate) fn play(alloc: Global, sheet: &mut Sheet, rows: &str) -> End {
    match (Board::new(alloc, &[]), Board::new(alloc, &[])) {
        (Ok(board), Ok(kept)) => {
            let mut boards = Boards {
                alloc,
                lines: Vec::new(alloc),
                board,
                kept,
                names: NO_NAMES,
            };
            sheet.play(&mut boards, rows)
        }
        _ => End::NoMemory,
    }
}

impl Boards {
    /// A board with the lines that the words name, and of the class that they begin with, such as `class=3/16`.
    fn anew(&mut self, page: &mut Page, words: &mut Words<'_>) -> Answer {
        let (first, stride) = words.class();
        if first >= stride {
            return Answer::NoCall;
        }
        if names::read_lines(&mut self.lines, words.rest()) != Answer::Told {
            return Answer::NoMemory;
        }
        match Board::with_ids(self.alloc, self.lines.as_slice(), first, stride) {
            Ok(board) => {
                self.board = board;
                self.names = NO_NAMES;
                page.done()
            }
            Err(_) => Answer::NoMemory,
        }
    }

    /// A command is executed.
    fn command(&mut self, page: &mut Page, item: &Item) -> Answer {
        match self.board.exec(item) {
            Ok(done) => {
                results::give(&mut self.names, &done);
                results::write_done(page, &self.names, &done)
            }
            Err(ExecFault::Code(code)) => results::write_code(page, code),
            Err(ExecFault::NoMemory) => Answer::NoMemory,
        }
    }

    /// A copy is kept.
    fn keep(&mut self, page: &mut Page) -> Answer {
        match self.board.copy() {
            Ok(copied) => {
                self.kept = copied;
                page.done()
            }
            Err(_) => Answer::NoMemory,
        }
    }
}

impl Layer for Boards {
    fn show(&self, page: &mut Page) {
        self.names.show(page);
        board_seen::show_board(page, &self.board);
        board_seen::show_board(page, &self.kept);
    }

    fn answer(&mut self, page: &mut Page, words: Words<'_>) -> Answer {
        let mut words = words;
        let verb = words.next();
        let mut ahead = words;
        match (verb, items::item(&self.names, verb, &mut ahead)) {
            (_, Some(item)) => self.command(page, &item),
            ("new", _) => self.anew(page, &mut words),
            ("copy", _) => self.keep(page),
            ("settle", _) => {
                self.board.settle();
                page.done()
            }
            ("reset", _) => {
                self.board.reset();
                page.done()
            }
            ("swap", _) => {
                mem::swap(&mut self.board, &mut self.kept);
                page.done()
            }
            _ => board_reads::write_read(page, &self.names, &self.board, verb, words),
        }
    }
}
