//! What is read of a board, as answers of rows: what exists on it, what is kept of a termination, and where media goes.
use crate::names::{self, Names, write_all};
use crate::pages::{Answer, Page};
use crate::words::{Words, number};
use contexts::Board;

/// Whether media from one termination to another is cut, goes, or goes either way, as the verb asks.
fn asked(names: &Names, board: &Board, verb: &str, first: &str, second: &str) -> Option<bool> {
    if verb == "cut" {
        return match (names.termination(first), names.termination(second)) {
            (Some(from), Some(to)) => Some(board.is_cut(from, to)),
            _ => None,
        };
    }
    match (names::line(first), names::line(second)) {
        (Some(one), Some(other)) if verb == "path" => Some(board.path(one, other)),
        (Some(one), Some(other)) if verb == "joined" => Some(board.joined(one, other)),
        _ => None,
    }
}

/// The number of a context or an ephemeral that was given.
fn given(names: &Names, word: &str) -> Option<u32> {
    match (names.ephemeral(word), names.context(word)) {
        (Some(number), _) => Some(number),
        (_, Some(context)) => Some(context.0),
        _ => None,
    }
}

/// The number that a verb asks for: of the members of a context, of a context or an ephemeral that was given, or what is left where that is divided.
fn number_of(names: &Names, board: &Board, verb: &str, first: &str, second: &str) -> Option<u32> {
    match verb {
        "members" => match names.context(first) {
            Some(context) => u32::try_from(board.members(context).len()).ok(),
            None => None,
        },
        "rest" => match given(names, first) {
            Some(known) => known.checked_rem(number(second).unwrap_or(0)),
            None => None,
        },
        "number" => given(names, first),
        _ => None,
    }
}

/// Writes an answer or a number, where there is one.
fn write_found(page: &mut Page, answer: Option<bool>, number: Option<u32>) -> Answer {
    match (answer, number) {
        (Some(answer), _) => page.yes_or_no(answer),
        (_, Some(number)) => {
            page.number(u64::from(number));
            Answer::Told
        }
        _ => Answer::NoCall,
    }
}

/// Writes what a board, or the names, tell.
pub(crate) fn write_read(
    page: &mut Page,
    names: &Names,
    board: &Board,
    verb: &str,
    words: Words<'_>,
) -> Answer {
    let mut words = words;
    let (first, second) = (words.next(), words.next());
    match (verb, names.termination(first)) {
        ("lines", _) => write_all(page, names, &board.lines()),
        ("ephemerals", _) => write_all(page, names, &board.ephemerals()),
        ("contexts", _) => write_all(page, names, &board.context_numbers()),
        ("show", Some(termination)) => names.write_row(page, board.get(termination)),
        _ => write_found(
            page,
            asked(names, board, verb, first, second),
            number_of(names, board, verb, first, second),
        ),
    }
}
