//! What rows can see of boards, as a text: it is told before a call and again where the call wanted memory, and has to be the same then. Contexts
//! and ephemerals are told by their very numbers.
use crate::names::{NO_NAMES, Named, write_names};
use crate::pages::Page;
use contexts::Board;
use mg_model::rows::Row;
use mg_names::identifiers::{ContextId, LineNo, TermId};

/// Tells which termination it is that something is told of.
fn show_name(page: &mut Page, t: TermId) {
    match t {
        TermId::Line(line) => line.write(page, &NO_NAMES),
        TermId::Eph(number) => number.write(page, &NO_NAMES),
    }
}

/// Tells what is kept of a termination.
pub(crate) fn show_row(page: &mut Page, t: TermId, row: Option<Row>) {
    page.say("; ");
    show_name(page, t);
    page.say(" ");
    NO_NAMES.write_row(page, row);
}

/// Tells from which of these terminations one is cut.
fn show_cuts(page: &mut Page, board: &Board, members: &[TermId], t: TermId) {
    for member in members {
        if board.is_cut(*member, t) {
            page.say(", cut from ");
            show_name(page, *member);
        }
    }
}

/// Tells what a board keeps of the members of a context, and from which of them each is cut; media is cut within a context alone.
fn show_members(page: &mut Page, board: &Board, members: &[TermId]) {
    for member in members {
        show_row(page, *member, board.get(*member));
        show_cuts(page, board, members, *member);
    }
}

/// Tells these contexts with their members, which a board keeps beside its rows.
fn show_contexts(page: &mut Page, board: &Board, contexts: &[ContextId]) {
    for context in contexts {
        page.numbered("; context ", u64::from(context.0));
        show_members(page, board, board.members(*context));
    }
}

/// Tells what a board keeps of these lines.
fn show_lines(page: &mut Page, board: &Board, lines: &[LineNo]) {
    for line in lines {
        let t = TermId::Line(*line);
        show_row(page, t, board.get(t));
    }
}

/// Tells what exists on a board.
pub(crate) fn show_board(page: &mut Page, board: &Board) {
    page.numbered("; contexts: ", board.contexts() as u64);
    match (board.context_numbers(), board.lines(), board.ephemerals()) {
        (Ok(contexts), Ok(lines), Ok(ephemerals)) => {
            show_contexts(page, board, contexts.as_slice());
            show_lines(page, board, lines.as_slice());
            page.say("; ephemerals:");
            write_names(page, &NO_NAMES, ephemerals.as_slice());
        }
        _ => page.lack(),
    }
}
