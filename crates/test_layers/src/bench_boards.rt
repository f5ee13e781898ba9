//! Contexts of two lines each, on which commands are executed one context after the other; and boards on which media has far to go, or many ways to go.
use contexts::Board;
use mg_model::items::{Added, Item, RemoteSetting, Settings};
use mg_names::identifiers::{ContextId, LineNo, TermId};
use mg_names::modes::Mode;
use mg_names::topologies::Topology;
use std::alloc::{AllocError, Global};

/// What is set on each termination that is added.
const SETTINGS: Settings = Settings {
    mode: Some(Mode::SendReceive),
    remote: None,
};

/// Adds a line to a context; whether it is done.
fn adds(board: &mut Board, context: ContextId, number: u32) -> bool {
    let add = Item::Add {
        context,
        added: Added::Line(LineNo(number)),
        settings: SETTINGS,
    };
    board.exec(&add).is_ok()
}

/// Adds an ephemeral to a context; its number, and 0 where that isn't done.
fn add_ephemeral(board: &mut Board, context: ContextId) -> u32 {
    let add = Item::Add {
        context,
        added: Added::NewEphemeral,
        settings: SETTINGS,
    };
    match board.exec(&add) {
        Ok(done) => done.ephemeral().unwrap_or(0),
        Err(_) => 0,
    }
}

/// The context of a line; the null context where it is in none.
fn context_of(board: &Board, number: u32) -> ContextId {
    match board.get(TermId::Line(LineNo(number))) {
        Some(row) => row.place,
        None => ContextId::NULL,
    }
}

/// Adds a line in so many to a new context, so many times, and the next line to the same context where there is one.
fn make_contexts(board: &mut Board, count: u32, of: u32) -> bool {
    for before in 0..count {
        let first = before.saturating_mul(of).saturating_add(1);
        let mut is_made = adds(board, ContextId::CHOOSE, first);
        if of == 2 {
            let context = context_of(board, first);
            is_made = is_made && adds(board, context, first.saturating_add(1));
        }
        if !is_made {
            return false;
        }
    }
    true
}

/// Sets the topology of a pair of lines, one way and both ways in turn; whether it is done.
fn sets(board: &mut Board, context: ContextId, first: u32, number: u32) -> bool {
    let topology = if number % 2 == 0 {
        Topology::Oneway
    } else {
        Topology::Bothway
    };
    let item = Item::SetTopology {
        context,
        first: TermId::Line(LineNo(first)),
        second: TermId::Line(LineNo(first.saturating_add(1))),
        topology,
    };
    board.exec(&item).is_ok()
}

/// So many commands, one context after the other.
fn commands(board: &mut Board, contexts: &[ContextId], count: u32) -> bool {
    for number in 0..count {
        let place = (number as usize).checked_rem(contexts.len()).unwrap_or(0);
        let first = (place as u32).saturating_mul(2).saturating_add(1);
        let is_done = match contexts.get(place) {
            Some(context) => sets(board, *context, first, number),
            None => false,
        };
        if !is_done {
            return false;
        }
    }
    true
}

/// Contexts of two lines each, and so many commands on them.
fn are_commanded(board: &mut Board, contexts: u32, count: u32) -> bool {
    if !make_contexts(board, contexts, 2) {
        return false;
    }
    match board.context_numbers() {
        Ok(found) => commands(board, found.as_slice(), count),
        Err(_) => false,
    }
}

/// Lets an ephemeral name another one; whether it is done.
fn names(board: &mut Board, context: ContextId, one: u32, other: u32) -> bool {
    let item = Item::Modify {
        context,
        termination: TermId::Eph(one),
        settings: Settings {
            mode: None,
            remote: Some(RemoteSetting::Ephemeral(other)),
        },
    };
    board.exec(&item).is_ok()
}

/// Lets media cross between the contexts of two lines, by a new ephemeral in either.
fn crosses(board: &mut Board, first: u32, second: u32) -> bool {
    let one = context_of(board, first);
    let other = context_of(board, second);
    let near = add_ephemeral(board, one);
    let far = add_ephemeral(board, other);
    let is_named = names(board, one, near, far);
    is_named && names(board, other, far, near)
}

/// Whether media goes from the first line to the last one through a chain of contexts, each of which crosses to the next.
fn goes_through(board: &mut Board, count: u32) -> bool {
    let mut is_made = make_contexts(board, count, 1);
    for line in 1..count {
        is_made = is_made && crosses(board, line, line.saturating_add(1));
    }
    is_made && board.joined(LineNo(1), LineNo(count))
}

/// Whether no media goes from a line to one beside it, where there are so many crossings between the line's context and another one, and none to the context of
/// the line beside it.
fn stays_apart(board: &mut Board, count: u32) -> bool {
    let mut is_made = make_contexts(board, 3, 1);
    for _ in 0..count {
        is_made = is_made && crosses(board, 1, 2);
    }
    is_made && !board.joined(LineNo(1), LineNo(3))
}

fn add_lines(found: &mut Vec<LineNo>, count: u32) -> Result<(), AllocError> {
    for before in 0..count {
        found.push(LineNo(before.saturating_add(1)))?;
    }
    Ok(())
}

/// The lines from 1 on, so many.
pub(crate) fn lines(alloc: Global, count: u32) -> Result<Vec<LineNo>, AllocError> {
    let mut found = Vec::new(alloc);
    match add_lines(&mut found, count) {
        Ok(()) => Ok(found),
        Err(_) => Err(AllocError),
    }
}

/// A board with the lines from 1 on, so many.
fn board(alloc: Global, count: u32) -> Result<Board, AllocError> {
    match lines(alloc, count) {
        Ok(lines) => Board::new(alloc, lines.as_slice()),
        Err(_) => Err(AllocError),
    }
}

/// Whether the calls of a board came to what they should.
pub(crate) fn measured(alloc: Global, layer: &str, first: u32, second: u32) -> bool {
    let count = match layer {
        "board" => first.saturating_mul(2),
        "chain" => first,
        _ => 3,
    };
    match board(alloc, count) {
        Ok(mut board) => match layer {
            "board" => are_commanded(&mut board, first, second),
            "chain" => goes_through(&mut board, first),
            _ => stays_apart(&mut board, first),
        },
        Err(_) => false,
    }
}
