//! A new board.
ghost use Rattle.std.specs.Prelude.{◌≡◌, ◌<◌, IfOk, OnOk, Some};
ghost use Rattle.mg_names.specs.declared.identifiers.TermId.{TermId};
ghost use Rattle.mg_names.specs.declared.identifiers.TermId.TheVariants.{Line};
ghost use Rattle.identifiers.specs.Class.{is_of_class};
ghost use Rattle.terminations.specs.Table.{row_of, SameNumbers};
ghost use Rattle.mg_model.specs.Board.{row_with};
ghost use Rattle.contexts.specs.BoardValue.{board_of, opened, started, or_idle, filled};

use crate::board::Board;
use crate::{cuts, members};
use identifiers::Identifiers;
use mg_names::identifiers::{ContextId, LineNo, TermId};
use std::alloc::{AllocError, Global};
use std::collections::HashMap;
use terminations::Terms;

/// The greatest number of a context.
const LAST_CONTEXT: u32 = ContextId::CHOOSE.0 - 1;

/// Adds a line to a table, unless it is there.
fn add_line(terms: &mut Terms, line: LineNo) -> Result<(), AllocError>
    ensures rows { OnOk result (row_of terms.new ≡ row_with (row_of terms.old) (Line line) (Some (or_idle (row_of terms.old (Line line))))) }
    ensures numbers { OnOk result (SameNumbers terms.old terms.new) }
{
    let None = terms.get(TermId::Line(line)) else {
        return Ok(());
    };
    let Ok(_) = terms.add_line(line) else {
        return Err(AllocError);
    };
    Ok(())
}

/// Adds lines to a table.
fn add_lines(terms: &mut Terms, lines: &[LineNo]) -> Result<(), AllocError>
    ensures rows { OnOk result ((t : TermId) → row_of terms.new t ≡ filled lines.now (row_of terms.old) t) }
    ensures numbers { OnOk result (SameNumbers terms.old terms.new) }
{
    for line in lines {
        add_line(terms, *line)?;
    }
    Ok(())
}

impl Board {
    /// A board with these lines, each in the null context and Inactive, and nothing else.
    pub fn new(alloc: Global, lines: &[LineNo]) -> Result<Board, AllocError>
        ensures { IfOk result (λ board. board_of board ≡ opened (is_of_class 0 1) (started lines.now)) }
    {
        Board::with_ids(alloc, lines, 0, 1)
    }

    /// The same, where contexts and ephemerals are given numbers that leave `first` where they are divided by `stride`, and no others, so
    /// that several boards never give the same one (this profile's own).
    pub fn with_ids(
        alloc: Global,
        lines: &[LineNo],
        first: u32,
        stride: u32,
    ) -> Result<Board, AllocError>
        requires { first < stride }
        ensures { IfOk result (λ board. board_of board ≡ opened (is_of_class first stride) (started lines.now)) }
    {
        let mut terms = Terms::with_ids(alloc, first, stride);
        add_lines(&mut terms, lines)?;
        Ok(Board {
            alloc,
            terms,
            members: Identifiers::new(alloc, first, stride, LAST_CONTEXT),
            cuts: HashMap::new(alloc),
        })
    }
}

impl Board {
    /// An equal board. Which number comes next is not said.
    pub fn copy(&self) -> Result<Board, AllocError>
        ensures { IfOk result (λ copied. board_of copied ≡ board_of self.now) }
    {
        let members = members::copy(&self.members)?;
        let cuts = cuts::copy(&self.cuts)?;
        let terms = self.terms.copy()?;
        Ok(Board {
            alloc: self.alloc,
            terms,
            members,
            cuts,
        })
    }
}
