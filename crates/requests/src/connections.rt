//! The connections of a gateway.
ghost use Rattle.std.specs.Prelude.{◌≡◌, ℕ, ◌<◌, Some, option_map, unwrap_or, map, IfOk, OnOk, IfErr, OnErr};
ghost use Rattle.mg_model.specs.Items.{IsLegal, IsExecuted};
ghost use Rattle.mg_model.specs.LineEvents.{new_line};
ghost use Rattle.mg_model.specs.RequestRun.{IsRefusedWith};
ghost use Rattle.mg_model.specs.Board.{IsSettled};
ghost use Rattle.identifiers.specs.Class.{is_of_class};
ghost use Rattle.contexts.specs.Faults.{IsFault};
ghost use Rattle.contexts.specs.BoardValue.{opened, started};
ghost use Rattle.line_events.specs.Rows.{row_of};
ghost use Rattle.mg_model.specs.Updates.{with_at};
ghost use Rattle.requests.specs.Commands.{filled, IsThere, row_in, noted, raised_on};
ghost use Rattle.requests.specs.Connected.{board_in, line_in, line_there, has_line, is_idle};
ghost use Rattle.requests.specs.Views.{line_described};

use crate::command::LineDescriptors;
use crate::descriptors::{clear_lines, set_described};
use crate::outcome::LineNote;
use contexts::{Board, Done, ExecFault};
use line_events::{LineFault, LineRow, LineSet};
use mg_model::failures::Refusal;
use mg_model::items::Item;
use mg_names::codes::Code;
use mg_names::identifiers::{ContextId, LineNo, TermId};
use std::alloc::{AllocError, Global};
use std::marker::Model;

/// The connection model of a gateway with its lines: the part on which a request runs (H.248.1 section 6). Each line of the board
/// has its hook state, its Events descriptor and its signals. It is moved often, so what is large stands in boxes.
#[derive(Drop)]
pub struct Connections {
    pub(crate) alloc: Global,
    pub(crate) board: Box<Board>,
    pub(crate) lines: Box<LineSet>,
}

impl Model for Connections {
    ghost use Rattle.contexts.specs.BoardValue.{board_of};
    ghost use Rattle.line_events.specs.Rows.{row_of};
    ghost use Rattle.requests.specs.Connected.{Connected, IsMatched};

    ghost Value = { Connected };

    ghost view = { λ c. record { board_value = c.board.value; lines = c.lines.value } };

    ghost invariant = { λ c. IsMatched (board_of c.board.value) (row_of c.lines.value) };
}

/// Adds a line, unless it is there.
fn add_line(rows: &mut LineSet, line: LineNo) -> Result<(), AllocError>
    ensures { OnOk result (row_of rows.new ≡ with_at (row_of rows.old) line.0 (Some (unwrap_or (row_of rows.old line.0) new_line))) }
{
    match rows.add_line(line) {
        Err(LineFault::NoMemory) => Err(AllocError),
        _ => Ok(()),
    }
}

/// Adds lines.
fn add_lines(rows: &mut LineSet, lines: &[LineNo]) -> Result<(), AllocError>
    ensures { OnOk result ((n : ℕ) → row_of rows.new n ≡ filled lines.now (row_of rows.old) n) }
{
    for line in lines {
        add_line(rows, *line)?;
    }
    Ok(())
}

impl Connections {
    /// These lines, each in the null context, Inactive, on hook, silent and with an empty Events descriptor, and nothing else. A
    /// line that is named twice is one line.
    pub fn new(alloc: Global, lines: &[LineNo]) -> Result<Connections, AllocError>
        ensures board { IfOk result (λ c. board_in c ≡ opened (is_of_class 0 1) (started lines.now)) }
        ensures lines { IfOk result (λ c. line_in c ≡ (λ l. new_line)) }
    {
        Connections::with_ids(alloc, lines, 0, 1)
    }

    /// The same, where contexts and ephemerals are given numbers that leave `first` where they are divided by `stride`, and no others.
    pub fn with_ids(
        alloc: Global,
        lines: &[LineNo],
        first: u32,
        stride: u32,
    ) -> Result<Connections, AllocError>
        requires { first < stride }
        ensures board { IfOk result (λ c. board_in c ≡ opened (is_of_class first stride) (started lines.now)) }
        ensures lines { IfOk result (λ c. line_in c ≡ (λ l. new_line)) }
    {
        let board = Board::with_ids(alloc, lines, first, stride)?;
        let mut rows = LineSet::new(alloc);
        add_lines(&mut rows, lines)?;
        Ok(Connections {
            alloc,
            board: Box::new(alloc, board)?,
            lines: Box::new(alloc, rows)?,
        })
    }

    /// An equal value.
    pub fn copy(&self) -> Result<Connections, AllocError>
        ensures board { IfOk result (λ copied. board_in copied ≡ board_in self.now) }
        ensures lines { IfOk result (λ copied. line_in copied ≡ line_in self.now) }
    {
        let board = self.board.copy()?;
        let lines = self.lines.copy()?;
        Ok(Connections {
            alloc: self.alloc,
            board: Box::new(self.alloc, board)?,
            lines: Box::new(self.alloc, lines)?,
        })
    }

    /// The connection model.
    pub fn board(&self) -> &Board
        ensures { result.now ≡ self.now.board_value }
    {
        &*self.board
    }

    /// The row of a line; `None` where it isn't there.
    pub fn line(&self, line: LineNo) -> Option<&LineRow>
        ensures { option_map (λ row. row.now) result ≡ line_there self.now line.0 }
    {
        self.lines.row(line)
    }

    /// Whether a line is there.
    pub fn has_line(&self, line: LineNo) -> bool
        ensures { result ≡ has_line (board_in self.now) line.0 }
    {
        self.board.get(TermId::Line(line)).is_some()
    }

    /// Whether a line is there, in the null context.
    pub fn is_idle(&self, line: LineNo) -> bool
        ensures { result ≡ is_idle (board_in self.now) line.0 }
    {
        match self.board.get(TermId::Line(line)) {
            Some(row) => row.place == ContextId::NULL,
            None => false,
        }
    }
}

impl Connections {
    /// A command on the connection model.
    pub(crate) fn exec(&mut self, item: &Item) -> Result<Done, ExecFault>
        ensures executed { IfOk result (IsExecuted (board_in self.old) item.now (board_in self.new)) }
        ensures refused { IfErr result (IsFault (board_in self.old) item.now) }
        ensures unchanged { OnErr result (board_in self.new ≡ board_in self.old) }
        ensures lines { line_in self.new ≡ line_in self.old }
    {
        self.board.exec(item)
    }

    /// A command that is legal, on the connection model.
    pub(crate) fn carry_out(&mut self, item: &Item) -> Result<Done, AllocError>
        requires { IsLegal (board_in self.old) item.now }
        ensures executed { IfOk result (IsExecuted (board_in self.old) item.now (board_in self.new)) }
        ensures unchanged { OnErr result (board_in self.new ≡ board_in self.old) }
        ensures lines { line_in self.new ≡ line_in self.old }
    {
        self.board.carry_out(item)
    }

    /// A request has ended: from now on the numbers of contexts and ephemerals that are no more may be given again.
    pub(crate) fn settle(&mut self)
        ensures board { IsSettled (board_in self.old) (board_in self.new) }
        ensures lines { line_in self.new ≡ line_in self.old }
    {
        self.board.settle();
    }

    /// The code of a command for which a refusal is chosen: its own code, unless the chosen one goes before it. Want of numbers, 510, goes
    /// after a chosen 500.
    pub(crate) fn refused(&self, item: &Item, chosen: Refusal) -> Code
        ensures { IsRefusedWith (board_in self.now) item.now (Some chosen) result }
    {
        match self.board.refusal(item) {
            None => chosen.code(),
            Some(Code::InsufficientResources) => chosen.code(),
            Some(code) => code,
        }
    }

    /// The descriptors of a command, and then the lines that left, which are cleared; the note that the command raises.
    pub(crate) fn describe(
        &mut self,
        described: &Option<(LineNo, &LineDescriptors)>,
        gone: &[LineNo],
        number: u32,
    ) -> Result<Option<LineNote>, AllocError>
        requires { IsThere (board_in self.old) (line_described described.now) }
        ensures board { board_in self.new ≡ board_in self.old }
        ensures lines { OnOk result (line_in self.new ≡ row_in (map (λ l. l.0) gone.now) (line_described described.now) (line_in self.old) number) }
        ensures note { IfOk result (λ note. noted note ≡ raised_on (line_in self.old) (line_described described.now) number) }
    {
        let note = set_described(&mut *self.lines, described, number)?;
        clear_lines(&mut *self.lines, gone);
        Ok(note)
    }
}
