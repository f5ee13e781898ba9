//! The lines of a gateway.
ghost use Rattle.std.specs.Prelude.{◌≡◌, ℕ, Some, None, OnOk, OnErr, IfOk, option_map};
ghost use Rattle.mg_model.specs.LineEvents.{new_line, armed, hooked, flashed, dialled, paused, signalled, signal_ended, cleared, stays};

use crate::fault::LineFault;
use crate::list::EventList;
use crate::note::Note;
use crate::row::LineRow;
use crate::rows::{self, Rows};
use mg_model::line_events::{Hook, SignalSet};
use mg_names::identifiers::LineNo;
use mg_names::signals::Signal;
use mg_names::symbols::Symbol;
use std::alloc::{AllocError, Global};
use std::collections::HashMap;
use std::marker::Model;

/// The lines of a gateway, each with its hook state, its Events descriptor and the signals that play. A call answers the note that
/// it raises, or nothing where none can come. One that names a line that isn't there answers `UnknownLine`; only `add_line`, `arm` and `copy` take memory, and want of it changes nothing.
#[derive(Drop)]
pub struct LineSet {
    alloc: Global,
    rows: Rows,
}

impl Model for LineSet {
    ghost use Rattle.std.specs.Prelude.{ℕ, List};
    ghost use Rattle.mg_model.specs.LineEvents as model;

    ghost Value = { List (ℕ × model.LineRow) };

    ghost view = { λ s. s.rows.entries };
}

impl LineSet {
    ghost use Rattle.line_events.specs.Answers.{noteless};
    ghost use Rattle.line_events.specs.Rows.{row_of, rows_after, answer_on, is_memory, IsAdded};
    ghost use Rattle.mg_model.specs.Memory.{IsOrNoMemory};
    ghost use Rattle.mg_model.specs.Updates.{with_at};

    /// No line.
    #[tactic(auto, unfolding(crate::specs::Rows::row_of))]
    pub fn new(alloc: Global) -> LineSet
        ensures { row_of result ≡ (λ n. None) }
    {
        LineSet {
            alloc,
            rows: HashMap::new(alloc),
        }
    }

    /// An equal value.
    pub fn copy(&self) -> Result<LineSet, AllocError>
        ensures { IfOk result (λ copied. copied ≡ self.now) }
    {
        let rows = rows::copy(&self.rows)?;
        Ok(LineSet {
            alloc: self.alloc,
            rows,
        })
    }

    /// The row of a line; `None` where there is no such line.
    pub fn row(&self, line: LineNo) -> Option<&LineRow>
        ensures { option_map (λ row. row.now) result ≡ row_of self.now line.0 }
    {
        rows::row(&self.rows, line.0)
    }

    /// Adds a line: on hook, silent, with an empty Events descriptor. `CannotHappen` where it is there.
    pub fn add_line(&mut self, line: LineNo) -> Result<(), LineFault>
        ensures answer { IsAdded result (row_of self.old line.0) }
        ensures rows { OnOk result (row_of self.new ≡ with_at (row_of self.old) line.0 (Some new_line)) }
        ensures unchanged { OnErr result (row_of self.new ≡ row_of self.old) }
    {
        if rows::row(&self.rows, line.0).is_some() {
            return Err(LineFault::CannotHappen);
        }
        match rows::add(&mut self.rows, self.alloc, line.0) {
            Ok(()) => Ok(()),
            Err(_) => Err(LineFault::NoMemory),
        }
    }

    /// Gives a line a new Events descriptor in place of the one that it has (H.248.1 section 7.1.9). A hook state that stands and
    /// that an item with `strict=state` names is detected at once (Annex E.9).
    pub fn arm(
        &mut self,
        line: LineNo,
        list: &EventList,
        request: u32,
    ) -> Result<Option<Note>, LineFault>
        ensures answer { IsOrNoMemory is_memory result (answer_on (row_of self.old line.0) (λ row. Some (armed row list.now request))) }
        ensures rows { OnOk result (row_of self.new ≡ rows_after (row_of self.old) line.0 (λ row. Some (armed row list.now request))) }
        ensures unchanged { OnErr result (row_of self.new ≡ row_of self.old) }
    {
        rows::arm(&mut self.rows, self.alloc, line.0, list, request)
    }

    /// The hook of a line goes to a state (Annex E.9). `CannotHappen` where it is in that state.
    pub fn hook(&mut self, line: LineNo, hook: Hook) -> Result<Option<Note>, LineFault>
        ensures answer { result ≡ answer_on (row_of self.old line.0) (λ row. hooked row hook) }
        ensures rows { row_of self.new ≡ rows_after (row_of self.old) line.0 (λ row. hooked row hook) }
    {
        rows::hook(&mut self.rows, line.0, hook)
    }

    /// The user of a line flashes the hook (Annex E.9). `CannotHappen` on hook (this profile's own).
    pub fn flash(&mut self, line: LineNo) -> Result<Option<Note>, LineFault>
        ensures answer { result ≡ answer_on (row_of self.old line.0) (λ row. flashed row) }
        ensures rows { row_of self.new ≡ rows_after (row_of self.old) line.0 (λ row. flashed row) }
    {
        rows::flash(&mut self.rows, line.0)
    }

    /// The user of a line dials a symbol (Annex E.6). `CannotHappen` on hook (this profile's own).
    pub fn digit(&mut self, line: LineNo, symbol: Symbol) -> Result<Option<Note>, LineFault>
        ensures answer { result ≡ answer_on (row_of self.old line.0) (λ row. dialled row symbol) }
        ensures rows { row_of self.new ≡ rows_after (row_of self.old) line.0 (λ row. dialled row symbol) }
    {
        rows::digit(&mut self.rows, line.0, symbol)
    }

    /// The timer of a line's digit map ends (H.248.1 section 7.1.14). `CannotHappen` where no map collects.
    pub fn pause(&mut self, line: LineNo) -> Result<Option<Note>, LineFault>
        ensures answer { result ≡ answer_on (row_of self.old line.0) (λ row. paused row) }
        ensures rows { row_of self.new ≡ rows_after (row_of self.old) line.0 (λ row. paused row) }
    {
        rows::pause(&mut self.rows, line.0)
    }

    /// A line is given a new Signals descriptor (H.248.1 section 7.1.11): exactly what it names plays.
    pub fn signal(&mut self, line: LineNo, set: SignalSet) -> Result<(), LineFault>
        ensures answer { noteless result ≡ answer_on (row_of self.old line.0) (λ row. Some (signalled row set)) }
        ensures rows { row_of self.new ≡ rows_after (row_of self.old) line.0 (λ row. Some (signalled row set)) }
    {
        rows::signal(&mut self.rows, line.0, set)
    }

    /// A signal that plays on a line ends, at any moment (this profile's own). `CannotHappen` where it doesn't play.
    pub fn signal_end(&mut self, line: LineNo, signal: Signal) -> Result<(), LineFault>
        ensures answer { noteless result ≡ answer_on (row_of self.old line.0) (λ row. signal_ended row signal) }
        ensures rows { row_of self.new ≡ rows_after (row_of self.old) line.0 (λ row. signal_ended row signal) }
    {
        rows::signal_end(&mut self.rows, line.0, signal)
    }

    /// A line is silent and its Events descriptor empty, with no RequestID; its hook state stays (this profile's own).
    pub fn clear(&mut self, line: LineNo) -> Result<(), LineFault>
        ensures answer { noteless result ≡ answer_on (row_of self.old line.0) (λ row. Some (stays (cleared row))) }
        ensures rows { row_of self.new ≡ rows_after (row_of self.old) line.0 (λ row. Some (stays (cleared row))) }
    {
        rows::clear(&mut self.rows, line.0)
    }

    /// Every line is silent and its Events descriptor empty, with no RequestID; hook states stay (this profile's own).
    pub fn clear_all(&mut self)
        ensures { row_of self.new ≡ (λ n. option_map cleared (row_of self.old n)) }
    {
        rows::clear_all(&mut self.rows);
    }
}
