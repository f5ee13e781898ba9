//! Rows by line number.
ghost use Rattle.std.specs.Prelude.{◌≡◌, ℕ, ◌==◌, Some, None, OnOk, OnErr, IfOk, IfSome, is_some, if◌then◌else◌, option_map};
ghost use Rattle.mg_model.specs.LineEvents.{new_line, armed, hooked, flashed, dialled, paused, signalled, signal_ended, cleared, stays};
ghost use Rattle.line_events.specs.Answers.{noteless};
ghost use Rattle.line_events.specs.Rows.{row_of, after, answer_on, is_memory};
ghost use Rattle.mg_model.specs.Memory.{IsOrNoMemory};

use crate::fault::LineFault;
use crate::list::EventList;
use crate::note::Note;
use crate::row::LineRow;
use mg_model::line_events::{Hook, SignalSet};
use mg_names::signals::Signal;
use mg_names::symbols::Symbol;
use std::alloc::{AllocError, Global};
use std::collections::HashMap;

pub(crate) type Rows = HashMap<u32, LineRow>;

/// The row of a line.
#[tactic(auto, unfolding(crate::specs::Rows::row_of))]
pub(crate) fn row(rows: &Rows, line: u32) -> Option<&LineRow>
    ensures { option_map (λ row. row.now) result ≡ row_of rows.now.entries line }
{
    rows.get(&line)
}

/// Writes the row of a new line.
#[tactic(auto, unfolding(crate::specs::Rows::row_of))]
pub(crate) fn add(rows: &mut Rows, alloc: Global, line: u32) -> Result<(), AllocError>
    ensures ok { OnOk result ((n : ℕ) → row_of rows.new.entries n ≡ (if n == line then Some new_line else row_of rows.old.entries n)) }
    ensures err { OnErr result (rows.new.entries ≡ rows.old.entries) }
{
    rows.insert(line, LineRow::new(alloc))?;
    Ok(())
}

/// Gives a line an equal list as its new Events descriptor; a fault leaves the rows as they were.
#[tactic(auto, unfolding(crate::specs::Rows::row_of))]
pub(crate) fn arm(
    rows: &mut Rows,
    alloc: Global,
    line: u32,
    list: &EventList,
    request: u32,
) -> Result<Option<Note>, LineFault>
    ensures answer { IsOrNoMemory is_memory result (answer_on (row_of rows.old.entries line) (λ row. Some (armed row list.now request))) }
    ensures rows { OnOk result ((n : ℕ) → row_of rows.new.entries n ≡ (if n == line then after (λ row. Some (armed row list.now request)) (row_of rows.old.entries line) else row_of rows.old.entries n)) }
    ensures unchanged { OnErr result ((n : ℕ) → row_of rows.new.entries n ≡ row_of rows.old.entries n) }
{
    let Some(row) = rows.get_mut(&line) else {
        return Err(LineFault::UnknownLine);
    };
    match row.arm(alloc, list, request) {
        Ok(note) => Ok(note),
        Err(_) => Err(LineFault::NoMemory),
    }
}

/// The hook of a line goes to a state.
#[tactic(auto, unfolding(crate::specs::Rows::row_of))]
pub(crate) fn hook(rows: &mut Rows, line: u32, hook: Hook) -> Result<Option<Note>, LineFault>
    ensures rows { (n : ℕ) → row_of rows.new.entries n ≡ (if n == line then after (λ row. hooked row hook) (row_of rows.old.entries line) else row_of rows.old.entries n) }
    ensures answer { result ≡ answer_on (row_of rows.old.entries line) (λ row. hooked row hook) }
{
    match rows.get_mut(&line) {
        Some(row) => row.hook(hook),
        None => Err(LineFault::UnknownLine),
    }
}

/// The user of a line flashes the hook.
#[tactic(auto, unfolding(crate::specs::Rows::row_of))]
pub(crate) fn flash(rows: &mut Rows, line: u32) -> Result<Option<Note>, LineFault>
    ensures rows { (n : ℕ) → row_of rows.new.entries n ≡ (if n == line then after (λ row. flashed row) (row_of rows.old.entries line) else row_of rows.old.entries n) }
    ensures answer { result ≡ answer_on (row_of rows.old.entries line) (λ row. flashed row) }
{
    match rows.get_mut(&line) {
        Some(row) => row.flash(),
        None => Err(LineFault::UnknownLine),
    }
}

/// The user of a line dials a symbol.
#[tactic(auto, unfolding(crate::specs::Rows::row_of))]
pub(crate) fn digit(rows: &mut Rows, line: u32, symbol: Symbol) -> Result<Option<Note>, LineFault>
    ensures rows { (n : ℕ) → row_of rows.new.entries n ≡ (if n == line then after (λ row. dialled row symbol) (row_of rows.old.entries line) else row_of rows.old.entries n) }
    ensures answer { result ≡ answer_on (row_of rows.old.entries line) (λ row. dialled row symbol) }
{
    match rows.get_mut(&line) {
        Some(row) => row.digit(symbol),
        None => Err(LineFault::UnknownLine),
    }
}

/// The timer of a line's digit map ends.
#[tactic(auto, unfolding(crate::specs::Rows::row_of))]
pub(crate) fn pause(rows: &mut Rows, line: u32) -> Result<Option<Note>, LineFault>
    ensures rows { (n : ℕ) → row_of rows.new.entries n ≡ (if n == line then after (λ row. paused row) (row_of rows.old.entries line) else row_of rows.old.entries n) }
    ensures answer { result ≡ answer_on (row_of rows.old.entries line) (λ row. paused row) }
{
    match rows.get_mut(&line) {
        Some(row) => row.pause(),
        None => Err(LineFault::UnknownLine),
    }
}

/// A line is given a new Signals descriptor.
#[tactic(auto, unfolding(crate::specs::Rows::row_of))]
pub(crate) fn signal(rows: &mut Rows, line: u32, set: SignalSet) -> Result<(), LineFault>
    ensures rows { (n : ℕ) → row_of rows.new.entries n ≡ (if n == line then after (λ row. Some (signalled row set)) (row_of rows.old.entries line) else row_of rows.old.entries n) }
    ensures answer { noteless result ≡ answer_on (row_of rows.old.entries line) (λ row. Some (signalled row set)) }
{
    match rows.get_mut(&line) {
        Some(row) => {
            row.signal(set);
            Ok(())
        }
        None => Err(LineFault::UnknownLine),
    }
}

/// A signal that plays on a line ends.
#[tactic(auto, unfolding(crate::specs::Rows::row_of))]
pub(crate) fn signal_end(rows: &mut Rows, line: u32, signal: Signal) -> Result<(), LineFault>
    ensures rows { (n : ℕ) → row_of rows.new.entries n ≡ (if n == line then after (λ row. signal_ended row signal) (row_of rows.old.entries line) else row_of rows.old.entries n) }
    ensures answer { noteless result ≡ answer_on (row_of rows.old.entries line) (λ row. signal_ended row signal) }
{
    match rows.get_mut(&line) {
        Some(row) => row.signal_end(signal),
        None => Err(LineFault::UnknownLine),
    }
}

/// A line is silent and its Events descriptor empty; its hook state stays.
#[tactic(auto, unfolding(crate::specs::Rows::row_of))]
pub(crate) fn clear(rows: &mut Rows, line: u32) -> Result<(), LineFault>
    ensures rows { (n : ℕ) → row_of rows.new.entries n ≡ (if n == line then after (λ row. Some (stays (cleared row))) (row_of rows.old.entries line) else row_of rows.old.entries n) }
    ensures answer { noteless result ≡ answer_on (row_of rows.old.entries line) (λ row. Some (stays (cleared row))) }
{
    match rows.get_mut(&line) {
        Some(row) => {
            row.clear();
            Ok(())
        }
        None => Err(LineFault::UnknownLine),
    }
}

/// Every line is silent and its Events descriptor empty; hook states stay.
#[tactic(auto, unfolding(crate::specs::Rows::row_of))]
pub(crate) fn clear_all(rows: &mut Rows)
    ensures { (n : ℕ) → row_of rows.new.entries n ≡ option_map cleared (row_of rows.old.entries n) }
{
    rows.retain(|_, row| {
        row.clear();
        true
    });
}

/// An equal value.
pub(crate) fn copy(rows: &Rows) -> Result<Rows, AllocError>
    ensures { IfOk result (λ copied. copied.entries ≡ rows.now.entries) }
{
    rows.clone()
}
