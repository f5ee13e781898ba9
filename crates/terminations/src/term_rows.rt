//! Rows of lines by number.
ghost use Rattle.std.specs.Prelude.{◌≡◌, ℕ, ◌==◌, Some, None, OnOk, OnErr, IfOk, if◌then◌else◌};
ghost use Rattle.std.specs.HashMap.{IsUnchanged};
ghost use Rattle.terminations.specs.Table.{row_at, overwritten};
ghost use Rattle.terminations.specs.Rows.{row_set, set_on};
ghost use Rattle.identifiers.specs.Stock.{at, is_used};
ghost use Rattle.mg_model.specs.Board.{null_row};
ghost use Rattle.mg_model.specs.Items.{remote_set};

use identifiers::Identifiers;
use mg_model::items::{RemoteSetting, Settings};
use mg_model::rows::Row;
use mg_names::identifiers::ContextId;
use mg_names::modes::Mode;
use std::alloc::AllocError;
use std::collections::HashMap;

pub(crate) type Rows = HashMap<u32, Row>;

/// The row of a termination in the null context: Inactive, with no Remote (H.248.1 section 6.2).
pub const IDLE: Row = Row {
    place: ContextId::NULL,
    mode: Mode::Inactive,
    remote: None,
};

/// The row at a number.
pub(crate) fn row_at(rows: &Rows, number: u32) -> Option<Row>
    ensures { result ≡ row_at rows.now.entries number }
{
    rows.get(&number).copied()
}

/// Writes a row at a number that has one.
pub(crate) fn overwrite(rows: &mut Rows, number: u32, row: Row)
    ensures { (n : ℕ) → row_at rows.new.entries n ≡ (if n == number then overwritten row (row_at rows.old.entries number) else row_at rows.old.entries n) }
{
    if let Some(place) = rows.get_mut(&number) {
        *place = row;
    }
}

/// The Remote after a command.
fn remote_set(remote: Option<RemoteSetting>, was: Option<u32>) -> Option<u32>
    ensures { result ≡ remote_set remote was }
{
    match remote {
        None => was,
        Some(RemoteSetting::Nothing) => None,
        Some(RemoteSetting::Ephemeral(number)) => Some(number),
    }
}

/// The row with what a command sets, in the context that it is put into; where it stands, if it is put into none.
fn row_set(row: Row, context: Option<ContextId>, settings: &Settings) -> Row
    ensures { result ≡ row_set context settings.now row }
{
    Row {
        place: context.unwrap_or(row.place),
        mode: settings.mode.unwrap_or(row.mode),
        remote: remote_set(settings.remote, row.remote),
    }
}

/// Sets what a command sets on the row at a number, in one look-up.
pub(crate) fn set(rows: &mut Rows, number: u32, context: Option<ContextId>, settings: &Settings)
    ensures { (n : ℕ) → row_at rows.new.entries n ≡ (if n == number then set_on context settings.now (row_at rows.old.entries number) else row_at rows.old.entries n) }
{
    if let Some(row) = rows.get_mut(&number) {
        *row = row_set(*row, context, settings);
    }
}

/// Sets what a command sets on the row of an ephemeral.
pub(crate) fn set_ephemeral(
    rows: &mut Identifiers<Row>,
    number: u32,
    context: Option<ContextId>,
    settings: &Settings,
)
    ensures rows { (n : ℕ) → at rows.new n ≡ (if n == number then set_on context settings.now (at rows.old number) else at rows.old n) }
    ensures used { (n : ℕ) → is_used rows.new n ≡ is_used rows.old n }
    ensures class { rows.new.class ≡ rows.old.class }
{
    let Some(row) = rows.get(number).copied() else {
        return;
    };
    let _ = rows.replace(number, row_set(row, context, settings));
}

/// Writes an idle row at a number.
pub(crate) fn insert_idle(rows: &mut Rows, number: u32) -> Result<(), AllocError>
    ensures ok { OnOk result ((n : ℕ) → row_at rows.new.entries n ≡ (if n == number then Some null_row else row_at rows.old.entries n)) }
    ensures err { OnErr result (rows.new.entries ≡ rows.old.entries) }
{
    rows.insert(number, IDLE)?;
    Ok(())
}

/// Makes every row idle.
pub(crate) fn make_idle(rows: &mut Rows)
    ensures { (n : ℕ) → row_at rows.new.entries n ≡ overwritten null_row (row_at rows.old.entries n) }
{
    rows.retain(|_, row| {
        *row = IDLE;
        true
    });
}

/// An equal value.
pub(crate) fn copy(rows: &Rows) -> Result<Rows, AllocError>
    ensures { IfOk result (λ copied. copied.entries ≡ rows.now.entries) }
{
    rows.clone()
}
