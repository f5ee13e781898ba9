//! Reading typed values of a plan from its tree, for a script: what a step names is looked up where it is read.
ghost use Rattle.std.specs.Prelude.{◌≡◌, List, Option, map};
ghost use Rattle.toml.specs.View.{view, table_view};
ghost use Rattle.toml.specs.Data.{Data};
ghost use Rattle.mg_model.specs.Script as table;
ghost use Rattle.typed_values.specs.Shape.{Gives};
ghost use Rattle.typed_values.specs.Keys.{list_of, needed, listed};

use script_table::Script;
use std::alloc::Global;
use toml::{Table, Value};
use typed_values::{Missing, member};

/// How many places a list has from the start, if it comes to so many.
const FIRST_ROOM: usize = 4;

/// A type of values that a plan holds: `meaning` says what of a tree a value is read from, for a script, and `seen` what a value says.
pub(crate) trait ReadsFor: Drop {
    ghost Seen: { Type 0 };

    ghost seen: { Self → Seen };

    ghost meaning: { table.Script → Data → Option Seen };

    /// Reads a value; `Nothing` where the tree has no meaning, and `Memory` where memory runs out.
    fn read(alloc: Global, script: &Script, value: &Value) -> Result<Self, Missing>
        ensures { Gives seen result (meaning script.now (view value.now)) };
}

/// The items of an array.
pub(crate) fn items<T: ReadsFor>(
    alloc: Global,
    script: &Script,
    value: &Value,
) -> Result<Vec<T>, Missing>
    ensures { Gives (λ v. map T.seen v.items) result (list_of (T.meaning script.now) (view value.now)) }
{
    let Some(array) = value.as_array() else {
        return Err(Missing::Nothing);
    };
    let mut found = Vec::with_capacity(alloc, array.len().min(FIRST_ROOM))?;
    for item in array {
        found.push(T::read(alloc, script, item)?)?;
    }
    Ok(found)
}

/// The items of the array at a key that has to be there.
pub(crate) fn needed_items<T: ReadsFor>(
    alloc: Global,
    script: &Script,
    table: &Table,
    key: &str,
) -> Result<Vec<T>, Missing>
    ensures { Gives (λ v. map T.seen v.items) result (needed (list_of (T.meaning script.now)) key.now (table_view table.now)) }
{
    match member(table, key) {
        Some(value) => items(alloc, script, value),
        None => Err(Missing::Nothing),
    }
}

/// The items of the array at a key, none where it is left out.
pub(crate) fn listed_items<T: ReadsFor>(
    alloc: Global,
    script: &Script,
    table: &Table,
    key: &str,
) -> Result<Vec<T>, Missing>
    ensures { Gives (λ v. map T.seen v.items) result (listed (T.meaning script.now) key.now (table_view table.now)) }
{
    match member(table, key) {
        Some(value) => items(alloc, script, value),
        None => Ok(Vec::new(alloc)),
    }
}
