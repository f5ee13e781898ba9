//! Reading typed values from a document's tree. Each type says what of the tree it reads; arrays and options of it are
//! then read by what stands here. The only fault is a bad key.
ghost use Rattle.std.specs.Prelude.{◌≡◌, option_map, Option, List, map, IfOk, string_bytes};
ghost use Rattle.std.specs.List.{list_all};
ghost use Rattle.std.specs.Map.Iter.{deref_pair};
ghost use Rattle.toml.specs.View.{view, table_view};
ghost use Rattle.toml.specs.Data.{Data, get_member, as_str, as_array, as_table, as_bool};
ghost use Rattle.typed_values.specs.Names.{is_among};
ghost use Rattle.typed_values.specs.Shape.{Gives};
ghost use Rattle.typed_values.specs.Keys.{list_of, needed, optional, listed, has_only};

use crate::missing::Missing;
use crate::names::is_among;
use crate::word::Word;
use std::alloc::{AllocError, Global};
use toml::{Table, Value};

/// How many places a list has from the start, if it comes to so many. Most lists of a script are short, and take no more room than they need.
const FIRST_ROOM: usize = 4;

/// A type of values that a TOML document holds: `meaning` says what of a tree a value of the type is read from, and
/// `seen` what a value says.
pub trait Reads: Drop {
    ghost Seen: { Type 0 };

    ghost seen: { Self → Seen };

    ghost meaning: { Data → Option Seen };

    /// Reads a value; `Nothing` where the tree has no meaning, and `Memory` where memory runs out.
    fn read(alloc: Global, value: &Value) -> Result<Self, Missing>
        ensures { Gives seen result (meaning (view value.now)) };
}

/// The text of a value; `Nothing` where it is none.
pub fn text(value: &Value) -> Result<&str, Missing>
    ensures { Gives (λ t. t.now) result (as_str (view value.now)) }
{
    match value.as_str() {
        Some(text) => Ok(text),
        None => Err(Missing::Nothing),
    }
}

/// The table of a value; `Nothing` where it is none.
pub fn table(value: &Value) -> Result<&Table, Missing>
    ensures { Gives (λ t. table_view t.now) result (as_table (view value.now)) }
{
    match value.as_table() {
        Some(table) => Ok(table),
        None => Err(Missing::Nothing),
    }
}

/// The value at a key of a table, where there is one.
pub fn member<'a>(table: &'a Table, key: &str) -> Option<&'a Value>
    ensures { option_map (λ v. view v.now) result ≡ get_member key.now (table_view table.now) }
{
    table.get(key)
}

/// The keys of a table in their order, each with its value.
pub fn entries(alloc: Global, table: &Table) -> Result<Vec<(&String, &Value)>, AllocError>
    ensures { IfOk result (λ v. map deref_pair v.items ≡ table.now.entries) }
{
    table.iter().collect(alloc)
}

/// Whether each of these keys is one of those.
fn are_among(keys: &[(&String, &Value)], texts: &[&str]) -> bool
    ensures { result ≡ list_all (λ p. is_among (string_bytes p.0.now) (map (λ t. t.now) texts.now)) keys.now }
{
    keys.iter().all(|entry| is_among(entry.0.as_str(), texts))
}

/// Whether a table has no other keys than these.
pub fn has_only(alloc: Global, table: &Table, keys: &[&str]) -> Result<bool, AllocError>
    ensures { IfOk result (λ r. r ≡ has_only (map (λ k. k.now) keys.now) (table_view table.now)) }
{
    let entries = entries(alloc, table)?;
    Ok(are_among(entries.as_slice(), keys))
}

/// The value at a key that has to be there; `Nothing` where it is not, or is not of the type.
pub fn needed<T: Reads>(alloc: Global, table: &Table, key: &str) -> Result<T, Missing>
    ensures { Gives T.seen result (needed T.meaning key.now (table_view table.now)) }
{
    match member(table, key) {
        Some(value) => T::read(alloc, value),
        None => Err(Missing::Nothing),
    }
}

/// The value at a key that may be left out; `Nothing` where it is not of the type.
pub fn optional<T: Reads>(alloc: Global, table: &Table, key: &str) -> Result<Option<T>, Missing>
    ensures { Gives (option_map T.seen) result (optional T.meaning key.now (table_view table.now)) }
{
    match member(table, key) {
        Some(value) => Ok(Some(T::read(alloc, value)?)),
        None => Ok(None),
    }
}

/// The items of an array.
fn items<T: Reads>(alloc: Global, value: &Value) -> Result<Vec<T>, Missing>
    ensures { Gives (λ v. map T.seen v.items) result (list_of T.meaning (view value.now)) }
{
    let Some(array) = value.as_array() else {
        return Err(Missing::Nothing);
    };
    let mut found = Vec::with_capacity(alloc, array.len().min(FIRST_ROOM))?;
    for item in array {
        found.push(T::read(alloc, item)?)?;
    }
    Ok(found)
}

/// The items of the array at a key, none where it is left out; `Nothing` where it is no array, or an item is not of the
/// type.
pub fn listed<T: Reads>(alloc: Global, table: &Table, key: &str) -> Result<Vec<T>, Missing>
    ensures { Gives (λ v. map T.seen v.items) result (listed T.meaning key.now (table_view table.now)) }
{
    match member(table, key) {
        Some(value) => items(alloc, value),
        None => Ok(Vec::new(alloc)),
    }
}

/// The items of the array at a key that has to be there; `Nothing` where there is none, or an item is not of the type.
pub fn needed_list<T: Reads>(alloc: Global, table: &Table, key: &str) -> Result<Vec<T>, Missing>
    ensures { Gives (λ v. map T.seen v.items) result (needed (list_of T.meaning) key.now (table_view table.now)) }
{
    if member(table, key).is_none() {
        return Err(Missing::Nothing);
    }
    listed(alloc, table, key)
}

impl Reads for Word {
    ghost use Rattle.std.specs.Prelude.{List, ℕ};
    ghost use Rattle.toml.specs.Data.{as_str};

    ghost Seen = { List ℕ };

    ghost seen = { λ w. w };

    ghost meaning = { as_str };

    fn read(alloc: Global, value: &Value) -> Result<Word, Missing> {
        let text = text(value)?;
        Ok(Word::copy(alloc, text)?)
    }
}

impl Reads for bool {
    ghost use Rattle.std.specs.Prelude.{Bool};
    ghost use Rattle.toml.specs.Data.{as_bool};

    ghost Seen = { Bool };

    ghost seen = { λ b. b };

    ghost meaning = { as_bool };

    fn read(_alloc: Global, value: &Value) -> Result<bool, Missing> {
        match value.as_bool() {
            Some(value) => Ok(value),
            None => Err(Missing::Nothing),
        }
    }
}
