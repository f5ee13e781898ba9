//! Reading typed values from a document's tree. Each type says what of the tree it reads; arrays, options and objects
//! of it are then read by what stands here. The only fault is a bad key.
ghost use Rattle.std.specs.Prelude.{◌≡◌, option_map, List, Option, map, IfOk, string_bytes};
ghost use Rattle.std.specs.List.{list_all};
ghost use Rattle.std.specs.Map.{keys_of};
ghost use Rattle.std.specs.Map.Iter.{deref_pair};
ghost use Rattle.serde_json.specs.View.{view, members_view};
ghost use Rattle.serde_json.specs.Data.{Data};
ghost use Rattle.serde_json.specs.Find.{as_str, as_object};
ghost use Rattle.typed_values.specs.Names.{is_among};
ghost use Rattle.typed_values.specs.Shape.{Gives};
ghost use Rattle.certificate.specs.Keys.{row_of, table_of, needed, optional, tabled, has_only, Expects};

use serde_json::{Map, Value};
use std::alloc::{AllocError, Global};
use typed_values::{Missing, Word, Words, is_among};

/// How many places a list has from the start, if it comes to so many. Most lists of a certificate have one value, and take the room of one.
const FIRST_ROOM: usize = 4;

/// A type of values that a document holds.
pub trait Reads: Drop {
    ghost Seen: { Type 0 };

    ghost seen: { Self → Seen };

    ghost meaning: { Data → Option Seen };

    /// Reads a value.
    fn read(alloc: Global, value: &Value) -> Result<Self, Missing>
        ensures { Gives seen result (meaning (view value.now)) };
}

/// The members of an object.
type Object = Map<String, Value>;

/// The text of a value.
pub(crate) fn text(value: &Value) -> Result<&str, Missing>
    ensures { Gives (λ t. t.now) result (as_str (view value.now)) }
{
    match value.as_str() {
        Some(text) => Ok(text),
        None => Err(Missing::Nothing),
    }
}

/// The members of a value.
fn object(value: &Value) -> Result<&Object, Missing>
    ensures { Gives (λ o. members_view o.now.entries) result (as_object (view value.now)) }
{
    match value.as_object() {
        Some(object) => Ok(object),
        None => Err(Missing::Nothing),
    }
}

/// The keys of an object in their order, each with its value.
fn entries(alloc: Global, object: &Object) -> Result<Vec<(&String, &Value)>, AllocError>
    ensures { IfOk result (λ v. map deref_pair v.items ≡ object.now.entries) }
{
    object.iter().collect(alloc)
}

/// Whether each key of an object is one of these.
fn are_keys(object: &Object, keys: &[&str]) -> bool
    ensures { result ≡ list_all (λ key. is_among (string_bytes key) (map (λ k. k.now) keys.now)) (keys_of object.now.entries) }
{
    object.keys().all(|key| is_among(key.as_str(), keys))
}

/// Whether a value is an object that has no other keys than these.
fn has_only(value: &Value, keys: &[&str]) -> bool
    ensures { result ≡ has_only (map (λ k. k.now) keys.now) (view value.now) }
{
    match value.as_object() {
        Some(object) => are_keys(object, keys),
        None => false,
    }
}

/// That a value is an object that has no other keys than these.
pub(crate) fn expect_only(value: &Value, keys: &[&str]) -> Result<(), Missing>
    ensures { Expects result (has_only (map (λ k. k.now) keys.now) (view value.now)) }
{
    if has_only(value, keys) {
        return Ok(());
    }
    Err(Missing::Nothing)
}

/// The value at a key that has to be there.
pub(crate) fn needed<T: Reads>(alloc: Global, object: &Value, key: &str) -> Result<T, Missing>
    ensures { Gives T.seen result (needed T.meaning key.now (view object.now)) }
{
    match object.get(key) {
        Some(value) => T::read(alloc, value),
        None => Err(Missing::Nothing),
    }
}

/// The value at a key that may be left out.
pub(crate) fn optional<T: Reads>(
    alloc: Global,
    object: &Value,
    key: &str,
) -> Result<Option<T>, Missing>
    ensures { Gives (option_map T.seen) result (optional T.meaning key.now (view object.now)) }
{
    match object.get(key) {
        Some(value) => Ok(Some(T::read(alloc, value)?)),
        None => Ok(None),
    }
}

impl<T: Reads> Reads for Vec<T> {
    ghost use Rattle.std.specs.Prelude.{List, map};
    ghost use Rattle.certificate.specs.Keys.{list_of};

    ghost Seen = { List T.Seen };

    ghost seen = { λ v. map T.seen v.items };

    ghost meaning = { list_of T.meaning };

    fn read(alloc: Global, value: &Value) -> Result<Vec<T>, Missing> {
        let Some(array) = value.as_array() else {
            return Err(Missing::Nothing);
        };
        let mut found = Vec::with_capacity(alloc, array.len().min(FIRST_ROOM))?;
        for item in array {
            found.push(T::read(alloc, item)?)?;
        }
        Ok(found)
    }
}

/// A member of an object whose keys are free.
#[derive(Drop)]
pub struct Row<T> {
    /// Its key.
    pub name: Word,
    /// What it holds.
    pub value: T,
}

/// The members of the object at a key, none where it is left out. Their keys are free.
pub(crate) fn tabled<T: Reads>(
    alloc: Global,
    object: &Value,
    key: &str,
) -> Result<Vec<Row<T>>, Missing>
    ensures { Gives (λ v. map (λ r. (r.name, T.seen r.value)) v.items) result
        (tabled T.meaning key.now (view object.now)) }
{
    match object.get(key) {
        Some(value) => rows(alloc, value),
        None => Ok(Vec::new(alloc)),
    }
}

/// A member of an object.
fn read_row<T: Reads>(alloc: Global, name: &str, value: &Value) -> Result<Row<T>, Missing>
    ensures { Gives (λ r. (r.name, T.seen r.value)) result (row_of T.meaning (name.now, view value.now)) }
{
    let value = T::read(alloc, value)?;
    let name = Word::copy(alloc, name)?;
    Ok(Row { name, value })
}

/// The members of an object.
fn rows<T: Reads>(alloc: Global, value: &Value) -> Result<Vec<Row<T>>, Missing>
    ensures { Gives (λ v. map (λ r. (r.name, T.seen r.value)) v.items) result (table_of T.meaning (view value.now)) }
{
    let members = entries(alloc, object(value)?)?;
    let mut found = Vec::with_capacity(alloc, members.len().min(FIRST_ROOM))?;
    for (name, value) in &members {
        found.push(read_row(alloc, name.as_str(), value)?)?;
    }
    Ok(found)
}

impl Reads for Word {
    ghost use Rattle.std.specs.Prelude.{List, ℕ};
    ghost use Rattle.serde_json.specs.Find.{as_str};

    ghost Seen = { List ℕ };

    ghost seen = { λ w. w };

    ghost meaning = { as_str };

    fn read(alloc: Global, value: &Value) -> Result<Word, Missing> {
        let text = text(value)?;
        Ok(Word::copy(alloc, text)?)
    }
}

impl Reads for Words {
    ghost use Rattle.std.specs.Prelude.{List, ℕ};
    ghost use Rattle.certificate.specs.Document.{words_meant};

    ghost Seen = { List (List ℕ) };

    ghost seen = { λ w. w };

    ghost meaning = { words_meant };

    fn read(alloc: Global, value: &Value) -> Result<Words, Missing> {
        let words = Vec::<Word>::read(alloc, value)?;
        Ok(Words::new(words))
    }
}

impl Reads for u64 {
    ghost use Rattle.std.specs.Prelude.{ℕ};
    ghost use Rattle.certificate.specs.Document.{whole_meant};

    ghost Seen = { ℕ };

    ghost seen = { λ n. n };

    ghost meaning = { whole_meant };

    fn read(_alloc: Global, value: &Value) -> Result<u64, Missing> {
        value.as_u64().ok_or(Missing::Nothing)
    }
}
