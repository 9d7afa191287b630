//! The members of a JSON object.
ghost use Rattle.std.specs.Prelude.{◌≡◌, ◌≢◌, map, string_bytes, Some, None, Err, IfOk, IfSome, option_map, option_and_then};
ghost use Rattle.std.specs.BTreeMap.{keys};
ghost use Rattle.std.specs.List.{list_all, list_any};
ghost use Rattle.std.specs.Str.{bytes_eq};
ghost use Rattle.serde_json.specs.Data.{Data, array, item, no_items};
ghost use Rattle.serde_json.specs.Find.{get_member, as_str, as_array};
ghost use Rattle.serde_json.specs.View.{view, items_view, members_view};
ghost use Rattle.iris_json.specs.Objects.{all_among};
ghost use Rattle.iris_json.specs.Lines.{IsJson};

use serde_json::{Map, Value};
use std::alloc::Global;

/// Why bytes gave no value.
#[derive(Clone, Copy, Debug, PartialEq, Eq)]
pub enum ValueError {
    /// They are no JSON text.
    NotJson,
    /// There was no memory.
    Memory,
}

/// The value of a JSON text.
pub fn read_value(alloc: Global, bytes: &[u8]) -> Result<Value, ValueError>
    ensures found { IfOk result (λ value. IsJson bytes.now (view value)) }
    ensures not_json { result ≡ Err ValueError.NotJson → (d : Data) → IsJson bytes.now d → ⊥ }
{
    match Value::from_slice(alloc, bytes) {
        Ok(value) => Ok(value),
        Err(error) => {
            if error.is_memory() {
                Err(ValueError::Memory)
            } else {
                Err(ValueError::NotJson)
            }
        }
    }
}

/// An object as `serde_json` reads it: each key once, the last value of equal keys.
pub type Members = Map<String, Value>;

// Whether the key is one of these.
fn is_among(keys: &[&str], key: &str) -> bool
    ensures { result ≡ list_any (λ known. bytes_eq known.now key.now) keys.now }
{
    keys.iter().any(|known| *known == key)
}

// Whether each key of the map is one of these.
fn are_among(members: &Members, known: &[&str]) -> bool
    ensures { result ≡ list_all (λ key. list_any (λ k. bytes_eq k.now (string_bytes key)) known.now) (keys members.now) }
{
    members.keys().all(|key| is_among(known, key.as_str()))
}

/// Whether each key of the object is one of these.
pub fn has_only(members: &Members, known: &[&str]) -> bool
    ensures { result ≡ all_among (map (λ key. key.now) known.now) (members_view members.now.entries) }
{
    are_among(members, known)
}

/// The value at a key; none where the key is missing.
pub fn value_at<'a>(members: &'a Members, key: &str) -> Option<&'a Value>
    ensures { option_map (λ value. view value.now) result ≡ get_member key.now (members_view members.now.entries) }
{
    members.get(key)
}

/// The text at a key; none where the key is missing or its value is no text.
pub fn text_at<'a>(members: &'a Members, key: &str) -> Option<&'a str>
    ensures { option_map (λ text. text.now) result ≡ option_and_then as_str (get_member key.now (members_view members.now.entries)) }
{
    value_at(members, key).and_then(Value::as_str)
}

/// The list at a key; none where the key is missing or its value is no list.
pub fn list_at<'a>(members: &'a Members, key: &str) -> Option<&'a [Value]>
    ensures { option_map (λ items. items_view items.now) result ≡ option_and_then as_array (get_member key.now (members_view members.now.entries)) }
{
    match value_at(members, key).and_then(Value::as_array) {
        Some(items) => Some(items.as_slice()),
        None => None,
    }
}

/// The value at a key whose value is a list of that one; none where the key is missing or its value is
/// no such list.
pub fn sole_at<'a>(members: &'a Members, key: &str) -> Option<&'a Value>
    ensures found { IfSome result (λ value. get_member key.now (members_view members.now.entries) ≡ Some (array (item (view value.now) no_items))) }
    ensures missing { result ≡ None → (d : Data) → get_member key.now (members_view members.now.entries) ≢ Some (array (item d no_items)) }
{
    let items = list_at(members, key)?;
    if items.len() == 1 {
        Some(&items[0])
    } else {
        None
    }
}
