//! The changes of an update's line.
ghost use Rattle.std.specs.Prelude.{◌≡◌, ℕ, List, codes, IfOk, IfErr};
ghost use Rattle.serde_json.specs.Data.{string};
ghost use Rattle.serde_json.specs.View.{view, items_view};
ghost use Rattle.iris_base.specs.Forms.{IsTag};
ghost use Rattle.iris_tree.specs.declared.change.Change.{Change};
ghost use Rattle.iris_json.specs.declared.line.LineWhy.{LineWhy};
ghost use Rattle.iris_json.specs.ChangeLine.{pair_data, triple_data, IsChange, AreLineChanges};
ghost use Rattle.iris_json.specs.Lines.{ReadsChanges, Gives, RefusesChanges, RefusesLinePart};

use crate::city::FormError;
use crate::keys::read_value;
use crate::line::{LineError, LineWhy};
use crate::plain::read_plain;
use iris_tree::{Change, MAX_CHANGES, Sequence, Tag, Text};
use serde_json::Value;
use std::alloc::Global;

const CHANGE: LineError = LineError::BadLine {
    why: LineWhy::Change,
};

// The name of an attribute that a value is.
fn read_tag(value: &Value) -> Result<Tag, LineError>
    ensures found { IfOk result (λ tag. (view value.now ≡ string tag) × IsTag tag) }
    ensures refused { IfErr result (RefusesLinePart LineWhy.Change ((tag : List ℕ) → view value.now ≡ string tag → IsTag tag → ⊥)) }
{
    let Some(text) = value.as_str() else {
        return Err(CHANGE);
    };
    match Tag::new(text) {
        Ok(tag) => Ok(tag),
        Err(_) => Err(CHANGE),
    }
}

// The text that a value is.
fn read_text(alloc: Global, value: &Value) -> Result<Text, LineError>
    ensures found { IfOk result (λ text. view value.now ≡ string text) }
    ensures refused { IfErr result (RefusesLinePart LineWhy.Change ((text : List ℕ) → view value.now ≡ string text → ⊥)) }
{
    let Some(text) = value.as_str() else {
        return Err(CHANGE);
    };
    Ok(Text::of(alloc, text)?)
}

// The change of three parts: the word `attr`, a name, and the value that it gets.
fn attr_of(alloc: Global, word: &Value, name: &Value, text: &Value) -> Result<Change, LineError>
    ensures found { IfOk result (IsChange (triple_data (view word.now) (view name.now) (view text.now))) }
    ensures refused { IfErr result (RefusesLinePart LineWhy.Change ((change : Change) → IsChange (triple_data (view word.now) (view name.now) (view text.now)) change → ⊥)) }
{
    if word.as_str() != Some("attr") {
        return Err(CHANGE);
    }
    let name = read_tag(name)?;
    let value = read_text(alloc, text)?;
    Ok(Change::Attr { name, value })
}

// The change that takes away the attribute of that name.
fn drop_of(name: &Value) -> Result<Change, LineError>
    ensures found { IfOk result (IsChange (pair_data (string (codes "drop")) (view name.now))) }
    ensures refused { IfErr result (RefusesLinePart LineWhy.Change ((change : Change) → IsChange (pair_data (string (codes "drop")) (view name.now)) change → ⊥)) }
{
    let name = read_tag(name)?;
    Ok(Change::Drop { name })
}

// The change that puts that plain element.
fn put_of(alloc: Global, plain: &Value) -> Result<Change, LineError>
    ensures found { IfOk result (IsChange (pair_data (string (codes "put")) (view plain.now))) }
    ensures refused { IfErr result (RefusesLinePart LineWhy.Change ((change : Change) → IsChange (pair_data (string (codes "put")) (view plain.now)) change → ⊥)) }
{
    match read_plain(alloc, plain) {
        Ok(plain) => Ok(Change::Put { plain }),
        Err(FormError::Shape) => Err(CHANGE),
        Err(FormError::Memory) => Err(LineError::Memory),
    }
}

// The change of two parts: the word `drop` and a name, or the word `put` and a plain element.
fn drop_or_put(alloc: Global, word: &Value, other: &Value) -> Result<Change, LineError>
    ensures found { IfOk result (IsChange (pair_data (view word.now) (view other.now))) }
    ensures refused { IfErr result (RefusesLinePart LineWhy.Change ((change : Change) → IsChange (pair_data (view word.now) (view other.now)) change → ⊥)) }
{
    match word.as_str() {
        Some("drop") => drop_of(other),
        Some("put") => put_of(alloc, other),
        _ => Err(CHANGE),
    }
}

// The change that a value is.
fn read_change(alloc: Global, value: &Value) -> Result<Change, LineError>
    ensures found { IfOk result (IsChange (view value.now)) }
    ensures refused { IfErr result (RefusesLinePart LineWhy.Change ((change : Change) → IsChange (view value.now) change → ⊥)) }
{
    let Some(parts) = value.as_array() else {
        return Err(CHANGE);
    };
    match parts.as_slice() {
        [word, other] => drop_or_put(alloc, word, other),
        [word, name, text] => attr_of(alloc, word, name, text),
        _ => Err(CHANGE),
    }
}

/// The 1 to `MAX_CHANGES` changes that values are, in their order.
pub fn changes_in(alloc: Global, items: &[Value]) -> Result<Sequence<Change>, LineError>
    ensures found { IfOk result (λ changes. AreLineChanges (items_view items.now) changes) }
    ensures refused { IfErr result (RefusesLinePart LineWhy.Change ((changes : List Change) → AreLineChanges (items_view items.now) changes → ⊥)) }
{
    if items.is_empty() || items.len() > MAX_CHANGES {
        return Err(CHANGE);
    }
    let mut changes = Vec::with_capacity(alloc, items.len())?;
    for item in items {
        changes.push(read_change(alloc, item)?)?;
    }
    Ok(Sequence::from_vec(changes))
}

/// Reads the text of a list of 1 to `MAX_CHANGES` changes, as an update's line has it at `change`, in
/// their order. `NotJson` comes where the text is no JSON text, and `BadLine` with `Change` where it is
/// that of something else.
pub fn read_changes(alloc: Global, text: &str) -> Result<Sequence<Change>, LineError>
    ensures found { IfOk result (ReadsChanges text.now) }
    ensures only { (changes : List Change) → ReadsChanges text.now changes → Gives result changes }
    ensures refused { IfErr result (RefusesChanges text.now) }
{
    let value = read_value(alloc, text.as_bytes())?;
    match value.as_array() {
        Some(items) => changes_in(alloc, items.as_slice()),
        None => Err(CHANGE),
    }
}
