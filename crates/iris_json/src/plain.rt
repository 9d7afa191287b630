//! The attributes and the plain elements of a line.
ghost use Rattle.std.specs.Prelude.{◌≡◌, ℕ, List, codes, IfOk, IfErr};
ghost use Rattle.std.specs.Str.{IsUtf8};
ghost use Rattle.serde_json.specs.Data.{string, object, Items};
ghost use Rattle.serde_json.specs.View.{view, items_view, members_view};
ghost use Rattle.iris_base.specs.Forms.{IsTag};
ghost use Rattle.iris_tree.specs.declared.plain.Plain.{Plain};
ghost use Rattle.iris_tree.specs.Attrs.{Pairs};
ghost use Rattle.iris_tree.specs.LocalText.{attrs_members};
ghost use Rattle.iris_tree.specs.PlainOrder.{IsCanonicalPlain, AreCanonical};
ghost use Rattle.iris_json.specs.Objects.{TextAt};
ghost use Rattle.iris_json.specs.PlainForm.{AreNames, AreTexts, IsPlainForm, ArePlainForms};
ghost use Rattle.iris_json.specs.PlainLine.{ItemsAt, AttrsAt, OwnTextAt, PlainOwnAt, IsPlain, PlainsAt};
ghost use Rattle.iris_json.specs.CityKeys.{GivesCityPart};

use crate::city::FormError;
use crate::keys::{Members, has_only, text_at, value_at};
use iris_tree::{Attrs, Plain, Sequence, Tag, Text};
use serde_json::Value;
use std::alloc::Global;

/// The list at a key; empty where the key is missing.
pub fn items_at<'a>(members: &'a Members, key: &str) -> Result<&'a [Value], FormError>
    ensures found { IfOk result (λ items. ItemsAt key.now (object (members_view members.now.entries)) (items_view items.now)) }
    ensures only { (items : Items) → ItemsAt key.now (object (members_view members.now.entries)) items → IfOk result (λ found. items_view found.now ≡ items) }
    ensures refused { IfErr result (λ e. (items : Items) → ItemsAt key.now (object (members_view members.now.entries)) items → ⊥) }
{
    match value_at(members, key) {
        None => Ok(&[]),
        Some(value) => match value.as_array() {
            Some(items) => Ok(items.as_slice()),
            None => Err(FormError::Shape),
        },
    }
}

// The name and the value of an attribute.
fn read_attr(alloc: Global, name: &str, value: &Value) -> Result<(Tag, Text), FormError>
    ensures found { IfOk result (λ attr. (attr.0 ≡ name.now) × IsTag name.now × (view value.now ≡ string attr.1)) }
    ensures utf8 { IfOk result (λ attr. IsUtf8 attr.1) }
    ensures only { (text : List ℕ) → IsTag name.now → view value.now ≡ string text → GivesCityPart result (name.now, text) }
{
    let Some(text) = value.as_str() else {
        return Err(FormError::Shape);
    };
    let Ok(tag) = Tag::new(name) else {
        return Err(FormError::Shape);
    };
    let text = String::from_str(alloc, text)?;
    Ok((tag, Text::from_string(text)))
}

// The attributes that these members are.
fn read_members(alloc: Global, members: &Members) -> Result<Attrs, FormError>
    ensures found { IfOk result (λ attrs. (members_view members.now.entries ≡ attrs_members attrs) × AreNames attrs) }
    ensures texts { IfOk result AreTexts }
    ensures only { (pairs : Pairs) → members_view members.now.entries ≡ attrs_members pairs → AreNames pairs → GivesCityPart result pairs }
{
    let mut attrs = Attrs::new(alloc);
    for (name, value) in members {
        let (tag, text) = read_attr(alloc, name.as_str(), value)?;
        attrs.insert(tag, text)?;
    }
    Ok(attrs)
}

/// The attributes at the key `attrs`; none where the key is missing.
#[tactic(auto, using(crate::proofs::AttrReading::no_texts))]
pub fn read_attrs(alloc: Global, members: &Members) -> Result<Attrs, FormError>
    ensures found { IfOk result (λ attrs. AttrsAt (object (members_view members.now.entries)) attrs) }
    ensures texts { IfOk result AreTexts }
    ensures only { (pairs : Pairs) → AttrsAt (object (members_view members.now.entries)) pairs → GivesCityPart result pairs }
{
    match value_at(members, "attrs") {
        None => Ok(Attrs::new(alloc)),
        Some(value) => match value.as_object() {
            Some(attrs) => read_members(alloc, attrs),
            None => Err(FormError::Shape),
        },
    }
}

// The tag at the key `tag`.
fn read_tag(members: &Members) -> Result<Tag, FormError>
    ensures found { IfOk result (λ tag. TextAt (codes "tag") (object (members_view members.now.entries)) tag × IsTag tag) }
    ensures only { (tag : List ℕ) → TextAt (codes "tag") (object (members_view members.now.entries)) tag → IsTag tag → GivesCityPart result tag }
{
    let Some(text) = text_at(members, "tag") else {
        return Err(FormError::Shape);
    };
    match Tag::new(text) {
        Ok(tag) => Ok(tag),
        Err(_) => Err(FormError::Shape),
    }
}

// The text at the key `text`; empty where the key is missing.
fn read_text(alloc: Global, members: &Members) -> Result<Text, FormError>
    ensures found { IfOk result (λ text. OwnTextAt (object (members_view members.now.entries)) text) }
    ensures utf8 { IfOk result IsUtf8 }
    ensures only { (text : List ℕ) → OwnTextAt (object (members_view members.now.entries)) text → GivesCityPart result text }
{
    let text = match value_at(members, "text") {
        None => "",
        Some(value) => match value.as_str() {
            Some(text) => text,
            None => return Err(FormError::Shape),
        },
    };
    let text = String::from_str(alloc, text)?;
    Ok(Text::from_string(text))
}

// What a plain element holds itself.
fn read_own(alloc: Global, members: &Members) -> Result<(Tag, Attrs, Text), FormError>
    ensures found { IfOk result (λ own. PlainOwnAt (object (members_view members.now.entries)) own.0 own.1 own.2) }
    ensures texts { IfOk result (λ own. AreTexts own.1 × IsUtf8 own.2) }
    ensures only { (tag : List ℕ) (attrs : Pairs) (text : List ℕ) → PlainOwnAt (object (members_view members.now.entries)) tag attrs text → GivesCityPart result (tag, attrs, text) }
{
    if !has_only(members, &["tag", "attrs", "text", "kids"]) {
        return Err(FormError::Shape);
    }
    let tag = read_tag(members)?;
    let attrs = read_attrs(alloc, members)?;
    let text = read_text(alloc, members)?;
    Ok((tag, attrs, text))
}

/// The plain element that a value is, with its kids in the order of their texts at every depth. As
/// `serde_json` reads no text that nests deeper than 127, no more than 64 levels are read.
pub fn read_plain(alloc: Global, value: &Value) -> Result<Plain, FormError>
    ensures found { IfOk result (λ plain. IsPlain (view value.now) plain) }
    ensures form { IfOk result IsPlainForm }
    ensures canonical { IfOk result IsCanonicalPlain }
    ensures only { (plain : Plain) → IsPlain (view value.now) plain → GivesCityPart result plain }
{
    let Some(members) = value.as_object() else {
        return Err(FormError::Shape);
    };
    let (tag, attrs, text) = read_own(alloc, members)?;
    let items = items_at(members, "kids")?;
    if !items.is_empty() && !text.as_str().is_empty() {
        return Err(FormError::Shape);
    }
    let mut kids = Vec::with_capacity(alloc, items.len())?;
    for item in items {
        kids.push(read_plain(alloc, item)?)?;
    }
    Ok(Plain {
        tag,
        attrs,
        text,
        kids: Plain::siblings(kids)?,
    })
}

/// The plain elements at the key `plain`, in the order of their texts; none where the key is missing.
pub fn read_plains(alloc: Global, members: &Members) -> Result<Sequence<Plain>, FormError>
    ensures found { IfOk result (λ plains. PlainsAt (object (members_view members.now.entries)) plains) }
    ensures form { IfOk result ArePlainForms }
    ensures canonical { IfOk result AreCanonical }
    ensures only { (plains : List Plain) → PlainsAt (object (members_view members.now.entries)) plains → GivesCityPart result plains }
{
    let items = items_at(members, "plain")?;
    let mut plains = Vec::with_capacity(alloc, items.len())?;
    for item in items {
        plains.push(read_plain(alloc, item)?)?;
    }
    Ok(Plain::siblings(plains)?)
}
