//! What a city line asks of each plain element of its nodes.
ghost use Rattle.std.specs.Prelude.{◌≡◌, ◌↔◌, ◌<◌, ℕ, List, [], codes, length, get_or, false, IsTrue};
ghost use Rattle.std.specs.List.{AllByRecursion};
ghost use Rattle.serde_json.specs.declared.value.Value.{Value};
ghost use Rattle.serde_json.specs.Data.{Data, object, depth};
ghost use Rattle.serde_json.specs.Find.{get, get_member};
ghost use Rattle.serde_json.specs.View.{view, items_view, members_view};
ghost use Rattle.iris_tree.specs.NamesKind.{is_kind_of};
ghost use Rattle.iris_base.specs.Forms.{IsTag};
ghost use Rattle.iris_json.specs.Objects.{TextAt};
ghost use Rattle.iris_json.specs.CityParts.{Spot, listed, spots_of};
ghost use Rattle.iris_json.specs.CityRows.{EachMember, IsTextData, MayHaveText, MayHaveList, HasTextAttrs, HasPlainShape, IsAttrName, HasAttrNames, HasFreeTag, HasTextOrKids, PlainHas};

use crate::city::CityWhy;
use crate::keys::{Members, has_only, list_at, text_at, value_at};
use iris_tree::{Kind, Tag};
use serde_json::Value;

/// The list at a key of a value; empty where there is none.
pub fn listed<'a>(value: &'a Value, key: &str) -> &'a [Value]
    ensures value { items_view result.now ≡ listed (get key.now (view value.now)) }
    ensures nests { (i : ℕ) (v : Value) → i < length result.now → v ≡ get_or result.now i v → depth (view v) < depth (view value.now) }
{
    match value.as_object() {
        Some(members) => items_of(members, key),
        None => &[],
    }
}

// The list at a key of an object; empty where there is none.
fn items_of<'a>(members: &'a Members, key: &str) -> &'a [Value]
    ensures value { items_view result.now ≡ listed (get_member key.now (members_view members.now.entries)) }
    ensures nests { (i : ℕ) (v : Value) → i < length result.now → v ≡ get_or result.now i v → depth (view v) < depth (object (members_view members.now.entries)) }
{
    match list_at(members, key) {
        Some(items) => items,
        None => &[],
    }
}

/// Whether the attributes, if there are any, are an object of texts.
pub fn has_text_attrs(members: &Members) -> bool
    ensures { IsTrue result ↔ HasTextAttrs (object (members_view members.now.entries)) }
{
    match value_at(members, "attrs") {
        None => true,
        Some(value) => match value.as_object() {
            Some(attrs) => are_texts(attrs),
            None => false,
        },
    }
}

/// Whether a key has a text.
pub fn has_text(members: &Members, key: &str) -> bool
    ensures { IsTrue result ↔ ((text : List ℕ) × TextAt key.now (object (members_view members.now.entries)) text) }
{
    text_at(members, key).is_some()
}

/// Whether a value is a text.
pub fn is_text(value: &Value) -> bool
    ensures { IsTrue result ↔ IsTextData (view value.now) }
{
    value.as_str().is_some()
}

// Whether each member is a text.
fn are_texts(members: &Members) -> bool
    ensures { IsTrue result ↔ EachMember (λ key value. IsTextData value) (members_view members.now.entries) }
{
    for (_key, value) in members {
        if !is_text(value) {
            return false;
        }
    }
    true
}

/// Whether a key has a list, or is missing.
pub fn may_list(members: &Members, key: &str) -> bool
    ensures { IsTrue result ↔ MayHaveList key.now (object (members_view members.now.entries)) }
{
    match value_at(members, key) {
        None => true,
        Some(value) => value.as_array().is_some(),
    }
}

// Whether a value has the keys and types of a plain element.
fn has_shape(value: &Value) -> bool
    ensures { IsTrue result ↔ HasPlainShape (view value.now) }
{
    let Some(members) = value.as_object() else {
        return false;
    };
    if !has_only(members, &["tag", "attrs", "text", "kids"]) {
        return false;
    }
    if !has_text(members, "tag") {
        return false;
    }
    if !has_text_attrs(members) {
        return false;
    }
    if !may_text(members, "text") {
        return false;
    }
    may_list(members, "kids")
}

/// Whether a key has a text, or is missing.
pub fn may_text(members: &Members, key: &str) -> bool
    ensures { IsTrue result ↔ MayHaveText key.now (object (members_view members.now.entries)) }
{
    match value_at(members, key) {
        None => true,
        Some(value) => value.as_str().is_some(),
    }
}

// Whether the name of an attribute is well formed and not `id`.
fn is_attr_name(name: &str) -> bool
    ensures { IsTrue result ↔ IsAttrName name.now }
{
    name != "id" && Tag::new(name).is_ok()
}

// Whether each key is the name of an attribute, and not `id`.
fn are_attr_names(members: &Members) -> bool
    ensures { IsTrue result ↔ EachMember (λ name value. IsAttrName name) (members_view members.now.entries) }
{
    for (key, _value) in members {
        if !is_attr_name(key.as_str()) {
            return false;
        }
    }
    true
}

/// Whether the names of a value's attributes are well formed and not `id`.
pub fn has_attr_names(value: &Value) -> bool
    ensures { IsTrue result ↔ HasAttrNames (view value.now) }
{
    let Some(members) = value.as_object() else {
        return true;
    };
    match value_at(members, "attrs").and_then(Value::as_object) {
        Some(attrs) => are_attr_names(attrs),
        None => true,
    }
}

// Whether a tag is one of the kinds.
fn is_kind(kinds: &[Kind], tag: &str) -> bool
    ensures { result ≡ is_kind_of kinds.now tag.now }
{
    kinds.iter().any(|kind| kind.as_str() == tag)
}

// Whether a tag is well formed and none of the kinds.
fn is_free(kinds: &[Kind], tag: &str) -> bool
    ensures { IsTrue result ↔ (IsTag tag.now × (is_kind_of kinds.now tag.now ≡ false)) }
{
    Tag::new(tag).is_ok() && !is_kind(kinds, tag)
}

// Whether the tag of a plain element, if it has one, is well formed and none of the kinds.
fn has_free_tag(kinds: &[Kind], members: &Members) -> bool
    ensures { IsTrue result ↔ HasFreeTag kinds.now (object (members_view members.now.entries)) }
{
    match text_at(members, "tag") {
        Some(tag) => is_free(kinds, tag),
        None => true,
    }
}

// Whether a plain element has no kids beside a text.
fn has_text_or_kids(members: &Members) -> bool
    ensures { IsTrue result ↔ HasTextOrKids (object (members_view members.now.entries)) }
{
    match text_at(members, "text") {
        Some(text) => text.is_empty() || items_of(members, "kids").is_empty(),
        None => true,
    }
}

// Whether the tag of a plain element is right, and it has no kids beside a text.
fn is_right(kinds: &[Kind], value: &Value) -> bool
    ensures { IsTrue result ↔ (HasFreeTag kinds.now (view value.now) × HasTextOrKids (view value.now)) }
{
    match value.as_object() {
        Some(members) => has_free_tag(kinds, members) && has_text_or_kids(members),
        None => true,
    }
}

// Whether a plain element itself has what the row asks.
fn has(why: CityWhy, kinds: &[Kind], value: &Value) -> bool
    ensures { (earlier : List Data) → IsTrue result ↔ PlainHas why kinds.now (record { earlier = earlier; value = view value.now }) }
{
    match why {
        CityWhy::Shape => has_shape(value),
        CityWhy::Attribute => has_attr_names(value),
        CityWhy::Plain => is_right(kinds, value),
        _ => true,
    }
}

/// Whether each plain element below a value has what the row asks, at every depth.
pub fn all_have(why: CityWhy, kinds: &[Kind], value: &Value, key: &str) -> bool
    ensures { IsTrue result ↔ AllByRecursion (PlainHas why kinds.now) (spots_of (codes "kids") [] (listed (get key.now (view value.now)))) }
{
    for item in listed(value, key) {
        if !has(why, kinds, item) {
            return false;
        }
        if !all_have(why, kinds, item, "kids") {
            return false;
        }
    }
    true
}
