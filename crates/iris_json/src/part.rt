//! What stands at the keys of a line of a script.
ghost use Rattle.std.specs.Prelude.{◌≡◌, ◌≤◌, ℕ, ◌∷◌, true, false, map, codes, string_bytes, Some, None, IfOk, IfErr, IfSome, option_map, option_and_then};
ghost use Rattle.std.specs.BTreeMap.{keys};
ghost use Rattle.std.specs.List.{list_all, list_any};
ghost use Rattle.std.specs.Str.{bytes_eq};
ghost use Rattle.serde_json.specs.Data.{unsigned, string, object};
ghost use Rattle.serde_json.specs.Find.{get_member, as_number};
ghost use Rattle.serde_json.specs.View.{view, number_view, members_view};
ghost use Rattle.iris_base.specs.declared.limits.TheConstants.{MAX_NUMBER};
ghost use Rattle.iris_base.specs.Forms.{IsId, IsAgentId};
ghost use Rattle.iris_json.specs.declared.line.LineWhy.{LineWhy};
ghost use Rattle.iris_json.specs.declared.part.JsonType.{JsonType};
ghost use Rattle.iris_json.specs.Objects.{is_among, all_among};
ghost use Rattle.iris_json.specs.LineTable.{a_name, an_id, an_agent, a_number, a_change_list, is_of_type, stands};
ghost use Rattle.iris_json.specs.Slots.{slot_key, slot_stands, has_slots};
ghost use Rattle.iris_json.specs.Lines.{NameAt, WholeAt, BoundAt, ChangesAt, RefusesPart};

use crate::changes::changes_in;
use crate::keys::{Members, list_at, text_at, value_at};
use crate::line::{LineError, NAME, NUMBER};
use iris_tree::{AgentId, Change, Id, MAX_NUMBER, Name, Sequence, read_name};
use serde_json::{Number, Value};
use std::alloc::Global;

/// A type of JSON values.
#[derive(Clone, Copy, Debug, PartialEq, Eq)]
pub enum JsonType {
    Text,
    Number,
    Array,
}

/// A key of a line, with the type of what stands at it.
#[derive(Clone, Copy)]
pub enum Slot<'a> {
    /// The line needs the key.
    Has(&'a str, JsonType),
    /// The line may be without it.
    May(&'a str, JsonType),
}

// Whether the value is of the type.
fn is_of_type(value: &Value, of: JsonType) -> bool
    ensures { result ≡ is_of_type of (view value.now) }
{
    match of {
        JsonType::Text => value.as_str().is_some(),
        JsonType::Number => value.as_number().is_some(),
        JsonType::Array => value.as_array().is_some(),
    }
}

// Whether a value of the type stands at the key, or nothing where the key is not needed.
fn stands_at(members: &Members, key: &str, of: JsonType, needed: bool) -> bool
    ensures { result ≡ stands of needed (get_member key.now (members_view members.now.entries)) }
{
    match value_at(members, key) {
        Some(value) => is_of_type(value, of),
        None => !needed,
    }
}

impl<'a> Slot<'a> {
    // The key.
    fn key(&self) -> &'a str
        ensures { result.now ≡ slot_key self.now }
    {
        match self {
            Slot::Has(key, _) | Slot::May(key, _) => key,
        }
    }

    // Whether what stands there is as the slot asks.
    fn stands(&self, members: &Members) -> bool
        ensures { result ≡ slot_stands (object (members_view members.now.entries)) self.now }
    {
        match self {
            Slot::Has(key, of) => stands_at(members, key, *of, true),
            Slot::May(key, of) => stands_at(members, key, *of, false),
        }
    }
}

// Whether the key is that of a slot.
fn is_key_of(slots: &[Slot], key: &str) -> bool
    ensures { result ≡ list_any (λ slot. bytes_eq (slot_key slot) key.now) slots.now }
{
    slots.iter().any(|slot| slot.key() == key)
}

// Whether the key is `do` or that of a slot.
fn is_known(slots: &[Slot], key: &str) -> bool
    ensures { result ≡ is_among (codes "do" ∷ map slot_key slots.now) key.now }
{
    "do" == key || is_key_of(slots, key)
}

// Whether each key of the map is `do` or that of a slot.
fn are_known(members: &Members, slots: &[Slot]) -> bool
    ensures { result ≡ list_all (λ key. is_among (codes "do" ∷ map slot_key slots.now) (string_bytes key)) (keys members.now) }
{
    members.keys().all(|key| is_known(slots, key.as_str()))
}

// Whether each key of the object is `do` or that of a slot.
fn knows_all(members: &Members, slots: &[Slot]) -> bool
    ensures { result ≡ all_among (codes "do" ∷ map slot_key slots.now) (members_view members.now.entries) }
{
    are_known(members, slots)
}

// Whether what stands at the key of each slot is as the slot asks.
fn all_stand(members: &Members, slots: &[Slot]) -> bool
    ensures { result ≡ list_all (slot_stands (object (members_view members.now.entries))) slots.now }
{
    slots.iter().all(|slot| slot.stands(members))
}

/// Whether an object has, beside `do`, just the keys of these slots, each as its slot asks.
pub fn has_slots(members: &Members, slots: &[Slot]) -> bool
    ensures { result ≡ has_slots slots.now (object (members_view members.now.entries)) }
{
    knows_all(members, slots) && all_stand(members, slots)
}

/// The text at a key that has one.
pub fn text_of<'a>(members: &'a Members, key: &str) -> &'a str
    requires there { stands JsonType.Text true (get_member key.now (members_view members.now.entries)) ≡ true }
    ensures { get_member key.now (members_view members.now.entries) ≡ Some (string result.now) }
{
    match text_at(members, key) {
        Some(text) => text,
        None => unreachable!(),
    }
}

/// The name whose text stands at `name`.
pub fn name_of(alloc: Global, members: &Members) -> Result<Name, LineError>
    requires there { stands JsonType.Text true (get_member (codes "name") (members_view members.now.entries)) ≡ true }
    ensures found { IfOk result (NameAt (object (members_view members.now.entries))) }
    ensures refused { IfErr result (RefusesPart LineWhy.Name a_name (get_member (codes "name") (members_view members.now.entries))) }
{
    Ok(read_name(alloc, text_of(members, "name"))?)
}

/// The id whose text stands at a key.
pub fn id_of(members: &Members, key: &str) -> Result<Id, LineError>
    requires there { stands JsonType.Text true (get_member key.now (members_view members.now.entries)) ≡ true }
    ensures found { IfOk result (λ id. (get_member key.now (members_view members.now.entries) ≡ Some (string id)) × IsId id) }
    ensures refused { IfErr result (RefusesPart LineWhy.Name an_id (get_member key.now (members_view members.now.entries))) }
{
    match Id::new(text_of(members, key)) {
        Ok(id) => Ok(id),
        Err(_) => Err(NAME),
    }
}

/// The agent whose id's text stands at a key.
pub fn agent_of(members: &Members, key: &str) -> Result<AgentId, LineError>
    requires there { stands JsonType.Text true (get_member key.now (members_view members.now.entries)) ≡ true }
    ensures found { IfOk result (λ agent. (get_member key.now (members_view members.now.entries) ≡ Some (string agent)) × IsAgentId agent) }
    ensures refused { IfErr result (RefusesPart LineWhy.Name an_agent (get_member key.now (members_view members.now.entries))) }
{
    match AgentId::new(text_of(members, key)) {
        Ok(agent) => Ok(agent),
        Err(_) => Err(NAME),
    }
}

// The whole number that a number is, from the least to the greatest.
fn whole(number: &Number, least: u64, most: u64) -> Option<u64>
    ensures found { IfSome result (λ n. (number_view number.now ≡ unsigned n) × (least ≤ n) × (n ≤ most)) }
    ensures missing { result ≡ None → (n : ℕ) → number_view number.now ≡ unsigned n → least ≤ n → n ≤ most → ⊥ }
{
    let value = number.as_u64()?;
    if value < least || value > most {
        return None;
    }
    Some(value)
}

// The number at a key; none where the key is missing or its value is no number.
fn number_at<'a>(members: &'a Members, key: &str) -> Option<&'a Number>
    ensures { option_map (λ n. number_view n.now) result ≡ option_and_then as_number (get_member key.now (members_view members.now.entries)) }
{
    value_at(members, key).and_then(Value::as_number)
}

/// The whole number from the least to the greatest that stands at a key.
pub fn whole_of(members: &Members, key: &str, least: u64, most: u64) -> Result<u64, LineError>
    requires there { stands JsonType.Number true (get_member key.now (members_view members.now.entries)) ≡ true }
    ensures found { IfOk result (WholeAt key.now (object (members_view members.now.entries))) }
    ensures range { IfOk result (λ n. (least ≤ n) × (n ≤ most)) }
    ensures refused { IfErr result (RefusesPart LineWhy.Number (a_number least most) (get_member key.now (members_view members.now.entries))) }
{
    let Some(number) = number_at(members, key) else {
        unreachable!()
    };
    match whole(number, least, most) {
        Some(n) => Ok(n),
        None => Err(NUMBER),
    }
}

/// The bound that stands at `bound`, if one does.
pub fn bound_of(members: &Members) -> Result<Option<u64>, LineError>
    requires there { stands JsonType.Number false (get_member (codes "bound") (members_view members.now.entries)) ≡ true }
    ensures found { IfOk result (BoundAt (object (members_view members.now.entries))) }
    ensures range { IfOk result (λ bound. IfSome bound (λ b. b ≤ MAX_NUMBER)) }
    ensures refused { IfErr result (RefusesPart LineWhy.Number (a_number 0 MAX_NUMBER) (get_member (codes "bound") (members_view members.now.entries))) }
{
    if value_at(members, "bound").is_none() {
        return Ok(None);
    }
    Ok(Some(whole_of(members, "bound", 0, MAX_NUMBER)?))
}

/// The changes that stand at `change`.
pub fn changes_of(alloc: Global, members: &Members) -> Result<Sequence<Change>, LineError>
    requires there { stands JsonType.Array true (get_member (codes "change") (members_view members.now.entries)) ≡ true }
    ensures found { IfOk result (ChangesAt (object (members_view members.now.entries))) }
    ensures refused { IfErr result (RefusesPart LineWhy.Change a_change_list (get_member (codes "change") (members_view members.now.entries))) }
{
    match list_at(members, "change") {
        Some(items) => changes_in(alloc, items),
        None => unreachable!(),
    }
}
