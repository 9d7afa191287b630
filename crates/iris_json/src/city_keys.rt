//! The keys of a city line, beside those of its nodes.
ghost use Rattle.std.specs.Prelude.{◌≡◌, ◌↔◌, ◌⊎◌, ◌<◌, ◌≤◌, ℕ, List, None, codes, length, map, IfOk, IfErr, IfSome, IsTrue};
ghost use Rattle.serde_json.specs.Data.{object, number, string, unsigned};
ghost use Rattle.serde_json.specs.Find.{get_member};
ghost use Rattle.serde_json.specs.View.{view, items_of, items_view, members_view};
ghost use Rattle.iris_base.specs.declared.limits.TheConstants.{MAX_AGENTS, MAX_CAPACITY};
ghost use Rattle.iris_base.specs.Forms.{IsWord};
ghost use Rattle.iris_json.specs.declared.city.Show.{Show};
ghost use Rattle.iris_json.specs.Zones.{IsZone};
ghost use Rattle.iris_json.specs.CityForm.{AreWords, AreCapacities};
ghost use Rattle.iris_json.specs.CityKeys.{KindsAt, AgentsAt, CapsAt, ZoneAt, ShowAt, cap_data, default_caps};
ghost use Rattle.iris_json.specs.CityReads.{HasNone};
ghost use Rattle.iris_json.specs.CityRows.{IsNumberData, IsTextPair, EachItem, HasListOf, HasCityKeys};
ghost use Rattle.iris_json.specs.Sorts.{IsOfSort};

use crate::city::{FormError, Show};
use crate::city_plains::{is_text, may_text};
use crate::keys::{Members, has_only, list_at, text_at, value_at};
use crate::zone::{UTC, Zone, ZoneError};
use iris_tree::{
    AgentId, DEFAULT_CAPACITY, Kind, MAX_AGENTS, MAX_CAPACITIES, MAX_CAPACITY, MAX_KINDS, Mem,
    Sequence, Short, Spelled,
};
use serde_json::Value;
use std::alloc::Global;

/// The keys of a city line.
pub const CITY_KEYS: [&str; 7] = ["kinds", "agents", "caps", "place", "tree", "zone", "show"];

// A sort of values.
#[derive(Clone, Copy, Debug)]
enum Sort {
    Text,
    Number,
    // A list of two texts.
    Pair,
}

// Whether a value is a list of two texts.
fn is_pair(value: &Value) -> bool
    ensures { IsTrue result ↔ IsTextPair (view value.now) }
{
    let Some(items) = value.as_array() else {
        return false;
    };
    if items.len() != 2 {
        return false;
    }
    is_text(&items[0]) && is_text(&items[1])
}

// Whether a value is a number.
fn is_number(value: &Value) -> bool
    ensures { IsTrue result ↔ IsNumberData (view value.now) }
{
    value.as_number().is_some()
}

// Whether a value is of the sort.
fn is_of(sort: Sort, value: &Value) -> bool
    ensures { IsTrue result ↔ IsOfSort sort (view value.now) }
{
    match sort {
        Sort::Text => is_text(value),
        Sort::Number => is_number(value),
        Sort::Pair => is_pair(value),
    }
}

// Whether each value is of the sort.
fn are_of(sort: Sort, items: &[Value]) -> bool
    ensures { IsTrue result ↔ EachItem (IsOfSort sort) (items_view items.now) }
{
    for item in items {
        if !is_of(sort, item) {
            return false;
        }
    }
    true
}

// Whether a key has a list of values of the sort.
fn has_list_of(members: &Members, sort: Sort, key: &str) -> bool
    ensures { IsTrue result ↔ HasListOf (IsOfSort sort) key.now (object (members_view members.now.entries)) }
{
    match list_at(members, key) {
        Some(items) => are_of(sort, items),
        None => false,
    }
}

// Whether the key `caps` has a list of numbers, or is missing.
fn may_have_caps(members: &Members) -> bool
    ensures { IsTrue result ↔ ((get_member (codes "caps") (members_view members.now.entries) ≡ None) ⊎ HasListOf IsNumberData (codes "caps") (object (members_view members.now.entries))) }
{
    if value_at(members, "caps").is_none() {
        return true;
    }
    has_list_of(members, Sort::Number, "caps")
}

/// What the key `show` tells to show, or else all; none where it tells another word or has no text.
pub fn read_show(members: &Members) -> Option<Show>
    ensures found { IfSome result (ShowAt (object (members_view members.now.entries))) }
    ensures missing { result ≡ None → (show : Show) → ShowAt (object (members_view members.now.entries)) show → ⊥ }
{
    if value_at(members, "show").is_none() {
        return Some(Show::All);
    }
    match text_at(members, "show") {
        Some("all") => Some(Show::All),
        Some("summary") => Some(Show::Summary),
        _ => None,
    }
}

/// Whether an object has the keys of a city line, and at each a value of the right type; the nodes are not
/// looked at.
pub fn has_city_keys(members: &Members) -> bool
    ensures { IsTrue result ↔ HasCityKeys (object (members_view members.now.entries)) }
{
    if !has_only(members, &CITY_KEYS) {
        return false;
    }
    if !has_list_of(members, Sort::Text, "kinds") {
        return false;
    }
    if !has_list_of(members, Sort::Text, "agents") {
        return false;
    }
    if !may_have_caps(members) {
        return false;
    }
    if !has_list_of(members, Sort::Pair, "place") {
        return false;
    }
    if !may_text(members, "zone") {
        return false;
    }
    read_show(members).is_some()
}

// The short text that a value is.
fn read_word<F: Spelled, const N: usize>(value: &Value) -> Option<Short<F, N>>
    requires fits { F.form.most ≤ N }
    requires small { N < 256 }
    ensures found { IfSome result (λ word. (view value.now ≡ string word) × IsWord F.form.first F.form.later F.form.most word) }
    ensures missing { result ≡ None → (word : List ℕ) → view value.now ≡ string word → IsWord F.form.first F.form.later F.form.most word → ⊥ }
{
    match Short::new(value.as_str()?) {
        Ok(word) => Some(word),
        Err(_) => None,
    }
}

// The different short texts of a list, 1 to so many, in its order.
fn read_words<F: Spelled, const N: usize>(
    alloc: Global,
    items: &[Value],
    most: usize,
) -> Result<Sequence<Short<F, N>>, FormError>
    requires fits { F.form.most ≤ N }
    requires small { N < 256 }
    ensures found { IfOk result (λ words. (items_view items.now ≡ items_of (map string words)) × AreWords (IsWord F.form.first F.form.later F.form.most) most words) }
    ensures refused { IfErr result (HasNone ((words : List (List ℕ)) → items_view items.now ≡ items_of (map string words) → AreWords (IsWord F.form.first F.form.later F.form.most) most words → ⊥)) }
{
    if items.is_empty() {
        return Err(FormError::Shape);
    }
    if items.len() > most {
        return Err(FormError::Shape);
    }
    let mut words = Vec::new(alloc);
    for item in items {
        let Some(word) = read_word(item) else {
            return Err(FormError::Shape);
        };
        if words.contains(&word) {
            return Err(FormError::Shape);
        }
        words.push(word)?;
    }
    Ok(Sequence::from_vec(words))
}

/// The different kinds at the key `kinds`.
pub fn read_kinds(alloc: Global, members: &Members) -> Result<Sequence<Kind>, FormError>
    ensures found { IfOk result (λ kinds. KindsAt (object (members_view members.now.entries)) kinds) }
    ensures refused { IfErr result (HasNone ((kinds : List (List ℕ)) → KindsAt (object (members_view members.now.entries)) kinds → ⊥)) }
{
    match list_at(members, "kinds") {
        Some(items) => read_words(alloc, items, MAX_KINDS),
        None => Err(FormError::Shape),
    }
}

/// The different agents at the key `agents`.
pub fn read_agents(alloc: Global, members: &Members) -> Result<Sequence<AgentId>, FormError>
    ensures found { IfOk result (λ agents. AgentsAt (object (members_view members.now.entries)) agents) }
    ensures refused { IfErr result (HasNone ((agents : List (List ℕ)) → AgentsAt (object (members_view members.now.entries)) agents → ⊥)) }
{
    match list_at(members, "agents") {
        Some(items) => read_words(alloc, items, MAX_AGENTS),
        None => Err(FormError::Shape),
    }
}

// The capacity that a value is.
fn read_cap(value: &Value) -> Option<u32>
    ensures found { IfSome result (λ cap. (view value.now ≡ number (unsigned cap)) × (0 < cap) × (cap ≤ MAX_CAPACITY)) }
    ensures missing { result ≡ None → (cap : ℕ) → view value.now ≡ number (unsigned cap) → 0 < cap → cap ≤ MAX_CAPACITY → ⊥ }
{
    let cap = value.as_u64()?;
    if cap == 0 {
        return None;
    }
    if cap > MAX_CAPACITY as u64 {
        return None;
    }
    Some(cap as u32)
}

// The capacities of a list, one for each of so many agents.
fn read_list_of_caps(
    alloc: Global,
    items: &[Value],
    agents: usize,
) -> Result<Sequence<u32>, FormError>
    ensures found { IfOk result (λ caps. (items_view items.now ≡ items_of (map cap_data caps)) × AreCapacities agents caps) }
    ensures refused { IfErr result (HasNone ((caps : List ℕ) → items_view items.now ≡ items_of (map cap_data caps) → AreCapacities agents caps → ⊥)) }
{
    if items.len() != agents {
        return Err(FormError::Shape);
    }
    let mut caps = Vec::with_capacity(alloc, agents)?;
    let mut together = 0;
    for item in items {
        let Some(cap) = read_cap(item) else {
            return Err(FormError::Shape);
        };
        together += cap as u64;
        if together > MAX_CAPACITIES {
            return Err(FormError::Shape);
        }
        caps.push(cap)?;
    }
    Ok(Sequence::from_vec(caps))
}

// The default capacities of so many agents.
fn default_caps(alloc: Global, agents: usize) -> Mem<Sequence<u32>>
    requires { agents ≤ MAX_AGENTS }
    ensures { IfOk result (λ caps. (caps ≡ default_caps agents) × AreCapacities agents caps) }
{
    Ok(Sequence::from_vec(vec![in alloc; DEFAULT_CAPACITY; agents]?))
}

/// The capacities of these agents, at the key `caps`, or else the default ones.
pub fn read_caps(
    alloc: Global,
    members: &Members,
    agents: &[AgentId],
) -> Result<Sequence<u32>, FormError>
    requires agents { length agents.now ≤ MAX_AGENTS }
    ensures found { IfOk result (λ caps. CapsAt (object (members_view members.now.entries)) agents.now caps) }
    ensures refused { IfErr result (HasNone ((caps : List ℕ) → CapsAt (object (members_view members.now.entries)) agents.now caps → ⊥)) }
{
    if value_at(members, "caps").is_none() {
        return Ok(default_caps(alloc, agents.len())?);
    }
    match list_at(members, "caps") {
        Some(items) => read_list_of_caps(alloc, items, agents.len()),
        None => Err(FormError::Shape),
    }
}

/// The zone at the key `zone`, or else that of UTC.
pub fn read_zone(alloc: Global, members: &Members) -> Result<Zone, FormError>
    ensures found { IfOk result (λ zone. ZoneAt (object (members_view members.now.entries)) zone × IsZone zone) }
    ensures refused { IfErr result (HasNone ((zone : List ℕ) → ZoneAt (object (members_view members.now.entries)) zone → IsZone zone → ⊥)) }
{
    let text = match value_at(members, "zone") {
        None => UTC,
        Some(value) => match value.as_str() {
            Some(text) => text,
            None => return Err(FormError::Shape),
        },
    };
    match Zone::read(alloc, text) {
        Ok(zone) => Ok(zone),
        Err(ZoneError::BadZone) => Err(FormError::Shape),
        Err(ZoneError::Memory) => Err(FormError::Memory),
    }
}
