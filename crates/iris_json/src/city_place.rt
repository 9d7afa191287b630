//! The names that a city line places, each at an agent.
ghost use Rattle.std.specs.Prelude.{◌≡◌, ◌||◌, ℕ, List, [], ◌∷◌, None, is_some, true, IfOk, IfErr, IfSome};
ghost use Rattle.std.specs.List.{find};
ghost use Rattle.std.specs.Str.{bytes_eq};
ghost use Rattle.serde_json.specs.Data.{object};
ghost use Rattle.serde_json.specs.View.{view, items_view, members_view};
ghost use Rattle.iris_base.specs.declared.name.Label.{Label};
ghost use Rattle.iris_base.specs.NameText.{name_text, IsName};
ghost use Rattle.std.specs.Cmp.Lexicographic.{pointwise};
ghost use Rattle.iris_base.specs.NameOrder.{label_eq};
ghost use Rattle.iris_tree.specs.Universe.{label_of, node_at};
ghost use Rattle.iris_json.specs.CityForm.{ArePlaced};
ghost use Rattle.iris_json.specs.CityKeys.{texts_data, PlaceAt};
ghost use Rattle.iris_json.specs.CityRows.{IsTextPair};
ghost use Rattle.iris_json.specs.Places.{IsPlaced, ArePlacedAt};
ghost use Rattle.iris_json.specs.CityReads.{HasNone};

use crate::city::FormError;
use crate::keys::{Members, list_at};
use iris_tree::{AgentId, Name, NameError, Sequence, Tree, read_name};
use serde_json::Value;
use std::alloc::Global;
use std::collections::HashSet;

// The one of these agents that the text is.
fn agent_of(agents: &[AgentId], text: &str) -> Option<AgentId>
    ensures { result ≡ find (λ agent. bytes_eq agent text.now) agents.now }
{
    agents.iter().copied().find(|agent| agent.as_str() == text)
}

// The node's name that a text is.
fn read_node_name(alloc: Global, tree: &Tree, text: &str) -> Result<Name, FormError>
    ensures found { IfOk result (λ name. (text.now ≡ name_text name) × IsName name × (is_some (node_at tree.now name) ≡ true)) }
    ensures refused { IfErr result (HasNone ((name : List Label) → text.now ≡ name_text name → IsName name → is_some (node_at tree.now name) ≡ true → ⊥)) }
{
    match read_name(alloc, text) {
        Ok(name) => match tree.find(&name) {
            Some(_) => Ok(name),
            None => Err(FormError::Shape),
        },
        Err(NameError::BadName { .. }) => Err(FormError::Shape),
        Err(NameError::Memory) => Err(FormError::Memory),
    }
}

// The two texts that a value lists.
fn pair_of<'a>(value: &'a Value) -> Option<(&'a str, &'a str)>
    ensures found { IfSome result (λ pair. view value.now ≡ texts_data (pair.0.now ∷ pair.1.now ∷ [])) }
    ensures missing { result ≡ None → IsTextPair (view value.now) → ⊥ }
{
    let items = value.as_array()?;
    if items.len() != 2 {
        return None;
    }
    let one = items[0].as_str()?;
    let other = items[1].as_str()?;
    Some((one, other))
}

// The name and the agent that a pair of texts is.
fn read_pair(
    alloc: Global,
    agents: &[AgentId],
    tree: &Tree,
    value: &Value,
) -> Result<(Name, AgentId), FormError>
    ensures found { IfOk result (IsPlaced agents.now tree.now (view value.now)) }
    ensures refused { IfErr result (HasNone ((p : List Label × List ℕ) → IsPlaced agents.now tree.now (view value.now) p → ⊥)) }
{
    let Some((name, agent)) = pair_of(value) else {
        return Err(FormError::Shape);
    };
    let Some(agent) = agent_of(agents, agent) else {
        return Err(FormError::Shape);
    };
    let name = read_node_name(alloc, tree, name)?;
    Ok((name, agent))
}

// Whether a name is that of the top node.
fn is_top(tree: &Tree, name: &Name) -> bool
    ensures { result ≡ pointwise label_eq (label_of tree.now ∷ []) name.now }
{
    match name.as_slice() {
        [label] => tree.label() == label,
        _ => false,
    }
}

// Whether one of the two is so.
fn either(one: bool, other: bool) -> bool
    ensures { result ≡ (one || other) }
{
    one || other
}

// The names that are placed, and their agents, of a list of pairs.
fn read_pairs(
    alloc: Global,
    agents: &[AgentId],
    tree: &Tree,
    items: &[Value],
) -> Result<Sequence<(Name, AgentId)>, FormError>
    ensures found { IfOk result (ArePlacedAt agents.now tree.now (items_view items.now)) }
    ensures refused { IfErr result (HasNone ((place : List (List Label × List ℕ)) → ArePlacedAt agents.now tree.now (items_view items.now) place → ⊥)) }
{
    let mut place = Vec::with_capacity(alloc, items.len())?;
    let mut names = HashSet::new(alloc);
    let mut top = false;
    for item in items {
        let (name, agent) = read_pair(alloc, agents, tree, item)?;
        top = either(is_top(tree, &name), top);
        if !names.insert(name.copy()?)? {
            return Err(FormError::Shape);
        }
        place.push((name, agent))?;
    }
    if !top {
        return Err(FormError::Shape);
    }
    Ok(Sequence::from_vec(place))
}

/// The names of nodes of the tree that the key `place` places, each at one of these agents.
pub fn read_place(
    alloc: Global,
    members: &Members,
    agents: &[AgentId],
    tree: &Tree,
) -> Result<Sequence<(Name, AgentId)>, FormError>
    ensures found { IfOk result (λ place. PlaceAt (object (members_view members.now.entries)) place × ArePlaced agents.now tree.now place) }
    ensures refused { IfErr result (HasNone ((place : List (List Label × List ℕ)) → PlaceAt (object (members_view members.now.entries)) place → ArePlaced agents.now tree.now place → ⊥)) }
{
    match list_at(members, "place") {
        Some(items) => read_pairs(alloc, agents, tree, items),
        None => Err(FormError::Shape),
    }
}
