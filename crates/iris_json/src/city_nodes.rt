//! What a city line asks of each of its nodes, and the first node without it.
ghost use Rattle.std.specs.Prelude.{◌≡◌, ◌↔◌, List, None, codes, IsTrue, IfOk, IfSome};
ghost use Rattle.std.specs.HashSet.{contains};
ghost use Rattle.serde_json.specs.Data.{Data};
ghost use Rattle.serde_json.specs.View.{view};
ghost use Rattle.iris_json.specs.CityParts.{spots_below, nodes_in};
ghost use Rattle.iris_json.specs.CityRows.{NodeHas, AllHas, HasNodeShape, HasLabel};
ghost use Rattle.iris_base.specs.NameOrder.{label_eq};
ghost use Rattle.iris_json.specs.declared.city.CityWhy.{CityWhy};
ghost use Rattle.iris_json.specs.CityKeys.{LabelAt};
ghost use Rattle.iris_json.specs.Steps.{Walks, AreLabelsOf, IsNewLabel, DoesHave};

use crate::city::CityWhy;
use crate::city_plains::{all_have, has_attr_names, has_text, has_text_attrs, listed, may_list};
use crate::keys::has_only;
use crate::node::read_label;
use iris_tree::{Kind, Label, Mem};
use serde_json::Value;
use std::alloc::Global;
use std::collections::HashSet;

/// How far a walk over nodes came that stops at the first at fault.
#[derive(Clone, Copy, Debug)]
pub struct Steps {
    /// The nodes that are not at fault, before the first that is, or `u32::MAX` where they are more.
    pub passed: u32,
    /// Whether there is one at fault.
    pub failed: bool,
}

// Whether a value has the keys and types of a node, beside those of its plain elements.
fn has_shape(value: &Value) -> bool
    ensures { IsTrue result ↔ HasNodeShape (view value.now) }
{
    let Some(members) = value.as_object() else {
        return false;
    };
    if !has_only(members, &["kind", "id", "attrs", "plain", "nodes"]) {
        return false;
    }
    if !has_text(members, "kind") {
        return false;
    }
    if !has_text(members, "id") {
        return false;
    }
    if !has_text_attrs(members) {
        return false;
    }
    if !may_list(members, "plain") {
        return false;
    }
    may_list(members, "nodes")
}

// The label of a node, where it is well formed and of one of the kinds.
fn label_of(kinds: &[Kind], value: &Value) -> Option<Label>
    ensures found { IfSome result (λ label. LabelAt kinds.now (view value.now) label) }
    ensures missing { result ≡ None → HasLabel kinds.now (view value.now) → ⊥ }
{
    match read_label(kinds, value.as_object()?) {
        Ok(label) => Some(label),
        Err(_) => None,
    }
}

// Whether a node's label is not among these, which it is from then on.
fn is_new(kinds: &[Kind], value: &Value, labels: &mut HashSet<Label>) -> Mem<bool>
    ensures { IfOk result (λ new. (earlier : List Data) → AreLabelsOf kinds.now (contains label_eq labels.old) earlier → IsNewLabel kinds.now (contains label_eq labels.new) earlier (view value.now) new) }
{
    match label_of(kinds, value) {
        Some(label) => Ok(labels.insert(label)?),
        None => Ok(true),
    }
}

// Whether a node has what the row asks of a node itself. The labels are those of its earlier siblings, and
// its own from then on, where the row is that of twins.
fn has_own(why: CityWhy, kinds: &[Kind], value: &Value, labels: &mut HashSet<Label>) -> Mem<bool>
    ensures { IfOk result (λ does. (earlier : List Data) → (why ≡ CityWhy.Twin → AreLabelsOf kinds.now (contains label_eq labels.old) earlier) → DoesHave (NodeHas why kinds.now) why kinds.now (contains label_eq labels.new) earlier (view value.now) does) }
{
    match why {
        CityWhy::Shape => Ok(has_shape(value)),
        CityWhy::Label => Ok(label_of(kinds, value).is_some()),
        CityWhy::Twin => is_new(kinds, value, labels),
        CityWhy::Attribute => Ok(has_attr_names(value)),
        _ => Ok(true),
    }
}

// The same of a node with its plain elements.
fn has(why: CityWhy, kinds: &[Kind], value: &Value, labels: &mut HashSet<Label>) -> Mem<bool>
    ensures { IfOk result (λ does. (earlier : List Data) → (why ≡ CityWhy.Twin → AreLabelsOf kinds.now (contains label_eq labels.old) earlier) → DoesHave (AllHas why kinds.now) why kinds.now (contains label_eq labels.new) earlier (view value.now) does) }
{
    if !has_own(why, kinds, value, labels)? {
        return Ok(false);
    }
    Ok(all_have(why, kinds, value, "plain"))
}

// The walk over the nodes below a value.
fn walk(alloc: Global, why: CityWhy, kinds: &[Kind], value: &Value) -> Mem<Steps>
    ensures { IfOk result (Walks (AllHas why kinds.now) (spots_below (codes "nodes") (view value.now))) }
{
    let mut labels = HashSet::new(alloc);
    let mut steps = Steps {
        passed: 0,
        failed: false,
    };
    for node in listed(value, "nodes") {
        if !has(why, kinds, node, &mut labels)? {
            steps.failed = true;
            return Ok(steps);
        }
        let below = walk(alloc, why, kinds, node)?;
        steps.passed = steps.passed.saturating_add(1).saturating_add(below.passed);
        if below.failed {
            steps.failed = true;
            return Ok(steps);
        }
    }
    Ok(steps)
}

/// Walks over a node and all nodes below it, in the order of the line with parents first, up to the first
/// that does not have what the row asks.
pub fn walk_nodes(alloc: Global, why: CityWhy, kinds: &[Kind], tree: &Value) -> Mem<Steps>
    ensures { IfOk result (Walks (AllHas why kinds.now) (nodes_in (view tree.now))) }
{
    let mut labels = HashSet::new(alloc);
    if !has(why, kinds, tree, &mut labels)? {
        return Ok(Steps {
            passed: 0,
            failed: true,
        });
    }
    let below = walk(alloc, why, kinds, tree)?;
    Ok(Steps {
        passed: below.passed.saturating_add(1),
        failed: below.failed,
    })
}
