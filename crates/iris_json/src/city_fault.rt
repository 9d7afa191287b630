//! What a value lacks that is not of the form of a city line.
ghost use Rattle.std.specs.Prelude.{◌≡◌, ◌<◌, [], length, IfOk, IfSome, None};
ghost use Rattle.std.specs.List.{AllByRecursion};
ghost use Rattle.serde_json.specs.Data.{object};
ghost use Rattle.serde_json.specs.View.{view, members_view};
ghost use Rattle.iris_json.specs.CityKeys.{IsNode, KindsAt, AgentsAt};
ghost use Rattle.iris_json.specs.CityParts.{nodes_in};
ghost use Rattle.iris_json.specs.CityReads.{IsNoCity};
ghost use Rattle.iris_json.specs.CityRows.{HasRow, AllHas};
ghost use Rattle.iris_json.specs.CityFaults.{IsShaped, TellsFault, TellsNode};
ghost use Rattle.iris_json.specs.declared.city.CityWhy.{CityWhy};

use crate::city::{CityWhy, FormError};
use crate::city_keys::{has_city_keys, read_agents, read_caps, read_kinds};
use crate::city_nodes::walk_nodes;
use crate::city_place::read_place;
use crate::keys::{Members, value_at};
use crate::node::read_node;
use iris_tree::{AgentId, Kind, Mem, Memory, Tree};
use serde_json::Value;
use std::alloc::Global;

/// What a line lacks first, and the number of the first node that lacks it.
#[derive(Clone, Copy, Debug)]
pub struct Fault {
    pub node: u32,
    pub why: CityWhy,
}

// The fault of a row that is of no node.
fn of_line(why: CityWhy) -> Fault
    ensures node { result.node ≡ 0 }
    ensures why { result.why ≡ why }
{
    Fault { node: 0, why }
}

// The value of the top node of an object of the keys and types of a city line, at every depth.
fn shaped_tree<'a>(alloc: Global, members: &'a Members) -> Mem<Option<&'a Value>>
    ensures found { IfOk result (λ found. IfSome found (λ tree. IsShaped (object (members_view members.now.entries)) (view tree.now))) }
    ensures missing { IfOk result (λ found. found ≡ None → HasRow CityWhy.Shape (object (members_view members.now.entries)) → ⊥) }
{
    if !has_city_keys(members) {
        return Ok(None);
    }
    let Some(tree) = value_at(members, "tree") else {
        return Ok(None);
    };
    if walk_nodes(alloc, CityWhy::Shape, &[], tree)?.failed {
        return Ok(None);
    }
    Ok(Some(tree))
}

// The first of the nodes that lacks what the row asks, if there is one.
fn find_node(alloc: Global, why: CityWhy, kinds: &[Kind], tree: &Value) -> Mem<Option<Fault>>
    ensures { IfOk result (TellsNode why kinds.now (view tree.now)) }
{
    let steps = walk_nodes(alloc, why, kinds, tree)?;
    if steps.failed {
        return Ok(Some(Fault {
            node: steps.passed,
            why,
        }));
    }
    Ok(None)
}

// The node that a value is, which has all that the rows of the nodes ask.
fn read_tree(alloc: Global, kinds: &[Kind], tree: &Value) -> Mem<Tree>
    requires kinds { 0 < length kinds.now }
    requires shape { AllByRecursion (AllHas CityWhy.Shape []) (nodes_in (view tree.now)) }
    requires label { AllByRecursion (AllHas CityWhy.Label kinds.now) (nodes_in (view tree.now)) }
    requires twin { AllByRecursion (AllHas CityWhy.Twin kinds.now) (nodes_in (view tree.now)) }
    requires names { AllByRecursion (AllHas CityWhy.Attribute kinds.now) (nodes_in (view tree.now)) }
    requires plain { AllByRecursion (AllHas CityWhy.Plain kinds.now) (nodes_in (view tree.now)) }
    ensures { IfOk result (IsNode kinds.now (view tree.now)) }
{
    match read_node(alloc, kinds, tree) {
        Ok(tree) => Ok(tree),
        Err(FormError::Memory) => Err(Memory),
        Err(FormError::Shape) => unreachable!(),
    }
}

// What an object lacks first of the rows from that of labels on.
fn find_later(
    alloc: Global,
    members: &Members,
    kinds: &[Kind],
    agents: &[AgentId],
    tree: &Value,
) -> Mem<Fault>
    requires none { IsNoCity (object (members_view members.now.entries)) }
    requires shape { IsShaped (object (members_view members.now.entries)) (view tree.now) }
    requires kinds { KindsAt (object (members_view members.now.entries)) kinds.now }
    requires agents { AgentsAt (object (members_view members.now.entries)) agents.now }
    requires caps { HasRow CityWhy.Capacities (object (members_view members.now.entries)) }
    ensures { IfOk result (TellsFault (object (members_view members.now.entries))) }
{
    if let Some(fault) = find_node(alloc, CityWhy::Label, kinds, tree)? {
        return Ok(fault);
    }
    if let Some(fault) = find_node(alloc, CityWhy::Twin, kinds, tree)? {
        return Ok(fault);
    }
    if let Some(fault) = find_node(alloc, CityWhy::Attribute, kinds, tree)? {
        return Ok(fault);
    }
    if let Some(fault) = find_node(alloc, CityWhy::Plain, kinds, tree)? {
        return Ok(fault);
    }
    let top = read_tree(alloc, kinds, tree)?;
    match read_place(alloc, members, agents, &top) {
        Ok(_) => Ok(of_line(CityWhy::Zone)),
        Err(FormError::Shape) => Ok(of_line(CityWhy::Place)),
        Err(FormError::Memory) => Err(Memory),
    }
}

/// What an object lacks first that is not of the form of a city line.
pub fn find_fault(alloc: Global, members: &Members) -> Mem<Fault>
    requires none { IsNoCity (object (members_view members.now.entries)) }
    ensures { IfOk result (TellsFault (object (members_view members.now.entries))) }
{
    let Some(tree) = shaped_tree(alloc, members)? else {
        return Ok(of_line(CityWhy::Shape));
    };
    let kinds = match read_kinds(alloc, members) {
        Ok(kinds) => kinds,
        Err(FormError::Shape) => return Ok(of_line(CityWhy::Kinds)),
        Err(FormError::Memory) => return Err(Memory),
    };
    let agents = match read_agents(alloc, members) {
        Ok(agents) => agents,
        Err(FormError::Shape) => return Ok(of_line(CityWhy::Agents)),
        Err(FormError::Memory) => return Err(Memory),
    };
    match read_caps(alloc, members, agents.as_slice()) {
        Ok(_) => find_later(alloc, members, kinds.as_slice(), agents.as_slice(), tree),
        Err(FormError::Shape) => Ok(of_line(CityWhy::Capacities)),
        Err(FormError::Memory) => Err(Memory),
    }
}
