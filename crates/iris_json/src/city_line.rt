//! The city line: the first line of a script.
ghost use Rattle.std.specs.Prelude.{◌≡◌, ◌<◌, ◌≤◌, length, IfOk, IfErr};
ghost use Rattle.serde_json.specs.Data.{object};
ghost use Rattle.serde_json.specs.View.{view, members_view};
ghost use Rattle.iris_base.specs.declared.limits.TheConstants.{MAX_LABELS, MAX_NODES};
ghost use Rattle.iris_tree.specs.NodeCode.{size_of};
ghost use Rattle.iris_tree.specs.Universe.{Node};
ghost use Rattle.iris_json.specs.declared.city.City.{City};
ghost use Rattle.iris_json.specs.CityForm.{AreKinds, AreAgents, AreCapacities, ArePlaced, EachLocalForm, IsCityNode};
ghost use Rattle.iris_json.specs.CityKeys.{TreeAt};
ghost use Rattle.iris_json.specs.CityLine.{ReadsCity, GivesCity, RefusesCity};
ghost use Rattle.iris_json.specs.CityReads.{HasNone, IsNoCity, LacksRow, FindsNone, AreParts};

use crate::city::{City, CityError, CityWhy, FormError, Show};
use crate::city_fault::{Fault, find_fault};
use crate::city_keys::{CITY_KEYS, read_agents, read_caps, read_kinds, read_show, read_zone};
use crate::city_place::read_place;
use crate::extent::Extent;
use crate::keys::{Members, has_only, read_value, value_at};
use crate::node::read_node;
use crate::out::Which;
use crate::zone::Zone;
use iris_tree::{AgentId, Kind, MAX_CITY_BYTES, Name, Sequence, Tree};
use serde_json::Value;
use std::alloc::Global;

// What is in a line of the form of a city line, whose limits were not looked at.
#[derive(Drop)]
struct Parts {
    kinds: Sequence<Kind>,
    agents: Sequence<AgentId>,
    caps: Sequence<u32>,
    place: Sequence<(Name, AgentId)>,
    tree: Tree,
    zone: Zone,
    show: Show,
}

// The tree at the key `tree`.
fn read_tree(alloc: Global, kinds: &[Kind], members: &Members) -> Result<Tree, FormError>
    requires kinds { 0 < length kinds.now }
    ensures found { IfOk result (λ tree. TreeAt kinds.now (object (members_view members.now.entries)) tree) }
    ensures form { IfOk result EachLocalForm }
    ensures refused { IfErr result (HasNone ((tree : Node) → TreeAt kinds.now (object (members_view members.now.entries)) tree → ⊥)) }
{
    let Some(value) = value_at(members, "tree") else {
        return Err(FormError::Shape);
    };
    read_node(alloc, kinds, value)
}

// What is in an object.
fn read_parts(alloc: Global, members: &Members) -> Result<Parts, FormError>
    ensures found { IfOk result (AreParts (object (members_view members.now.entries))) }
    ensures form { IfOk result (λ parts. EachLocalForm parts.tree) }
    ensures refused { IfErr result (HasNone (IsNoCity (object (members_view members.now.entries)))) }
{
    if !has_only(members, &CITY_KEYS) {
        return Err(FormError::Shape);
    }
    let kinds = read_kinds(alloc, members)?;
    let agents = read_agents(alloc, members)?;
    let caps = read_caps(alloc, members, agents.as_slice())?;
    let tree = read_tree(alloc, kinds.as_slice(), members)?;
    let place = read_place(alloc, members, agents.as_slice(), &tree)?;
    let zone = read_zone(alloc, members)?;
    let Some(show) = read_show(members) else {
        return Err(FormError::Shape);
    };
    Ok(Parts {
        kinds,
        agents,
        caps,
        place,
        tree,
        zone,
        show,
    })
}

// What is in a value.
fn read_form(alloc: Global, value: &Value) -> Result<Parts, CityError>
    ensures found { IfOk result (AreParts (view value.now)) }
    ensures form { IfOk result (λ parts. EachLocalForm parts.tree) }
    ensures refused { IfErr result (LacksRow (view value.now)) }
    ensures none { IfErr result (FindsNone (view value.now)) }
{
    let Some(members) = value.as_object() else {
        return Err(CityError::BadCity {
            node: 0,
            why: CityWhy::Shape,
        });
    };
    match read_parts(alloc, members) {
        Ok(parts) => Ok(parts),
        Err(FormError::Memory) => Err(CityError::Memory),
        Err(FormError::Shape) => {
            let Fault { node, why } = find_fault(alloc, members)?;
            Err(CityError::BadCity { node, why })
        }
    }
}

// The city of these parts.
fn city_of(parts: Parts) -> City
    requires kinds { AreKinds parts.kinds }
    requires agents { AreAgents parts.agents }
    requires caps { AreCapacities (length parts.agents) parts.caps }
    requires placed { ArePlaced parts.agents parts.tree parts.place }
    requires nodes { IsCityNode parts.kinds MAX_LABELS parts.tree }
    requires few_nodes { size_of parts.tree ≤ MAX_NODES }
    ensures kinds { result.kinds ≡ parts.kinds }
    ensures agents { result.agents ≡ parts.agents }
    ensures caps { result.caps ≡ parts.caps }
    ensures place { result.place ≡ parts.place }
    ensures tree { result.tree ≡ parts.tree }
    ensures zone { result.zone ≡ parts.zone }
    ensures show { result.show ≡ parts.show }
{
    City {
        kinds: parts.kinds,
        agents: parts.agents,
        caps: parts.caps,
        place: parts.place,
        tree: parts.tree,
        zone: parts.zone,
        show: parts.show,
    }
}

/// Reads the city line, without its LF. It is an object with these keys and no others:
///
/// | Key | Value |
/// |---|---|
/// | `kinds` | 1 to `MAX_KINDS` different kinds |
/// | `agents` | 1 to `MAX_AGENTS` different agents |
/// | `caps` | a capacity for each agent, 1 to `MAX_CAPACITY`, together at most `MAX_CAPACITIES`; absent, `DEFAULT_CAPACITY` each |
/// | `place` | pairs of a node's name and an agent, no name twice, the top node among them |
/// | `tree` | the top node |
/// | `zone` | the text of a POSIX zone; absent, `UTC0` |
/// | `show` | `all` or `summary`; absent, `all` |
///
/// A node is an object with the keys `kind` and `id` and the optional keys `attrs`, `plain` and `nodes`; no
/// two siblings have one label, no attribute is named `id`, no plain element has the tag of a kind, and none
/// both kids and a text. A line has at most `MAX_CITY_BYTES` bytes, a city `MAX_NODES` nodes and `MAX_LABELS`
/// labels in a name, a node `MAX_CHILDREN` children, `MAX_PLAIN` plain elements in `MAX_PLAIN_DEPTH` levels and
/// `MAX_LOCAL_BYTES` bytes of canonical local information, a node and a plain element `MAX_ATTRIBUTES`
/// attributes. The form of the whole line is looked at before the limits of its nodes. Plain elements stand
/// in the city in the order of their texts, in whatever order the line has them.
pub fn read_city(alloc: Global, bytes: &[u8]) -> Result<City, CityError>
    ensures found { IfOk result (ReadsCity bytes.now) }
    ensures only { (city : City) → ReadsCity bytes.now city → GivesCity result city }
    ensures refused { IfErr result (RefusesCity bytes.now) }
{
    if bytes.len() > MAX_CITY_BYTES {
        return Err(CityError::CityLimit {
            which: Which::Line,
            count: bytes.len() as u64,
        });
    }
    let value = read_value(alloc, bytes)?;
    let parts = read_form(alloc, &value)?;
    if let Some((which, count)) = Extent::of(&parts.tree).passed() {
        return Err(CityError::CityLimit { which, count });
    }
    Ok(city_of(parts))
}
