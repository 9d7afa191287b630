//! A city, and why none was read.
ghost use Rattle.std.specs.Prelude.{◌≤◌, length};
ghost use Rattle.iris_base.specs.declared.limits.TheConstants.{MAX_LABELS, MAX_NODES};
ghost use Rattle.iris_tree.specs.NodeCode.{size_of};
ghost use Rattle.iris_json.specs.CityForm.{AreKinds, AreAgents, AreCapacities, ArePlaced, IsCityNode, AreKinds-prop, AreAgents-prop, AreCapacities-prop, ArePlaced-prop, IsCityNode-prop};

use crate::keys::ValueError;
use crate::out::Which;
use crate::zone::Zone;
use iris_tree::{AgentId, Kind, Memory, Name, Sequence, Tree};
use std::alloc::{AllocError, AllocFailed};
use thiserror::Error;

/// What is wrong with a city line. Of several faults the first in this order is told, each looked for in the
/// whole line before the next.
#[derive(Clone, Copy, Debug, PartialEq, Eq, Error)]
pub enum CityWhy {
    /// A key is missing or unknown, or a value is of another JSON type, at any depth.
    #[error("the keys or the types of the city line are wrong")]
    Shape,
    /// The kinds are not 1 to `MAX_KINDS` different kinds.
    #[error("the kinds of the city are wrong")]
    Kinds,
    /// The agents are not 1 to `MAX_AGENTS` different ids of agents.
    #[error("the agents of the city are wrong")]
    Agents,
    /// The capacities are not one for each agent, each 1 to `MAX_CAPACITY`, together at most `MAX_CAPACITIES`.
    #[error("the capacities of the agents are wrong")]
    Capacities,
    /// The kind of a node is none of the kinds, or its id is not well formed.
    #[error("a node of the city has no label")]
    Label,
    /// A node has the label of an earlier sibling.
    #[error("a node of the city has the label of an earlier sibling")]
    Twin,
    /// The name of an attribute of a node or of its plain elements is not well formed, or it is `id`.
    #[error("the name of an attribute in the city is wrong")]
    Attribute,
    /// The tag of a plain element of a node is not well formed, or it is one of the kinds; or the element
    /// has both kids and a text that isn't empty.
    #[error("a plain element of the city is wrong")]
    Plain,
    /// A name that is placed is not well formed or no node, or it stands twice, or it is placed at none of
    /// the agents; or the top node is not placed.
    #[error("the places of the city are wrong")]
    Place,
    /// The text of the zone is that of no POSIX zone.
    #[error("the zone of the city is wrong")]
    Zone,
}

/// Why no city was read. A line has the first of these that fits, in this order: the limit of the line,
/// no JSON, the form, the limits of the nodes.
#[derive(Clone, Copy, Debug, PartialEq, Eq, Error)]
pub enum CityError {
    /// The bytes are no JSON text.
    #[error("the line is no JSON")]
    NotJson,
    /// The JSON value is not of the form of a city line. `node` is the number, from 0 in the order of the
    /// line with parents first, of the first node that is at fault, and 0 where the fault is of no node.
    /// It is `u32::MAX` where the number is more.
    #[error("{why}")]
    BadCity { node: u32, why: CityWhy },
    /// A limit is passed: the line's, or of the nodes the first of `Nodes`, `Depth`, `Children`,
    /// `Attributes`, `Plain`, `PlainDepth` and `Local` that is. `count` is the greatest count found, or
    /// `u64::MAX` where it is more: the bytes of the line, the nodes of the city, the labels of its
    /// longest name, the most children of a node, the most attributes of a node or a plain element, the
    /// most plain elements of a node and the most levels of them, the bytes of the longest canonical
    /// local information.
    #[error("the city is past a limit")]
    CityLimit { which: Which, count: u64 },
    /// There was no memory.
    #[error("out of memory")]
    Memory,
}

/// Why a JSON value gave no part of a city.
#[derive(Clone, Copy, Debug, PartialEq, Eq)]
pub enum FormError {
    /// It is not of its form.
    Shape,
    /// There was no memory.
    Memory,
}

impl From<ValueError> for CityError {
    ghost use Rattle.std.specs.Prelude.{◌≡◌};
    ghost use Rattle.iris_json.specs.Errors.{city_error};

    ghost from_gives = { λ error e. e ≡ city_error error };

    fn from(error: ValueError) -> CityError {
        match error {
            ValueError::NotJson => CityError::NotJson,
            ValueError::Memory => CityError::Memory,
        }
    }
}

impl From<Memory> for CityError {
    ghost use Rattle.std.specs.Prelude.{◌≡◌};
    ghost use Rattle.iris_json.specs.declared.city.CityError.TheVariants.{Memory};

    ghost from_gives = { λ _ e. e ≡ Memory };

    fn from(_error: Memory) -> CityError {
        CityError::Memory
    }
}

impl From<Memory> for FormError {
    ghost use Rattle.std.specs.Prelude.{◌≡◌};
    ghost use Rattle.iris_json.specs.declared.city.FormError.TheVariants.{Memory};

    ghost from_gives = { λ _ e. e ≡ Memory };

    fn from(_error: Memory) -> FormError {
        FormError::Memory
    }
}

impl From<AllocError> for FormError {
    ghost use Rattle.std.specs.Prelude.{◌≡◌};
    ghost use Rattle.iris_json.specs.declared.city.FormError.TheVariants.{Memory};

    ghost from_gives = { λ _ e. e ≡ Memory };

    fn from(_error: AllocError) -> FormError {
        FormError::Memory
    }
}

impl<T: Drop> From<AllocFailed<T>> for FormError {
    ghost use Rattle.std.specs.Prelude.{◌≡◌};
    ghost use Rattle.iris_json.specs.declared.city.FormError.TheVariants.{Memory};

    ghost from_gives = { λ _ e. e ≡ Memory };

    fn from(_error: AllocFailed<T>) -> FormError {
        FormError::Memory
    }
}

impl From<AllocError> for CityError {
    ghost use Rattle.std.specs.Prelude.{◌≡◌};
    ghost use Rattle.iris_json.specs.declared.city.CityError.TheVariants.{Memory};

    ghost from_gives = { λ _ e. e ≡ Memory };

    fn from(_error: AllocError) -> CityError {
        CityError::Memory
    }
}

impl<T: Drop> From<AllocFailed<T>> for CityError {
    ghost use Rattle.std.specs.Prelude.{◌≡◌};
    ghost use Rattle.iris_json.specs.declared.city.CityError.TheVariants.{Memory};

    ghost from_gives = { λ _ e. e ≡ Memory };

    fn from(_error: AllocFailed<T>) -> CityError {
        CityError::Memory
    }
}

/// What is shown of the run of a script.
#[derive(Clone, Copy, Debug, PartialEq, Eq)]
pub enum Show {
    /// Each post and each outcome.
    All,
    /// Summaries alone, and the last line of a run that is ended by a fault or a limit.
    Summary,
}

/// A city: the kinds of its nodes, the agents that hold it, where its parts are placed, its nodes, its zone,
/// and what is shown. It keeps to the form and the limits of a city line, whoever makes it.
#[derive(Debug, Drop)]
pub struct City {
    /// The kinds, in the order of the line.
    pub kinds: Sequence<Kind>,
    /// The agents, in the order of the line.
    pub agents: Sequence<AgentId>,
    /// How many copies of nodes each agent may hold, in the order of the agents.
    pub caps: Sequence<u32>,
    /// Names of nodes and the agent that holds each, with all below it that is not placed elsewhere; in the
    /// order of the line.
    pub place: Sequence<(Name, AgentId)>,
    /// The top node with all below it.
    pub tree: Tree,
    /// The zone of its clocks.
    pub zone: Zone,
    /// What is shown of a run.
    pub show: Show,
    ghost kinds_fit: { AreKinds kinds } by { AreKinds-prop kinds },
    ghost agents_fit: { AreAgents agents } by { AreAgents-prop agents },
    ghost caps_fit: { AreCapacities (length agents) caps } by { AreCapacities-prop (length agents) caps },
    ghost placed: { ArePlaced agents tree place } by { ArePlaced-prop agents tree place },
    ghost nodes_fit: { IsCityNode kinds MAX_LABELS tree } by { IsCityNode-prop kinds MAX_LABELS tree },
    ghost few_nodes: { size_of tree ≤ MAX_NODES },
}
