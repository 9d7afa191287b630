//! The registry of a city: which agent owns each node.
ghost use Rattle.std.specs.Prelude.{◌≡◌, ◌↔◌, false, List, IsTrue, IfOk, Some, ◌≤◌, length, is_some, max, if◌then◌else◌};
ghost use Rattle.std.specs.Map.{keys_of};
ghost use Rattle.std.specs.Cmp.Lexicographic.{pointwise};
ghost use Rattle.iris_base.specs.declared.name.Label.{Label};
ghost use Rattle.iris_base.specs.NameOrder.{label_eq};
ghost use Rattle.iris_tree.specs.Universe.{node_at};
ghost use Rattle.iris_route.specs.Titles.{title_at, with_title, IsNewer, top_name};
ghost use Rattle.iris_route.specs.Start.{start_titles, start_owner};
ghost use Rattle.iris_route.specs.Routes.{longest_prefix};

use crate::start::titles_at_start;
use crate::titles::Titles;
use iris_json::City;
use iris_tree::{AgentId, Label, Mem, Name};
use std::alloc::Global;
use std::marker::Model;

/// The owner of each node of a city, and its epoch, the number of its moves. A look-up is one by the hashed
/// name. Contracts see the list of names with their titles, the top node's first.
#[derive(Drop)]
pub struct Registry {
    titles: Titles,
}

impl Model for Registry {
    ghost use Rattle.std.specs.Prelude.{◌≡◌, true};
    ghost use Rattle.iris_route.specs.Titles.{Titles as List, begins_at_top};

    ghost Value = { List };

    ghost view = { λ r. r.titles };

    ghost invariant = { λ r. begins_at_top r.titles ≡ true };
}

impl Registry {
    /// The registry of a city at its start: each node's owner is the agent of the nearest placed name at or
    /// above it, and no node has moved.
    pub fn new(alloc: Global, city: &City) -> Mem<Registry>
        ensures titles { IfOk result (λ registry. registry ≡ start_titles city.now.place city.now.tree) }
        ensures owners { IfOk result (λ registry. (name : List Label) → title_at registry name ≡ (if is_some (node_at city.now.tree name) then Some (start_owner city.now.place name, 0) else None)) }
    {
        Ok(Registry {
            titles: titles_at_start(alloc, &city.tree, city.place.as_slice())?,
        })
    }

    /// The node's owner and epoch; none exactly where no such node is. It takes no memory.
    pub fn owner(&self, name: &Name) -> Option<(AgentId, u64)>
        ensures { result ≡ title_at self.now name.now }
    {
        self.titles.get(name.as_slice())
    }

    /// The number of labels of the longest prefix of the name that is a node's name; 1, as of the top node's
    /// name, where there is none. It takes no memory.
    pub fn nearest(&self, name: &Name) -> usize
        ensures { result ≡ max 1 (longest_prefix self.now name.now) }
    {
        self.longest_prefix(name.as_slice()).max(1)
    }

    // The number of labels of the longest prefix that is a node's name; 0 where there is none.
    pub(crate) fn longest_prefix(&self, name: &[Label]) -> usize
        ensures value { result ≡ longest_prefix self.now name.now }
        ensures within { result ≤ length name.now }
    {
        let mut len = name.len();
        while len > 0 {
            if self.titles.get(&name[..len]).is_some() {
                return len;
            }
            len -= 1;
        }
        0
    }

    /// Whether there is such a node and the epoch is greater than its own. It takes no memory.
    pub fn newer(&self, name: &Name, epoch: u64) -> bool
        ensures { IsTrue result ↔ IsNewer self.now name.now epoch }
    {
        match self.owner(name) {
            Some((_, present)) => present < epoch,
            None => false,
        }
    }

    /// Gives a node to an agent, with a greater epoch. It takes no memory.
    pub fn set(&mut self, name: &Name, agent: AgentId, epoch: u64)
        requires { IsNewer self.old name.now epoch }
        ensures titles { self.new ≡ with_title self.old name.now (agent, epoch) }

        // What follows at each name.
        ensures title { title_at self.new name.now ≡ Some (agent, epoch) }
        ensures others { (other : List Label) → pointwise label_eq other name.now ≡ false → title_at self.new other ≡ title_at self.old other }
        ensures nodes { keys_of self.new ≡ keys_of self.old }
    {
        self.titles.set(name.as_slice(), &(agent, epoch));
    }

    // The name of the top node.
    pub(crate) fn top(&self) -> &[Label]
        ensures { result.now ≡ top_name self.now }
    {
        self.titles.first()
    }
}
