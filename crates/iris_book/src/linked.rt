//! The updates of nodes, by node and version.
ghost use Rattle.std.specs.Prelude.{◌≡◌, ℕ, ◌+◌, ◌<◌, ◌≤◌, [], ◌∷◌, ◌++◌, length, slice_get, option_copied, OnOk};
ghost use Rattle.std.specs.Prelude.{Some, IfSome};
ghost use Rattle.std.specs.Option.{option_map_or};
ghost use Rattle.std.specs.Vec.{vec_len, vec_capacity};
ghost use Rattle.indexmap.specs.IndexSet.{spare};
ghost use Rattle.iris_book.specs.Book.{updates_of, today_of};

use crate::links::{jump_from, step_back};
use crate::update::NodeUpdate;
use indexmap::IndexSet;
use iris_tree::{Mem, Name, Tree};
use std::alloc::{AllocError, Global};
use std::marker::Model;

/// An update with its place among those of its node.
#[derive(Debug, Drop)]
pub(crate) struct LinkedUpdate {
    // The number of its node.
    pub(crate) node: usize,
    pub(crate) update: NodeUpdate,
    // How many updates of its node came before it.
    pub(crate) before: usize,
    // Where the one before it is, if there is one.
    pub(crate) earlier: usize,
    // Where one further back is: each update has so few steps to any before it as a binary search takes.
    pub(crate) jump: usize,
}

/// The updates in the order of their acceptance. One is found by the name of its node, hashed, and by
/// links from the node's last update back to it.
#[derive(Drop)]
pub(crate) struct LinkedUpdates {
    // The names of the nodes that had updates; a node's number is its place here.
    names: IndexSet<Name>,
    // Where the last update of each node is, by its number.
    last: Vec<usize>,
    entered: Vec<LinkedUpdate>,
}

impl Model for LinkedUpdates {
    ghost use Rattle.std.specs.Prelude.{ℕ, ◌-◌, min, map, length};
    ghost use Rattle.std.specs.Vec.{vec_len, vec_capacity};
    ghost use Rattle.indexmap.specs.IndexSet.{spare};
    ghost use Rattle.iris_base.specs.contracts.name.Label as label_type;
    ghost use Rattle.iris_book.specs.contracts.update.NodeUpdate as update_type;
    ghost use Rattle.iris_book.specs.Linked.{AcceptedUpdates, accepted_updates_code, named_update, AreOrderly};

    ghost Value = { AcceptedUpdates };

    ghost coded = { accepted_updates_code label_type.the_row.coded update_type.the_row.coded };

    ghost view = { λ a. record { updates = map (named_update a.names.keys) a.entered.items; spare = min (vec_capacity a.entered - vec_len a.entered) (min (vec_capacity a.last - vec_len a.last) (spare a.names)) } };

    ghost invariant = { λ a. AreOrderly a.names.keys a.last.items a.entered.items };
}

// Makes room for so many more of each.
fn reserve_all(
    names: &mut IndexSet<Name>,
    last: &mut Vec<usize>,
    entered: &mut Vec<LinkedUpdate>,
    n: usize,
) -> Mem<()>
    ensures names { names.new.keys ≡ names.old.keys }
    ensures last { last.new.items ≡ last.old.items }
    ensures entered { entered.new.items ≡ entered.old.items }
    ensures name_room { spare names.old ≤ spare names.new }
    ensures last_room { vec_capacity last.old ≤ vec_capacity last.new }
    ensures entered_room { vec_capacity entered.old ≤ vec_capacity entered.new }
    ensures ok_names { OnOk result (n ≤ spare names.new) }
    ensures ok_last { OnOk result (vec_len last.new + n ≤ vec_capacity last.new) }
    ensures ok_entered { OnOk result (vec_len entered.new + n ≤ vec_capacity entered.new) }
{
    names.reserve(n)?;
    last.reserve(n)?;
    entered.reserve(n)?;
    Ok(())
}

impl LinkedUpdates {
    pub(crate) fn new(alloc: Global) -> LinkedUpdates
        ensures { result.updates ≡ [] }
    {
        LinkedUpdates {
            names: IndexSet::new(alloc),
            last: Vec::new(alloc),
            entered: Vec::new(alloc),
        }
    }

    // The last update of that node.
    pub(crate) fn last(&self, name: &Name) -> Option<&LinkedUpdate>
        ensures last { IfSome result (λ last. slice_get (updates_of self.now.updates name.now) last.now.before ≡ Some last.now.update) }
        ensures count { option_map_or (λ last. last.now.before + 1) result 0 ≡ length (updates_of self.now.updates name.now) }
        ensures fits { IfSome result (λ last. last.now.before < u64.MAX) }
    {
        let node = self.names.get_index_of(name)?;
        let last = self.last[node];
        Some(&self.entered[last])
    }

    // The update of that node with so many before it.
    pub(crate) fn get(&self, name: &Name, number: usize) -> Option<&NodeUpdate>
        ensures { option_copied result ≡ slice_get (updates_of self.now.updates name.now) number }
    {
        let node = self.names.get_index_of(name)?;
        let last = self.last[node];
        if self.entered[last].before < number {
            return None;
        }
        let at = step_back(&self.entered, last, number);
        Some(&self.entered[at].update)
    }

    // Puts the newest local information of each node into the start document.
    pub(crate) fn put_newest(&self, document: &mut Tree) -> Mem<()>
        ensures { OnOk result (document.new ≡ today_of document.old self.now.updates) }
    {
        for (node, last) in self.last.iter().enumerate() {
            if let Some(name) = self.names.get_index(node) {
                document.set_local(name, self.entered[*last].update.local.copy()?);
            }
        }
        Ok(())
    }

    // Makes room for so many more.
    pub(crate) fn reserve(&mut self, n: usize) -> Mem<()>
        ensures updates { self.new.updates ≡ self.old.updates }
        ensures ok { OnOk result (n ≤ self.new.spare) }
        ensures room { self.old.spare ≤ self.new.spare }
    {
        reserve_all(&mut self.names, &mut self.last, &mut self.entered, n)?;
        Ok(())
    }

    // Adds an update. It takes no memory.
    pub(crate) fn push(&mut self, name: Name, update: NodeUpdate)
        requires { 0 < self.old.spare }
        ensures updates { self.new.updates ≡ self.old.updates ++ (name, update) ∷ [] }
        ensures spare { self.old.spare ≤ self.new.spare + 1 }
    {
        let place = self.entered.len();
        if let Some(node) = self.names.get_index_of(&name) {
            let earlier = self.last[node];
            let entered = LinkedUpdate {
                node,
                update,
                before: self.entered[earlier].before + 1,
                earlier,
                jump: jump_from(&self.entered, earlier),
            };
            self.last[node] = place;
            self.entered.push_reserved(entered);
            return;
        }
        let node = self.last.len();
        self.names.insert(name).unwrap();
        self.last.push_reserved(place);
        self.entered.push_reserved(LinkedUpdate {
            node,
            update,
            before: 0,
            earlier: place,
            jump: place,
        });
    }
}
