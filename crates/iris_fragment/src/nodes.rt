//! The held nodes, by their names.
ghost use Rattle.std.specs.Prelude.{◌≡◌, true, [], OnOk, OnErr, option_copied, option_map};
ghost use Rattle.iris_fragment.specs.Contents.{held_at, is_held, has_place};
ghost use Rattle.iris_fragment.specs.Stored.{entries_named};
ghost use Rattle.iris_fragment.specs.Changes.{with_node, without_node, with_part, part_in, takes, takes_any, joined_part, own_version, has_child};
ghost use Rattle.iris_fragment.specs.Shape.{HaveRisingNames, IsRooted};

use crate::held::{HeldNode, Part};
use crate::piece::Full;
use iris_tree::{Label, Mem};
use std::alloc::Global;
use std::collections::BTreeMap;
use std::marker::Model;
use std::mem;
use std::ops::Bound;

/// The held nodes in the order of their names, each name once.
#[derive(Debug, Drop)]
pub(crate) struct Nodes {
    map: BTreeMap<Vec<Label>, HeldNode>,
}

impl Model for Nodes {
    ghost use Rattle.std.specs.Prelude.{List};
    ghost use Rattle.std.specs.Cmp.Lexicographic.{slice_cmp};
    ghost use Rattle.std.specs.List.Sorted.{IsStrictlySortedBy};
    ghost use Rattle.std.specs.Map.{keys_of};
    ghost use Rattle.iris_base.specs.NameOrder.{label_cmp};
    ghost use Rattle.iris_base.specs.declared.name.Label.{Label};
    ghost use Rattle.iris_fragment.specs.declared.held.HeldNode.{HeldNode};
    ghost use Rattle.std.specs.Coded.{coded×, coded_list};
    ghost use Rattle.iris_base.specs.contracts.name.Label as label_type;
    ghost use Rattle.iris_fragment.specs.contracts.held.HeldNode as held_type;
    ghost use Rattle.iris_fragment.specs.Stored.{entries_named};

    ghost Value = { List (List Label × HeldNode) };

    ghost coded = { coded_list (coded× (coded_list label_type.the_row.coded) held_type.the_row.coded) };

    ghost view = { λ n. entries_named n.map.entries };

    ghost invariant = { λ n. IsStrictlySortedBy (slice_cmp label_cmp) (keys_of (entries_named n.map.entries)) };
}

impl Nodes {
    pub(crate) fn new(alloc: Global) -> Nodes
        ensures { result ≡ [] }
    {
        Nodes {
            map: BTreeMap::new(alloc),
        }
    }

    pub(crate) fn get(&self, name: &[Label]) -> Option<&HeldNode>
        ensures { option_copied result ≡ held_at self.now name.now }
    {
        self.map.get(name)
    }

    // The nodes under lists of labels, in the order of names.
    pub(crate) fn as_map(&self) -> &BTreeMap<Vec<Label>, HeldNode>
        ensures entries_named { entries_named result.now.entries ≡ self.now }
        ensures ordered { HaveRisingNames self.now }
    {
        &self.map
    }

    pub(crate) fn contains(&self, name: &[Label]) -> bool
        ensures { result ≡ is_held self.now name.now }
    {
        self.map.contains_key(name)
    }

    // Whether the name above is the document's or a held node's.
    pub(crate) fn has_place(&self, name: &[Label]) -> bool
        ensures { result ≡ has_place self.now name.now }
    {
        match name.split_last() {
            Some((_, above)) => above.is_empty() || self.contains(above),
            None => false,
        }
    }

    // The version of an owned node.
    pub(crate) fn version(&self, name: &[Label]) -> Option<u64>
        ensures { result ≡ own_version (part_in (held_at self.now name.now)) }
    {
        self.get(name)?.part.own_version()
    }

    // Puts a node under a name, also where another is.
    pub(crate) fn insert(&mut self, alloc: Global, name: &[Label], node: HeldNode) -> Mem<()>
        ensures ok { OnOk result (self.new ≡ with_node self.old name.now node) }
        ensures err { OnErr result (self.new ≡ self.old) }
    {
        let key = Vec::from_slice(alloc, name)?;
        self.map.insert(key, node)?;
        Ok(())
    }

    // Puts that beside the ids of a held node, and returns what was there.
    pub(crate) fn replace(&mut self, name: &[Label], part: Part) -> Option<Part>
        ensures part { result ≡ option_map (λ node. node.part) (held_at self.old name.now) }
        ensures nodes { self.new ≡ with_part self.old name.now part }
    {
        let node = self.map.get_mut(name)?;
        Some(mem::replace(&mut node.part, part))
    }

    // Puts that beside the ids of a held node.
    pub(crate) fn set_part(&mut self, name: &[Label], part: Part)
        ensures { self.new ≡ with_part self.old name.now part }
    {
        self.replace(name, part);
    }

    // Places a full part that arrives beside the ids of a held node, where it is newer. Returns whether
    // it did.
    pub(crate) fn join(&mut self, name: &[Label], full: Option<Full>) -> bool
        ensures placed { result ≡ takes_any (part_in (held_at self.old name.now)) full }
        ensures nodes { self.new ≡ with_part self.old name.now (joined_part (part_in (held_at self.old name.now)) full) }
    {
        let Some(full) = full else {
            return false;
        };
        if !self.takes(name, &full) {
            return false;
        }
        self.set_part(name, Part::Copied { full });
        true
    }

    fn takes(&self, name: &[Label], full: &Full) -> bool
        ensures { result ≡ takes (part_in (held_at self.now name.now)) full.now }
    {
        match self.get(name) {
            Some(node) => node.part.takes(full),
            None => true,
        }
    }

    // Whether a child of a held node is held. Names under one follow right after it in the order.
    pub(crate) fn has_child(&self, name: &[Label]) -> bool
        requires held { is_held self.now name.now ≡ true }
        requires rooted { IsRooted self.now }
        ensures { result ≡ has_child self.now name.now }
    {
        let Some((key, _)) = self.map.get_key_value(name) else {
            return false;
        };
        match self
            .map
            .range((Bound::Excluded(key), Bound::Unbounded))
            .next()
        {
            Some((next, _)) => next.as_slice().starts_with(name),
            None => false,
        }
    }

    pub(crate) fn remove(&mut self, name: &[Label])
        ensures nodes { self.new ≡ without_node self.old name.now }
        ensures was_ordered { HaveRisingNames self.old }
    {
        self.map.remove(name);
    }
}
