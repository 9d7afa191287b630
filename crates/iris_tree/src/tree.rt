//! Nodes with all nodes below them.
ghost use Rattle.std.specs.Prelude.{◌≡◌, ◌↔◌, ◌<◌, ◌≤◌, false, Some, None, IsSome, IsNone, IfSome, IfOk, IfErr, OnOk, OnErr, IsErrOf, is_some, length, option_copied, slice_index_or};
ghost use Rattle.std.specs.List.{All};
ghost use Rattle.std.specs.List.Sorted.{IsStrictlySortedBy};
ghost use Rattle.iris_base.specs.NameOrder.{label_cmp};
ghost use Rattle.iris_tree.specs.declared.tree.InsertError.TheVariants as errors;
ghost use Rattle.iris_tree.specs.Universe.{Node, node, no_nodes, labels_of, IsGap, IsOrdered, label_of, local_of, children_of, child_of, part_at, node_at, with_child};
ghost use Rattle.iris_tree.specs.Document.{with_local};
ghost use Rattle.iris_tree.specs.LocalPut.{put_below};
ghost use Rattle.iris_tree.specs.Siblings.{HaveDistinctLabels, IsLabelOrder};

use crate::local::Local;
use iris_base::{Label, Mem, Name};
use std::alloc::{AllocError, AllocFailed, Global};
use std::marker::Model;
use thiserror::Error;

/// Why a child was not added.
#[derive(Clone, Copy, Debug, PartialEq, Eq, Error)]
pub enum InsertError {
    /// The node has a child with this label.
    #[error("the node has a child with this label")]
    Twin,
    /// Memory ran out.
    #[error("out of memory")]
    Memory,
}

/// A node with all nodes below it. The children of each node stand in the order of their labels, and no
/// two of them have the same label. Contracts see it as a `Node` of `specs/Universe.antt`.
#[derive(Debug, Drop)]
pub struct Tree {
    label: Label,
    local: Local,
    nodes: Vec<Tree>,
}

impl Model for Tree {
    ghost use Rattle.std.proofs.Common.{arith};
    ghost use Rattle.iris_base.specs.contracts.name.Label as label_type;
    ghost use Rattle.iris_tree.specs.contracts.local.Local as local_type;
    ghost use Rattle.iris_tree.specs.Universe.{Node, node, nodes_of, AreOrdered};
    ghost use Rattle.iris_tree.specs.NodeCode.{node_code, size_of, sizes-nodes_of};

    ghost Value = { Node };

    ghost coded = { node_code label_type.the_row.coded local_type.the_row.coded };

    ghost view = { λ t. node t.label t.local (nodes_of t.nodes.items) };

    ghost invariant = { λ t. AreOrdered (nodes_of t.nodes.items) };

    ghost size = { size_of };

    ghost size_decreases = { λ t h. Prim.omega (arith, sizes-nodes_of t.nodes.items) };
}

// Where the node with that label stands among siblings, or where it would be put.
fn search(siblings: &[Tree], label: &Label) -> Result<usize, usize>
    requires { IsStrictlySortedBy label_cmp (labels_of siblings.now) }
    ensures found { IfOk result (λ at. (at < length siblings.now) × ((d : Node) → child_of label.now siblings.now ≡ Some (slice_index_or siblings.now at d))) }
    ensures absent { IfErr result (λ at. (at ≤ length siblings.now) × (child_of label.now siblings.now ≡ None) × IsGap siblings.now label.now at) }
{
    siblings.binary_search_by(|node| node.label().cmp(label))
}

// Each of these nodes is in order, as its type says: a step of proofs alone.
fn tell_order(siblings: &[Tree])
    ensures { All IsOrdered siblings.now }
{
    for node in siblings {
        node.children();
    }
}

impl Tree {
    /// A node without children. It takes no memory.
    pub fn new(alloc: Global, label: Label, local: Local) -> Tree
        ensures { result ≡ node label local no_nodes }
    {
        Tree {
            label,
            local,
            nodes: Vec::new(alloc),
        }
    }

    /// The node with these children, put into the order of their labels; none where two of them have the
    /// same label, and then they are dropped. It takes no memory.
    pub fn with_children(label: Label, local: Local, mut children: Vec<Tree>) -> Option<Tree>
        ensures label { IfSome result (λ tree. label_of tree ≡ label) }
        ensures local { IfSome result (λ tree. local_of tree ≡ local) }
        ensures children { IfSome result (λ tree. IsLabelOrder children.items (children_of tree)) }
        ensures twins { IsNone result ↔ ¬ (HaveDistinctLabels children.items) }
    {
        children.sort_unstable_by(|a, b| a.label().cmp(b.label()));
        if !children.is_sorted_by(|a, b| a.label() < b.label()) {
            return None;
        }
        tell_order(&children);
        Some(Tree {
            label,
            local,
            nodes: children,
        })
    }

    /// What the node is called among its siblings.
    #[inline]
    pub fn label(&self) -> &Label
        ensures { result.now ≡ label_of self.now }
    {
        &self.label
    }

    /// What the node holds itself.
    #[inline]
    pub fn local(&self) -> &Local
        ensures { result.now ≡ local_of self.now }
    {
        &self.local
    }

    /// The nodes right below, in the order of their labels.
    #[inline]
    pub fn children(&self) -> &[Tree]
        ensures value { result.now ≡ children_of self.now }
        ensures ordered { IsOrdered self.now }
    {
        self.nodes.as_slice()
    }

    /// The child with that label, by a binary search.
    pub fn child(&self, label: &Label) -> Option<&Tree>
        ensures { option_copied result ≡ child_of label.now (children_of self.now) }
    {
        match search(&self.nodes, label) {
            Ok(at) => Some(&self.nodes[at]),
            Err(_) => None,
        }
    }

    /// Adds a child at its place in the order of labels. The child is dropped at an error.
    pub fn insert(&mut self, child: Tree) -> Result<(), InsertError>
        ensures ok { OnOk result (self.new ≡ with_child self.old child) }
        ensures err { OnErr result (self.new ≡ self.old) }
        ensures twin { IsErrOf result errors.Twin ↔ (IsSome (child_of (label_of child) (children_of self.old))) }
    {
        let Err(at) = search(&self.nodes, &child.label) else {
            return Err(InsertError::Twin);
        };
        if self.nodes.insert(at, child).is_err() {
            return Err(InsertError::Memory);
        }
        Ok(())
    }

    /// The part at that name, whose first label is that of this node; none exactly where no such node
    /// is. No part is at the document's name.
    pub fn find(&self, name: &Name) -> Option<&Tree>
        ensures { option_copied result ≡ node_at self.now name.now }
    {
        let (top, below) = name.as_slice().split_first()?;
        if self.label != *top {
            return None;
        }
        let mut node = self;
        for label in below {
            node = node.child(label)?;
        }
        Some(node)
    }

    /// Puts that local information at the node of that name, in the place of what is there. Returns
    /// whether there is such a node. It takes no memory.
    pub fn set_local(&mut self, name: &Name, local: Local) -> bool
        ensures found { result ≡ is_some (node_at self.old name.now) }
        ensures put { self.new ≡ with_local self.old name.now local }
        ensures absent { result ≡ false → self.new ≡ self.old }
    {
        let Some((label, below)) = name.as_slice().split_first() else {
            return false;
        };
        if self.label != *label {
            return false;
        }
        self.set_local_below(below, local)
    }

    // The same at the part below by these labels.
    fn set_local_below(&mut self, below: &[Label], local: Local) -> bool
        ensures found { result ≡ is_some (part_at self.old below.now) }
        ensures put { self.new ≡ put_below self.old below.now local }
        ensures absent { result ≡ false → self.new ≡ self.old }
    {
        let Some((label, rest)) = below.split_first() else {
            self.local = local;
            return true;
        };
        let Ok(at) = search(&self.nodes, label) else {
            return false;
        };
        let child = &mut self.nodes[at];
        child.set_local_below(rest, local)
    }

    /// A copy, by the same allocator.
    pub fn copy(&self) -> Mem<Tree>
        ensures { IfOk result (λ copy. copy ≡ self.now) }
    {
        let mut nodes = Vec::with_capacity(*self.nodes.allocator(), self.nodes.len())?;
        for node in &self.nodes {
            nodes.push(node.copy()?)?;
        }
        Ok(Tree {
            label: self.label,
            local: self.local.copy()?,
            nodes,
        })
    }
}
