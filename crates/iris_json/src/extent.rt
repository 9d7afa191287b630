//! How large a city is, beside its limits.
ghost use Rattle.std.specs.Prelude.{◌≡◌};
ghost use Rattle.iris_json.specs.Extents.{extent_of, extent_with_child, passed_by_extent};

use crate::out::Which;
use iris_tree::{
    MAX_ATTRIBUTES, MAX_CHILDREN, MAX_LABELS, MAX_LOCAL_BYTES, MAX_NODES, MAX_PLAIN,
    MAX_PLAIN_DEPTH, Tree,
};

/// How much of each a tree has, or `u64::MAX` where it is more.
#[derive(Clone, Copy, Debug)]
pub struct Extent {
    /// The nodes.
    pub nodes: u64,
    /// The labels of the longest name.
    pub labels: u64,
    /// The most children of a node.
    pub children: u64,
    /// The most attributes of a node or of a plain element.
    pub attributes: u64,
    /// The most plain elements of a node.
    pub plain: u64,
    /// The most levels of plain elements of a node.
    pub plain_depth: u64,
    /// The bytes of the longest canonical local information of a node.
    pub local: u64,
}

impl Extent {
    /// How large a tree is, by one walk that takes no memory.
    pub fn of(tree: &Tree) -> Extent
        ensures { result ≡ extent_of tree.now }
    {
        let local = tree.local();
        let mut extent = Extent {
            nodes: 1,
            labels: 1,
            children: tree.children().len() as u64,
            attributes: (local.attrs.len() as u64).max(local.plain_attributes()),
            plain: local.plain_count(),
            plain_depth: local.plain_depth(),
            local: local.text_len(),
        };
        for child in tree.children() {
            extent.add(Extent::of(child));
        }
        extent
    }

    // Counts one child more, with all below it.
    fn add(&mut self, child: Extent)
        ensures { self.new ≡ extent_with_child self.old child }
    {
        self.nodes = self.nodes.saturating_add(child.nodes);
        self.labels = self.labels.max(child.labels.saturating_add(1));
        self.children = self.children.max(child.children);
        self.attributes = self.attributes.max(child.attributes);
        self.plain = self.plain.max(child.plain);
        self.plain_depth = self.plain_depth.max(child.plain_depth);
        self.local = self.local.max(child.local);
    }

    /// The first limit of a city's nodes that is passed, in the order of the fields, and the count.
    pub fn passed(&self) -> Option<(Which, u64)>
        ensures { result ≡ passed_by_extent self.now }
    {
        if self.nodes > MAX_NODES {
            Some((Which::Nodes, self.nodes))
        } else if self.labels > MAX_LABELS as u64 {
            Some((Which::Depth, self.labels))
        } else if self.children > MAX_CHILDREN {
            Some((Which::Children, self.children))
        } else if self.attributes > MAX_ATTRIBUTES {
            Some((Which::Attributes, self.attributes))
        } else if self.plain > MAX_PLAIN {
            Some((Which::Plain, self.plain))
        } else if self.plain_depth > MAX_PLAIN_DEPTH {
            Some((Which::PlainDepth, self.plain_depth))
        } else if self.local > MAX_LOCAL_BYTES {
            Some((Which::Local, self.local))
        } else {
            None
        }
    }
}
