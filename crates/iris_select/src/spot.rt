//! Where an evaluation stands in a document.
ghost use Rattle.std.specs.Prelude.{◌≡◌, ◌<◌, Some, None, length, option_map, option_and_then, slice_get, IfSome, map};
ghost use Rattle.iris_tree.specs.Universe.{Node, node_at};
ghost use Rattle.iris_tree.specs.Document.{part_at_place};
ghost use Rattle.iris_tree.specs.Document as edges;
ghost use Rattle.iris_xpath.specs.Places.{attribute_of};
ghost use Rattle.iris_xpath.specs.Meaning.{passes, value_of};
ghost use Rattle.iris_select.specs.Parts.{edge_of, place_at, part_of, children, children_in, child_of, child_part, node_child, InOrder};

use crate::labels::search;
use iris_tree::{Label, Plain, Tree, is_id};
use iris_xpath::NameTest;
use std::slice;

/// An edge down.
#[derive(Clone, Copy)]
pub enum Edge<'a> {
    /// To the plain element at that position among its siblings.
    Position(usize),
    /// To a node, by its label. Where it stands among its siblings is told by `at` in most cases, and no
    /// contract rests on that.
    Node { at: usize, node: &'a Tree },
}

/// What stands at a place.
#[derive(Clone, Copy)]
pub enum Spot<'a> {
    Document,
    Node(&'a Tree),
    Plain(&'a Plain),
}

/// What stands right below a place, and the edge to it.
#[derive(Clone, Copy)]
pub struct Child<'a> {
    pub edge: Edge<'a>,
    pub spot: Spot<'a>,
}

/// What stands right below a place, in place order: plain elements before nodes.
#[derive(Clone, Copy)]
pub struct Children<'a> {
    plain: &'a [Plain],
    nodes: &'a [Tree],
}

impl<'a> Children<'a> {
    /// How many there are.
    pub fn len(&self) -> usize
        ensures { result ≡ length (children_in self.now) }
    {
        self.plain.len() + self.nodes.len()
    }

    /// The one at that position among all of them.
    pub fn get(&self, at: usize) -> Child<'a>
        requires { at < length (children_in self.now) }
        ensures { slice_get (children_in self.now) at ≡ Some (child_of result) }
    {
        let plain = self.plain;
        if at < plain.len() {
            return Child {
                edge: Edge::Position(at),
                spot: Spot::Plain(&plain[at]),
            };
        }
        let nodes = self.nodes;
        let place = at - plain.len();
        if place >= nodes.len() {
            unreachable!()
        }
        node_at(&nodes[place], place)
    }
}

// A node that stands right below, at that position.
fn node_at<'a>(node: &'a Tree, at: usize) -> Child<'a>
    ensures { child_of result ≡ node_child node.now }
{
    Child {
        edge: Edge::Node { at, node },
        spot: Spot::Node(node),
    }
}

impl<'a> Spot<'a> {
    /// What stands right below, where `top` is the top node of the document.
    pub fn children(self, top: &'a Tree) -> Children<'a>
        ensures value { children_in result ≡ children top.now (part_of self.entry) }
        ensures ordered { InOrder top.now (part_of self.entry) }
    {
        match self {
            Spot::Document => {
                // What it ensures of the order of siblings is what the meaning rests on.
                let _ = top.children();
                Children {
                    plain: &[],
                    nodes: slice::from_ref(top),
                }
            }
            Spot::Node(node) => Children {
                plain: node.local().plain.as_slice(),
                nodes: node.children(),
            },
            Spot::Plain(plain) => Children {
                plain: plain.kids.as_slice(),
                nodes: &[],
            },
        }
    }

    /// What stands at that edge right below.
    pub fn child(self, top: &'a Tree, edge: &Edge) -> Option<Spot<'a>>
        ensures { option_map part_of result ≡ child_part top.now (part_of self.entry) (edge_of edge.now) }
    {
        match (self, edge) {
            (Spot::Document, Edge::Node { node, .. }) => {
                if *top.label() == *node.label() {
                    Some(Spot::Node(top))
                } else {
                    None
                }
            }
            (Spot::Node(above), Edge::Node { node, .. }) => {
                Some(Spot::Node(above.child(node.label())?))
            }
            (Spot::Node(node), Edge::Position(at)) => {
                Some(Spot::Plain(node.local().plain.as_slice().get(*at)?))
            }
            (Spot::Plain(plain), Edge::Position(at)) => {
                Some(Spot::Plain(plain.kids.as_slice().get(*at)?))
            }
            (Spot::Document, Edge::Position(_)) | (Spot::Plain(_), Edge::Node { .. }) => None,
        }
    }

    /// The node with that label right below, and the edge to it.
    pub fn node_child(self, top: &'a Tree, label: &Label) -> Option<Child<'a>>
        ensures part { option_map (λ child. part_of child.spot) result ≡ child_part top.now (part_of self.entry) (edges.label label.now) }
        ensures edge { IfSome result (λ child. edge_of child.edge ≡ edges.label label.now) }
    {
        match self {
            Spot::Document => {
                if *top.label() != *label {
                    return None;
                }
                Some(node_at(top, 0))
            }
            Spot::Node(node) => {
                let siblings = node.children();
                match search(siblings, label) {
                    Ok(at) => Some(node_at(&siblings[at], at)),
                    Err(_) => None,
                }
            }
            Spot::Plain(_) => None,
        }
    }

    /// What stands at the end of these edges from the document.
    pub fn find(top: &'a Tree, edges: &[Edge]) -> Option<Spot<'a>>
        ensures { option_map part_of result ≡ part_at_place top.now (map edge_of edges.now) }
    {
        let mut spot = Spot::Document;
        for edge in edges {
            spot = spot.child(top, edge)?;
        }
        Some(spot)
    }

    /// Whether a step with that test goes to it.
    pub fn passes(self, test: &NameTest) -> bool
        ensures { result ≡ passes (Some (part_of self.entry)) test.now }
    {
        match (self, test) {
            (Spot::Node(_) | Spot::Plain(_), NameTest::Any) => true,
            (Spot::Node(node), NameTest::Kind(kind)) => node.label().kind == *kind,
            (Spot::Plain(plain), NameTest::Tag(tag)) => plain.tag.as_str() == tag.as_str(),
            (Spot::Document, _)
            | (Spot::Node(_), NameTest::Tag(_))
            | (Spot::Plain(_), NameTest::Kind(_)) => false,
        }
    }

    /// Its value: the text of a plain element without kids.
    pub fn value(self) -> Option<&'a str>
        ensures { option_map (λ text. text.now) result ≡ value_of (Some (part_of self.entry)) }
    {
        match self {
            Spot::Plain(plain) if plain.kids.is_empty() => Some(plain.text.as_str()),
            Spot::Document | Spot::Node(_) | Spot::Plain(_) => None,
        }
    }

    /// The value of its attribute of that name.
    pub fn attribute(self, name: &str) -> Option<&'a str>
        ensures { option_map (λ text. text.now) result ≡ attribute_of (part_of self.entry) name.now }
    {
        match self {
            Spot::Document => None,
            Spot::Node(node) => {
                if is_id(name) {
                    Some(node.label().id.as_str())
                } else {
                    node.local().attrs.get(name)
                }
            }
            Spot::Plain(plain) => plain.attrs.get(name),
        }
    }
}
