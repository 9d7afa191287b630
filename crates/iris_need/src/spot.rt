//! Where a walk stands.
ghost use Rattle.std.specs.Prelude.{◌≡◌};
ghost use Rattle.iris_need.specs.Program.{spot_of, above_element, tested_at};
ghost use Rattle.iris_need.specs.Walk.{path_of, spot_in, marks_of};

use crate::looks::Marks;
use iris_tree::{Label, Local, Name, State};

/// Where a walk stands, beside the name of the node at or above it.
#[derive(Clone, Copy)]
pub(crate) enum Spot<'p> {
    Document,
    /// The node of the name, which has that label.
    Node(Label),
    /// A plain element of the node, in its local information: the positions that lead to it, from the
    /// node down.
    Element(&'p Local, &'p [usize]),
}

impl<'p> Spot<'p> {
    /// The document, or the node of a name.
    pub(crate) fn of(name: &Name) -> Spot<'p>
        ensures { spot_in name.now result ≡ spot_of name.now }
    {
        let Some((label, _)) = name.as_slice().split_last() else {
            return Spot::Document;
        };
        let label = *label;
        Spot::Node(label)
    }

    /// The local information that a plain element lies in; none at the document or a node.
    pub(crate) fn local(&self) -> Option<&'p Local> {
        match self {
            Spot::Element(local, _) => Some(local),
            Spot::Document | Spot::Node(_) => None,
        }
    }

    /// What is right above a plain element: an element, or the node of the name.
    pub(crate) fn above(local: &'p Local, path: &'p [usize], name: &Name) -> Spot<'p>
        ensures { spot_in name.now result ≡ above_element name.now local.now (path_of path.now) }
    {
        let Some((_, above)) = path.split_last() else {
            return Spot::of(name);
        };
        if above.is_empty() {
            return Spot::of(name);
        }
        Spot::Element(local, above)
    }

    /// The states of the looks that test a place of that name: this state at the name itself.
    pub(crate) fn marked<'m>(&self, name: &'m Name, state: State) -> Marks<'m>
        ensures { marks_of result ≡ tested_at state (spot_in name.now self.now) }
    {
        match self {
            Spot::Document => Marks::Nowhere,
            Spot::Node(_) | Spot::Element(_, _) => Marks::Only(name, state),
        }
    }
}
