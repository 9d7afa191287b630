//! Which nodes of a document an evaluation looked into.
ghost use Rattle.std.specs.Prelude.{◌≡◌, ◌<◌, ◌∷◌, ◌++◌, false, List, map, filter, length, IfOk, OnOk};
ghost use Rattle.iris_base.specs.declared.name.Label.{Label};
ghost use Rattle.iris_tree.specs.Universe.{Node, label_of};
ghost use Rattle.iris_xpath.specs.Walk.{names_from};
ghost use Rattle.iris_select.specs.Parts.{place_at};
ghost use Rattle.iris_select.specs.Marks.{marked, paths_of, IsMarked, HaveSameMarks};

use crate::labels::position;
use crate::spot::Edge;
use iris_tree::{Mem, Name, Tree};
use iris_xpath::Separator;
use std::alloc::Global;

/// Marks of a node and of nodes below it.
#[derive(Drop)]
pub struct Marks {
    // The node itself.
    own: bool,
    // The node with all nodes below it.
    whole: bool,
    // The marks of the first children; all further ones have none.
    children: Vec<Marks>,
}

// Gives the first siblings, up to one of them, marks to be set.
fn widen(siblings: &mut Vec<Marks>, alloc: Global, at: usize) -> Mem<()>
    ensures within { OnOk result (at < length siblings.new.items) }
    ensures same { OnOk result (HaveSameMarks siblings.new.items siblings.old.items) }
{
    while siblings.len() <= at {
        siblings.push(Marks::new(alloc))?;
    }
    Ok(())
}

// Adds the names of a node and of all below it. The name grows and shrinks on the way, so that each is
// made once.
fn add_all(node: &Tree, name: &mut Name, full: &mut Vec<Name>) -> Mem<()>
    ensures name { OnOk result (name.new ≡ name.old) }
    ensures full { OnOk result (full.new.items ≡ full.old.items ++ names_from name.old node.now) }
{
    full.push(name.copy()?)?;
    for child in node.children() {
        name.push(*child.label())?;
        add_all(child, name, full)?;
        name.pop();
    }
    Ok(())
}

impl Marks {
    /// None. It takes no memory.
    pub fn new(alloc: Global) -> Marks
        ensures { (node : Node) (path : List Label) → marked node result path ≡ false }
    {
        Marks {
            own: false,
            whole: false,
            children: Vec::new(alloc),
        }
    }

    /// Marks the node at the end of a path from `node`, whose marks these are, and with `//` all below it.
    pub fn mark(
        &mut self,
        alloc: Global,
        node: &Tree,
        path: &[Edge],
        separator: Separator,
    ) -> Mem<()>
        ensures { OnOk result (IsMarked node.now separator (place_at path.now) self.old self.new) }
    {
        let Some((edge, rest)) = path.split_first() else {
            match separator {
                Separator::Slash => self.own = true,
                Separator::DoubleSlash => self.whole = true,
            }
            return Ok(());
        };
        let Edge::Node { at, node: below } = edge else {
            return Ok(());
        };
        let Some(at) = position(node.children(), below.label(), *at) else {
            return Ok(());
        };
        widen(&mut self.children, alloc, at)?;
        self.children[at].mark(alloc, &node.children()[at], rest, separator)
    }

    /// The names of the marked nodes of a document, in the order of names, each once. These are the marks of
    /// its top node.
    pub fn names(&self, alloc: Global, top: &Tree) -> Mem<Vec<Name>>
        ensures { IfOk result (λ names. names.items ≡ map (λ path. label_of top.now ∷ path) (filter (marked top.now self.now) (paths_of top.now))) }
    {
        let mut name = Name::document(alloc);
        name.push(*top.label())?;
        let mut full = Vec::new(alloc);
        self.add_names(top, &mut name, &mut full)?;
        Ok(full)
    }

    /// Adds the names of the nodes that are marked, from `node` on, whose marks these are, in the order of
    /// names.
    pub fn add_names(&self, node: &Tree, name: &mut Name, full: &mut Vec<Name>) -> Mem<()>
        ensures name { OnOk result (name.new ≡ name.old) }
        ensures full { OnOk result (full.new.items ≡ full.old.items ++ map (λ path. name.old ++ path) (filter (marked node.now self.now) (paths_of node.now))) }
    {
        if self.whole {
            return add_all(node, name, full);
        }
        if self.own {
            full.push(name.copy()?)?;
        }
        for (child, marks) in node.children().iter().zip(self.children.iter()) {
            name.push(*child.label())?;
            marks.add_names(child, name, full)?;
            name.pop();
        }
        Ok(())
    }
}
