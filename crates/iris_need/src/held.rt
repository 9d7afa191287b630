//! The part of a document that an evaluation rests on, as a tree.
ghost use Rattle.std.specs.Prelude.{◌≡◌, ◌⊎◌, ◌++◌, ◌∷◌, [], Some, None, IfOk, OnOk, MatchOption};
ghost use Rattle.std.proofs.lemmas.Map.Keys.{IsStrictlySortedBy-prop};
ghost use Rattle.iris_tree.specs.Universe.{Node, label_of, local_of, children_of, labels_of, node_at};
ghost use Rattle.iris_need.specs.HeldParts.{AreBefore, level_at, local_told, held_part, IsHeldAt};
ghost use Rattle.iris_need.specs.Laws.{need_cmp, AreOrderedNeeds};
ghost use Rattle.iris_need.specs.Pieces.{piece_at};
ghost use Rattle.iris_need.specs.Program.{room};

use crate::need::Need;
use crate::view::View;
use iris_fragment::{Level, Piece};
use iris_tree::{InsertError, Label, Local, Mem, Memory, Name, Tree};
use std::alloc::Global;

/// What an evaluation rests on, and the view that meets it.
#[derive(Clone, Copy)]
pub(crate) struct Held<'a> {
    pub(crate) view: &'a View,
    /// In the order of names, each name once.
    pub(crate) needs: &'a [Need],
    ghost ordered: { AreOrderedNeeds needs.now } by { IsStrictlySortedBy-prop need_cmp needs.now },
}

// The level of the need for a name.
fn level_in(needs: &[Need], name: &Name) -> Option<Level>
    requires ordered { AreOrderedNeeds needs.now }
    ensures { result ≡ level_at needs.now name.now }
{
    match needs.binary_search_by(|need| need.name.cmp(name)) {
        Ok(at) => Some(needs[at].level),
        Err(_) => None,
    }
}

// Adds a node below another; a second one with its label is dropped.
fn add_below(tree: &mut Tree, below: Tree) -> Mem<()>
    ensures { OnOk result (AreBefore (labels_of (children_of tree.old)) (label_of below) → (children_of tree.new ≡ children_of tree.old ++ below ∷ []) × (label_of tree.new ≡ label_of tree.old) × (local_of tree.new ≡ local_of tree.old)) }
{
    match tree.insert(below) {
        Ok(()) => Ok(()),
        Err(InsertError::Twin) => Ok(()),
        Err(InsertError::Memory) => Err(Memory),
    }
}

// What a piece tells of a node's local information, up to a level.
fn local_told(alloc: Global, piece: &Piece, level: Level) -> Mem<Local>
    ensures { IfOk result (λ local. local ≡ local_told level piece.now.full) }
{
    match level {
        Level::Ids => Ok(Local::new(alloc)),
        Level::Full => match &piece.full {
            Some(full) => full.local.copy(),
            None => Ok(Local::new(alloc)),
        },
    }
}

impl<'a> Held<'a> {
    // The level of the need for a name, and the piece that meets it.
    fn told(&self, name: &Name) -> Option<(Level, &'a Piece)>
        ensures { MatchOption result ((level_at self.now.needs.now name.now ≡ None) ⊎ (piece_at self.now.view.now name.now ≡ None)) (λ told. (level_at self.now.needs.now name.now ≡ Some told.0) × (piece_at self.now.view.now name.now ≡ Some told.1.now)) }
    {
        let level = level_in(self.needs, name)?;
        let piece = self.view.get(name)?;
        Some((level, piece))
    }

    // The node at a name as far as the needs tell of it, with all below it. So many levels may be below it.
    pub(crate) fn tree_at(
        &self,
        alloc: Global,
        levels: usize,
        label: Label,
        name: &mut Name,
    ) -> Mem<Tree>
        requires levels { levels ≡ room name.old }
        ensures tree { IfOk result (λ tree. (document n : Node) → IsHeldAt document self.now.view.now self.now.needs.now name.old n → label_of n ≡ label → tree ≡ held_part self.now.needs.now name.old n) }
        ensures name { OnOk result (name.new ≡ name.old) }
    {
        let Some((level, piece)) = self.told(name) else {
            return Ok(Tree::new(alloc, label, Local::new(alloc)));
        };
        let mut tree = Tree::new(alloc, label, local_told(alloc, piece, level)?);
        if levels == 0 {
            return Ok(tree);
        }
        for child in piece.ids.as_slice() {
            name.push(*child)?;
            let below = self.tree_at(alloc, levels - 1, *child, name)?;
            name.pop();
            add_below(&mut tree, below)?;
        }
        Ok(tree)
    }
}
