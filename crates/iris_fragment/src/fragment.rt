//! Fragments of a city's document.
ghost use Rattle.std.specs.Prelude.{◌≡◌, ◌+◌, ◌<◌, true, [], Some, IsSome, is_some, IsSomeAnd, map, ◌++◌, option_to_list, IfOk, OnOk, OnErr};
ghost use Rattle.std.specs.Prelude.{if◌then◌else◌};
ghost use Rattle.std.specs.List.{list_any};
ghost use Rattle.std.specs.Map.{keys_of};
ghost use Rattle.iris_base.specs.NameOrder.{label_eq};
ghost use Rattle.iris_tree.specs.Universe.{Node, label_of};
ghost use Rattle.iris_fragment.specs.declared.status.Status.TheVariants as standing;
ghost use Rattle.iris_fragment.specs.Contents.{status, is_held, is_held_at, has_place, is_listed, listed_at};
ghost use Rattle.iris_fragment.specs.Usable.{usable, held_piece, usable_pieces};
ghost use Rattle.iris_fragment.specs.Changes.{after_taking, places_piece, evicted, evict_answer, has_child, owned, renewed, released, version_at};
ghost use Rattle.iris_fragment.specs.Shape.{HaveRisingNames, IsRooted, IsPieceOf, IsFragmentOf, HasFragmentShape};

use crate::error::EvictError;
use crate::held::{HeldNode, Part};
use crate::nodes::Nodes;
use crate::piece::{Full, Level, Piece};
use crate::status::Status;
use iris_tree::{Label, Local, Mem, Name};
use std::alloc::Global;
use std::marker::Model;

/// The nodes that one agent holds: those that it owns, copies, and nodes of which it has the ids alone.
/// With each node that it holds it holds the node above, up to the top node. Each look-up is one by name
/// in an ordered map. Contracts see it as the `Contents` of `specs/Contents.antt`.
#[derive(Debug, Drop)]
pub struct Fragment {
    alloc: Global,
    top: Label,
    nodes: Nodes,
}

impl Model for Fragment {
    ghost use Rattle.iris_base.specs.contracts.name.Label as label_type;
    ghost use Rattle.iris_fragment.specs.contracts.held.HeldNode as held_type;
    ghost use Rattle.iris_fragment.specs.Contents.{Contents};
    ghost use Rattle.iris_fragment.specs.Stored.{contents_code};
    ghost use Rattle.iris_fragment.specs.Shape.{IsRooted};

    ghost Value = { Contents };

    ghost coded = { contents_code label_type.the_row.coded held_type.the_row.coded };

    ghost view = { λ f. record { top = f.top; nodes = f.nodes } };

    ghost invariant = { λ f. IsRooted f.nodes };
}

// Adds a piece, where there is one.
fn add(pieces: &mut Vec<Piece>, piece: Option<Piece>) -> Mem<()>
    ensures { OnOk result (pieces.new.items ≡ pieces.old.items ++ option_to_list piece) }
{
    if let Some(piece) = piece {
        pieces.push(piece)?;
    }
    Ok(())
}

impl Fragment {
    /// A fragment that holds nothing, of a city whose top node has that label. It takes no memory.
    pub fn new(alloc: Global, top: Label) -> Fragment
        ensures value { result ≡ record { top = top; nodes = [] } }
        ensures of_city { (city : Node) → top ≡ label_of city → IsFragmentOf city result }
    {
        Fragment {
            alloc,
            top,
            nodes: Nodes::new(alloc),
        }
    }

    /// The shape of a fragment of a city: of each fragment that has nodes of that city alone, with the ids
    /// that they have there. Each call that changes a fragment keeps it so, where the pieces that it is
    /// given are of that city. This call does nothing.
    pub fn keeps_shape(&self)
        ensures ordered { HaveRisingNames self.now.nodes }
        ensures rooted { IsRooted self.now.nodes }
        ensures whole { (city : Node) → IsFragmentOf city self.now → HasFragmentShape city self.now }
    {
        let _ = self.nodes.as_map();
    }

    /// How the node of that name stands; none where it is neither held nor listed by a held node or by the
    /// document.
    pub fn status(&self, name: &Name) -> Option<Status>
        ensures { result ≡ status self.now name.now }
    {
        match self.nodes.get(name.as_slice()) {
            Some(node) => Some(node.part.status()),
            None => self.lists(name).then_some(Status::Incomplete),
        }
    }

    // Whether the document or a held node lists the node of that name.
    fn lists(&self, name: &Name) -> bool
        ensures { result ≡ is_listed self.now name.now }
    {
        match name.as_slice().split_last() {
            Some((label, above)) => self.lists_below(above, label),
            None => false,
        }
    }

    fn lists_below(&self, above: &[Label], label: &Label) -> bool
        ensures { result ≡ list_any (λ listed. label_eq listed label.now) (listed_at self.now above.now) }
    {
        if above.is_empty() {
            return self.top == *label;
        }
        match self.nodes.get(above) {
            Some(node) => node.ids.as_slice().contains(label),
            None => false,
        }
    }

    /// Whether the node of that name may be used at that level for that floor, a moment in milliseconds: at
    /// level Ids where it is held, and at level Full where it is owned or a copy with a stamp at or after
    /// the floor.
    pub fn usable(&self, name: &Name, level: Level, floor: u64) -> bool
        ensures { result ≡ usable self.now name.now level floor }
    {
        match self.nodes.get(name.as_slice()) {
            Some(node) => node.part.is_usable(level, floor),
            None => false,
        }
    }

    /// The piece of the node of that name at that level, with its full part at level Full alone; none where
    /// it is not held at that level. An owned value is stamped with the present moment `now`.
    pub fn piece(&self, name: &Name, level: Level, now: u64) -> Mem<Option<Piece>>
        ensures piece { IfOk result (λ piece. piece ≡ held_piece self.now name.now level now) }
        ensures held { IfOk result (λ piece. is_some piece ≡ is_held_at self.now name.now level) }
    {
        match self.nodes.get(name.as_slice()) {
            Some(node) => node.piece(self.alloc, name.as_slice(), level, now),
            None => Ok(None),
        }
    }

    /// The piece of each node that is usable at some level for that floor, at the greater such level, in
    /// the order of names. An owned value is stamped with the present moment `now`.
    pub fn usable_pieces(&self, floor: u64, now: u64) -> Mem<Vec<Piece>>
        ensures pieces { IfOk result (λ pieces. pieces.items ≡ usable_pieces self.now floor now) }
        ensures names { IfOk result (λ pieces. map (λ piece. piece.name) pieces.items ≡ keys_of self.now.nodes) }
    {
        let mut pieces = Vec::new(self.alloc);
        for (name, node) in self.nodes.as_map().iter() {
            let piece = node.usable_piece(self.alloc, name.as_slice(), floor, now)?;
            add(&mut pieces, piece)?;
        }
        Ok(pieces)
    }

    /// Takes in a piece. One whose parent is neither held nor the document is skipped. Its ids are held
    /// from then on; those of a node that is held stay. Its full part is placed where the node is no copy
    /// yet, or where it is newer than the copy, by stamp and then by version, and never where the node is
    /// owned. Returns whether it was placed.
    pub fn take_in(&mut self, piece: Piece) -> Mem<bool>
        ensures placed { IfOk result (λ placed. placed ≡ places_piece self.old piece) }
        ensures ok { OnOk result (self.new ≡ after_taking self.old piece) }
        ensures err { OnErr result (self.new ≡ self.old) }
        ensures of_city { (city : Node) → IsPieceOf city piece → IsFragmentOf city self.old → IsFragmentOf city self.new }
    {
        let Piece { name, ids, full } = piece;
        if !self.nodes.has_place(name.as_slice()) {
            return Ok(false);
        }
        if self.nodes.contains(name.as_slice()) {
            return Ok(self.nodes.join(name.as_slice(), full));
        }
        let placed = full.is_some();
        let part = Part::new(full);
        self.nodes
            .insert(self.alloc, name.as_slice(), HeldNode { ids, part })?;
        Ok(placed)
    }

    /// Evicts a complete node: its copy is dropped, and its ids too unless a child of it is held. Returns
    /// the status that it has then. It takes no memory.
    pub fn evict(&mut self, name: &Name) -> Result<Status, EvictError>
        ensures known { (city : Node) → IsFragmentOf city self.old → IfOk result (λ left. status self.new name.now ≡ Some left) }
        ensures answer { result ≡ evict_answer (status self.old name.now) (has_child self.old.nodes name.now) }
        ensures ok { OnOk result (self.new ≡ evicted self.old name.now) }
        ensures err { OnErr result (self.new ≡ self.old) }
        ensures of_city { (city : Node) → IsFragmentOf city self.old → IsFragmentOf city self.new }
    {
        match self.status(name) {
            Some(Status::Complete) => Ok(self.forget(name)),
            Some(Status::Owned) => Err(EvictError::IsOwned),
            status => Err(EvictError::NotHeld { status }),
        }
    }

    fn forget(&mut self, name: &Name) -> Status
        requires { is_held self.old.nodes name.now ≡ true }
        ensures left { result ≡ (if has_child self.old.nodes name.now then standing.IdComplete else standing.Incomplete) }
        ensures after { self.new ≡ evicted self.old name.now }
        ensures known { (city : Node) → IsFragmentOf city self.old → status self.new name.now ≡ Some result }
        ensures of_city { (city : Node) → IsFragmentOf city self.old → IsFragmentOf city self.new }
    {
        if self.nodes.has_child(name.as_slice()) {
            self.nodes.set_part(name.as_slice(), Part::Bare);
            return Status::IdComplete;
        }
        self.nodes.remove(name.as_slice());
        Status::Incomplete
    }

    /// Whether the parent of the node of that name is held or is the document, so that a piece of it can be
    /// taken in and owned.
    pub fn has_place(&self, name: &Name) -> bool
        ensures { result ≡ has_place self.now.nodes name.now }
    {
        self.nodes.has_place(name.as_slice())
    }

    /// The version of the node of that name: how many updates of it were accepted. None where it is not
    /// owned.
    pub fn version(&self, name: &Name) -> Option<u64>
        ensures { result ≡ version_at self.now name.now }
    {
        self.nodes.version(name.as_slice())
    }

    /// Owns the node of a full piece from now on, by the piece's value and version. The piece is full, and
    /// its parent is held or is the document.
    pub fn set_owned(&mut self, piece: Piece) -> Mem<()>
        requires full { IsSome piece.full }
        requires place { has_place self.old.nodes piece.name ≡ true }
        ensures ok { OnOk result (self.new ≡ owned self.old piece) }
        ensures err { OnErr result (self.new ≡ self.old) }
        ensures of_city { (city : Node) → IsPieceOf city piece → IsFragmentOf city self.old → IsFragmentOf city self.new }
    {
        let Piece { name, ids, full } = piece;
        let Some(Full { local, version, .. }) = full else {
            return Ok(());
        };
        let part = Part::Own { local, version };
        self.nodes
            .insert(self.alloc, name.as_slice(), HeldNode { ids, part })?;
        Ok(())
    }

    /// Gives an owned node that value, which is one version later. The node is owned, and its version is
    /// less than the greatest `u64`. It takes no memory.
    pub fn renew(&mut self, name: &Name, local: Local)
        requires { IsSomeAnd (version_at self.old name.now) (λ version. version < u64.MAX) }
        ensures after { self.new ≡ renewed self.old name.now local }
        ensures of_city { (city : Node) → IsFragmentOf city self.old → IsFragmentOf city self.new }
    {
        if let Some(version) = self.nodes.version(name.as_slice()) {
            let version = version + 1;
            self.nodes
                .set_part(name.as_slice(), Part::Own { local, version });
        }
    }

    /// Owns a node no longer, and keeps a copy of it, stamped with the present moment `now`. The node is
    /// owned. It takes no memory.
    pub fn release(&mut self, name: &Name, now: u64)
        requires { status self.old name.now ≡ Some standing.Owned }
        ensures after { self.new ≡ released self.old name.now now }
        ensures of_city { (city : Node) → IsFragmentOf city self.old → IsFragmentOf city self.new }
    {
        let part = self.nodes.replace(name.as_slice(), Part::Bare);
        if let Some(Part::Own { local, version }) = part {
            let stamp = now;
            let full = Full {
                local,
                version,
                stamp,
            };
            self.nodes.set_part(name.as_slice(), Part::Copied { full });
        }
    }
}
