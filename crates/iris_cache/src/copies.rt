//! A fragment with the order of its copies.
ghost use Rattle.std.specs.Prelude.{◌≡◌, ◌+◌, ◌<◌, ◌≤◌, true, false, [], Some, None, IsSome, IsOk, IfOk, OnOk, OnErr, length, if◌then◌else◌};
ghost use Rattle.std.specs.Option.{IsSomeAnd};
ghost use Rattle.std.specs.List.{IsDistinct};
ghost use Rattle.std.specs.Cmp.Lexicographic.{pointwise};
ghost use Rattle.iris_base.specs.NameOrder.{label_eq};
ghost use Rattle.iris_tree.specs.Universe.{Node, label_of};
ghost use Rattle.iris_fragment.specs.declared.status.Status.TheVariants as standing;
ghost use Rattle.iris_fragment.specs.Contents.{status, has_place};
ghost use Rattle.iris_fragment.specs.Changes.{evicted, after_taking, places_piece, evict_answer, has_child, owned, renewed, released, version_at};
ghost use Rattle.iris_fragment.specs.Shape.{IsPieceOf, IsFragmentOf};
ghost use Rattle.iris_cache.specs.Order.{without, without_any, in_front, last_of};
ghost use Rattle.iris_cache.specs.Recency.{is_complete, ListsComplete, contents_without};

use crate::recency::Recency;
use iris_fragment::{EvictError, Fragment, Piece, Status};
use iris_tree::{Label, Local, Mem, Name};
use std::alloc::Global;
use std::marker::Model;

/// A fragment and the names of its complete nodes, the one used last in front. Contracts see it as the
/// `Ordered` of `specs/Stored.antt`.
#[derive(Debug, Drop)]
pub(crate) struct Copies {
    fragment: Fragment,
    recency: Recency,
}

impl Model for Copies {
    ghost use Rattle.iris_base.specs.contracts.name.Label as label_type;
    ghost use Rattle.iris_fragment.specs.contracts.held.HeldNode as held_type;
    ghost use Rattle.iris_fragment.specs.Stored.{contents_code};
    ghost use Rattle.iris_cache.specs.Recency.{ListsComplete};
    ghost use Rattle.iris_cache.specs.Stored.{Ordered, ordered_code};

    ghost Value = { Ordered };

    ghost coded = { ordered_code label_type.the_row.coded (contents_code label_type.the_row.coded held_type.the_row.coded) };

    ghost view = { λ c. record { contents = c.fragment; recent = c.recency } };

    ghost invariant = { λ c. ListsComplete c.fragment c.recency.order };
}

impl Copies {
    pub(crate) fn new(alloc: Global, top: Label) -> Mem<Copies>
        ensures contents { IfOk result (λ copies. copies.contents ≡ record { top = top; nodes = [] }) }
        ensures recent { IfOk result (λ copies. copies.recent ≡ record { order = []; ready = None }) }
        ensures of_city { (city : Node) → top ≡ label_of city → IfOk result (λ copies. IsFragmentOf city copies.contents) }
    {
        let recency = Recency::new(alloc)?;
        Ok(Copies {
            fragment: Fragment::new(alloc, top),
            recency,
        })
    }

    pub(crate) fn fragment(&self) -> &Fragment
        ensures result { result.now ≡ self.now.contents }
        ensures complete { ListsComplete self.now.contents self.now.recent.order }
    {
        &self.fragment
    }

    // The number of copies.
    pub(crate) fn len(&self) -> usize
        ensures len { result ≡ length self.now.recent.order }
        ensures once { IsDistinct (pointwise label_eq) self.now.recent.order }
    {
        self.recency.len()
    }

    // The names of the copies in their order.
    pub(crate) fn names(&self) -> Mem<Vec<Name>>
        ensures { IfOk result (λ names. names.items ≡ self.now.recent.order) }
    {
        self.recency.names()
    }

    // Takes in a piece. A node that is made complete or replaced goes to the front. Returns whether there is
    // such a node.
    pub(crate) fn take_in(&mut self, piece: Piece) -> Mem<bool>
        ensures placed { IfOk result (λ placed. placed ≡ places_piece self.old.contents piece) }
        ensures contents { OnOk result (self.new.contents ≡ after_taking self.old.contents piece) }
        ensures order { IfOk result (λ placed. self.new.recent.order ≡ (if placed then in_front self.old.recent.order piece.name else self.old.recent.order)) }
        ensures len { length self.new.recent.order ≤ length self.old.recent.order + 1 }
        ensures err_contents { OnErr result (self.new.contents ≡ self.old.contents) }
        ensures err_order { OnErr result (self.new.recent.order ≡ self.old.recent.order) }
        ensures of_city { (city : Node) → IsPieceOf city piece → IsFragmentOf city self.old.contents → IsFragmentOf city self.new.contents }
    {
        if piece.full.is_none() {
            return self.take_ids(piece);
        }
        if self.recency.contains(&piece.name) {
            return self.replace(piece);
        }
        self.recency.prepare(&piece.name)?;
        let placed = self.fragment.take_in(piece)?;
        if placed {
            self.recency.admit();
        }
        Ok(placed)
    }

    // Takes in a piece without a full part. No node is made complete.
    fn take_ids(&mut self, piece: Piece) -> Mem<bool>
        requires { piece.full ≡ None }
        ensures placed { IfOk result (λ placed. placed ≡ places_piece self.old.contents piece) }
        ensures none { IfOk result (λ placed. placed ≡ false) }
        ensures contents { OnOk result (self.new.contents ≡ after_taking self.old.contents piece) }
        ensures recent { self.new.recent ≡ self.old.recent }
        ensures err { OnErr result (self.new ≡ self.old) }
        ensures of_city { (city : Node) → IsPieceOf city piece → IsFragmentOf city self.old.contents → IsFragmentOf city self.new.contents }
    {
        let placed = self.fragment.take_in(piece)?;
        Ok(placed)
    }

    // Takes in a piece of a complete node.
    fn replace(&mut self, piece: Piece) -> Mem<bool>
        requires { is_complete self.old.contents piece.name ≡ true }
        ensures placed { IfOk result (λ placed. placed ≡ places_piece self.old.contents piece) }
        ensures contents { OnOk result (self.new.contents ≡ after_taking self.old.contents piece) }
        ensures order { IfOk result (λ placed. self.new.recent.order ≡ (if placed then in_front self.old.recent.order piece.name else self.old.recent.order)) }
        ensures len { length self.new.recent.order ≤ length self.old.recent.order + 1 }
        ensures err { OnErr result (self.new ≡ self.old) }
        ensures of_city { (city : Node) → IsPieceOf city piece → IsFragmentOf city self.old.contents → IsFragmentOf city self.new.contents }
    {
        let name = piece.name.copy()?;
        let placed = self.fragment.take_in(piece)?;
        if placed {
            self.recency.touch(&name);
        }
        Ok(placed)
    }

    // Puts a complete node in front.
    pub(crate) fn touch(&mut self, name: &Name)
        ensures contents { self.new.contents ≡ self.old.contents }
        ensures order { self.new.recent.order ≡ (if is_complete self.old.contents name.now then in_front self.old.recent.order name.now else self.old.recent.order) }
        ensures len { length self.new.recent.order ≡ length self.old.recent.order }
        ensures ready { self.new.recent.ready ≡ self.old.recent.ready }
    {
        self.recency.touch(name);
    }

    // Evicts a complete node, and returns the status that it has then.
    pub(crate) fn evict(&mut self, name: &Name) -> Result<Status, EvictError>
        ensures answer { result ≡ evict_answer (status self.old.contents name.now) (has_child self.old.contents.nodes name.now) }
        ensures contents { OnOk result (self.new.contents ≡ evicted self.old.contents name.now) }
        ensures order { OnOk result (self.new.recent.order ≡ without self.old.recent.order name.now) }
        ensures len { length self.new.recent.order ≤ length self.old.recent.order }
        ensures ready { self.new.recent.ready ≡ self.old.recent.ready }
        ensures err { OnErr result (self.new ≡ self.old) }
        ensures known { (city : Node) → IsFragmentOf city self.old.contents → IfOk result (λ left. status self.new.contents name.now ≡ Some left) }
        ensures of_city { (city : Node) → IsFragmentOf city self.old.contents → IsFragmentOf city self.new.contents }
    {
        self.fragment.keeps_shape();
        let left = self.fragment.evict(name)?;
        self.recency.remove(name);
        Ok(left)
    }

    // Evicts the copy whose last use is the longest ago, if there is one. No name is ready then.
    pub(crate) fn evict_last(&mut self)
        ensures contents { self.new.contents ≡ contents_without self.old.contents (last_of self.old.recent.order) }
        ensures order { self.new.recent.order ≡ without_any self.old.recent.order (last_of self.old.recent.order) }
        ensures of_city { (city : Node) → IsFragmentOf city self.old.contents → IsFragmentOf city self.new.contents }
    {
        self.fragment.keeps_shape();
        if let Some(name) = self.recency.pop_last() {
            let _ = self.fragment.evict(&name);
        }
    }

    // Owns the node of a full piece, which is no copy then.
    pub(crate) fn own(&mut self, piece: Piece) -> Mem<()>
        requires full { IsSome piece.full }
        requires place { has_place self.old.contents.nodes piece.name ≡ true }
        ensures contents { OnOk result (self.new.contents ≡ owned self.old.contents piece) }
        ensures order { OnOk result (self.new.recent.order ≡ without self.old.recent.order piece.name) }
        ensures len { length self.new.recent.order ≤ length self.old.recent.order }
        ensures ready { self.new.recent.ready ≡ self.old.recent.ready }
        ensures err { OnErr result (self.new ≡ self.old) }
        ensures of_city { (city : Node) → IsPieceOf city piece → IsFragmentOf city self.old.contents → IsFragmentOf city self.new.contents }
    {
        let name = piece.name.copy()?;
        self.fragment.set_owned(piece)?;
        self.recency.remove(&name);
        Ok(())
    }

    // Gives an owned node that value.
    pub(crate) fn renew(&mut self, name: &Name, local: Local)
        requires { IsSomeAnd (version_at self.old.contents name.now) (λ version. version < u64.MAX) }
        ensures contents { self.new.contents ≡ renewed self.old.contents name.now local }
        ensures recent { self.new.recent ≡ self.old.recent }
        ensures of_city { (city : Node) → IsFragmentOf city self.old.contents → IsFragmentOf city self.new.contents }
    {
        self.fragment.renew(name, local);
    }

    // Makes the name of an owned node ready, so that its release takes no memory.
    pub(crate) fn prepare(&mut self, name: &Name) -> Mem<()>
        requires { is_complete self.old.contents name.now ≡ false }
        ensures contents { self.new.contents ≡ self.old.contents }
        ensures order { self.new.recent.order ≡ self.old.recent.order }
        ensures ready { OnOk result (self.new.recent.ready ≡ Some name.now) }
        ensures err { OnErr result (self.new ≡ self.old) }
        ensures is_ready { self.old.recent.ready ≡ Some name.now → IsOk result }
    {
        self.recency.prepare(name)
    }

    // Keeps a copy of an owned node, and puts it in front.
    pub(crate) fn release(&mut self, name: &Name, now: u64) -> Mem<()>
        requires { status self.old.contents name.now ≡ Some standing.Owned }
        ensures contents { OnOk result (self.new.contents ≡ released self.old.contents name.now now) }
        ensures order { OnOk result (self.new.recent.order ≡ in_front self.old.recent.order name.now) }
        ensures len { length self.new.recent.order ≤ length self.old.recent.order + 1 }
        ensures err { OnErr result (self.new ≡ self.old) }
        ensures ready { self.old.recent.ready ≡ Some name.now → IsOk result }
        ensures of_city { (city : Node) → IsFragmentOf city self.old.contents → IsFragmentOf city self.new.contents }
    {
        self.recency.prepare(name)?;
        self.fragment.release(name, now);
        self.recency.admit();
        Ok(())
    }
}
