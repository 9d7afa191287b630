//! A fragment with a bounded number of copies.
ghost use Rattle.std.specs.Prelude.{◌≡◌, ◌≢◌, ◌↔◌, ◌+◌, ◌<◌, ◌≤◌, true, List, [], length, Contains, All, Some, None, IsSome, IsOk, IfOk, OnOk, OnErr};
ghost use Rattle.std.specs.Option.{IsSomeAnd};
ghost use Rattle.std.specs.List.{IsDistinct};
ghost use Rattle.std.specs.Cmp.Lexicographic.{pointwise};
ghost use Rattle.iris_base.specs.declared.name.Label.{Label};
ghost use Rattle.iris_base.specs.NameOrder.{label_eq};
ghost use Rattle.iris_tree.specs.Universe.{Node, label_of};
ghost use Rattle.iris_fragment.specs.declared.status.Status.TheVariants as standing;
ghost use Rattle.iris_fragment.specs.Contents.{status, has_place};
ghost use Rattle.iris_fragment.specs.Changes.{evict_answer, has_child, version_at};
ghost use Rattle.iris_fragment.specs.Shape.{IsPieceOf, IsFragmentOf};
ghost use Rattle.iris_cache.specs.Recency.{taken_by, taken_all, TookFirst, touched, evicted_from, owned_in, renewed_in, released_in, trimmed};
ghost use Rattle.iris_cache.specs.Stored.{cache_of};

use crate::copies::Copies;
use iris_fragment::{EvictError, Fragment, Piece, Status};
use iris_tree::{Label, Local, MAX_CAPACITY, Mem, Name};
use std::alloc::Global;
use std::marker::Model;

/// A fragment with a bounded number of complete nodes, which are copies of nodes of other agents, in the
/// order of their use. Where there would be more copies than the capacity, the one whose last use is the
/// longest ago is evicted. The order is kept by hashed names, so that each use costs the same however many
/// copies there are. Contracts see it as the `Prepared` of `specs/Recency.antt`.
#[derive(Debug, Drop)]
pub struct Cached {
    copies: Copies,
    capacity: u32,
}

impl Model for Cached {
    ghost use Rattle.iris_base.specs.contracts.name.Label as label_type;
    ghost use Rattle.iris_fragment.specs.contracts.held.HeldNode as held_type;
    ghost use Rattle.iris_fragment.specs.Stored.{contents_code};
    ghost use Rattle.iris_cache.specs.Recency.{Prepared, IsBounded};
    ghost use Rattle.iris_cache.specs.Stored.{prepared_code, cache_of};

    ghost Value = { Prepared };

    ghost coded = { prepared_code label_type.the_row.coded (contents_code label_type.the_row.coded held_type.the_row.coded) };

    ghost view = { λ c. record { cache = cache_of c.capacity c.copies; ready = c.copies.recent.ready } };

    ghost invariant = { λ c. IsBounded c.capacity c.copies.recent.order };
}

impl Cached {
    /// A cache that holds nothing, of a city whose top node has that label, for so many copies.
    pub fn new(alloc: Global, capacity: u32, top: Label) -> Mem<Cached>
        requires least { 1 ≤ capacity }
        requires most { capacity ≤ MAX_CAPACITY }
        ensures cache { IfOk result (λ cached. cached.cache ≡ record { capacity = capacity; contents = record { top = top; nodes = [] }; order = [] }) }
        ensures of_city { (city : Node) → top ≡ label_of city → IfOk result (λ cached. IsFragmentOf city cached.cache.contents) }
    {
        let copies = Copies::new(alloc, top)?;
        Ok(Cached { copies, capacity })
    }

    /// What holds of every cache: the order has the names of the complete nodes and no other, each once, and
    /// they are no more than the capacity. This call does nothing.
    pub fn keeps_order(&self)
        ensures complete { (name : List Label) → Contains self.now.cache.order name ↔ (status self.now.cache.contents name ≡ Some standing.Complete) }
        ensures once { IsDistinct (pointwise label_eq) self.now.cache.order }
        ensures within { length self.now.cache.order ≤ self.now.cache.capacity }
        ensures least { 1 ≤ self.now.cache.capacity }
        ensures most { self.now.cache.capacity ≤ MAX_CAPACITY }
    {
        let _ = self.copies.fragment();
        let _ = self.copies.len();
    }

    /// What it holds.
    pub fn fragment(&self) -> &Fragment
        ensures { result.now ≡ self.now.cache.contents }
    {
        self.copies.fragment()
    }

    /// The greatest number of copies that it may hold.
    pub fn capacity(&self) -> u32
        ensures { result ≡ self.now.cache.capacity }
    {
        self.capacity
    }

    /// The names of the complete nodes, the one used last in front.
    pub fn order(&self) -> Mem<Vec<Name>>
        ensures { IfOk result (λ names. names.items ≡ self.now.cache.order) }
    {
        self.copies.names()
    }

    /// Takes in a piece, as `Fragment::take_in` does. A node that is made complete or replaced goes to the
    /// front; where more nodes are complete then than the capacity, the last one is evicted.
    pub fn take_in(&mut self, piece: Piece) -> Mem<()>
        ensures ok { OnOk result (self.new.cache ≡ taken_by self.old.cache piece) }
        ensures err { OnErr result (self.new.cache ≡ self.old.cache) }
        ensures of_city { (city : Node) → IsPieceOf city piece → IsFragmentOf city self.old.cache.contents → IsFragmentOf city self.new.cache.contents }
    {
        let placed = self.copies.take_in(piece)?;
        if placed {
            trim(&mut self.copies, self.capacity);
        }
        Ok(())
    }

    /// Takes in copies of pieces, one after another. Where there is no memory, some first ones of them were
    /// taken in.
    pub fn take_all(&mut self, pieces: &[Piece]) -> Mem<()>
        ensures ok { OnOk result (self.new.cache ≡ taken_all self.old.cache pieces.now) }
        ensures err { OnErr result (TookFirst self.old.cache pieces.now self.new.cache) }
        ensures of_city { (city : Node) → All (IsPieceOf city) pieces.now → IsFragmentOf city self.old.cache.contents → IsFragmentOf city self.new.cache.contents }
    {
        for piece in pieces {
            self.take_in(piece.copy()?)?;
        }
        Ok(())
    }

    /// Tells that a node was used: a complete one goes to the front, and any other stays as it is. It takes
    /// no memory.
    pub fn touch(&mut self, name: &Name)
        ensures after { self.new.cache ≡ touched self.old.cache name.now }
        ensures ready { self.new.ready ≡ self.old.ready }
    {
        self.copies.touch(name);
    }

    /// Evicts a complete node, as `Fragment::evict` does, and returns the status that it has then. It takes
    /// no memory.
    pub fn evict(&mut self, name: &Name) -> Result<Status, EvictError>
        ensures known { (city : Node) → IsFragmentOf city self.old.cache.contents → IfOk result (λ left. status self.new.cache.contents name.now ≡ Some left) }
        ensures answer { result ≡ evict_answer (status self.old.cache.contents name.now) (has_child self.old.cache.contents.nodes name.now) }
        ensures ok { OnOk result (self.new.cache ≡ evicted_from self.old.cache name.now) }
        ensures err { OnErr result (self.new ≡ self.old) }
        ensures ready { self.new.ready ≡ self.old.ready }
        ensures of_city { (city : Node) → IsFragmentOf city self.old.cache.contents → IsFragmentOf city self.new.cache.contents }
    {
        self.copies.evict(name)
    }

    /// Owns the node of a full piece from now on, as `Fragment::set_owned` does. It is no copy then.
    pub fn own(&mut self, piece: Piece) -> Mem<()>
        requires full { IsSome piece.full }
        requires place { has_place self.old.cache.contents.nodes piece.name ≡ true }
        ensures ok { OnOk result (self.new.cache ≡ owned_in self.old.cache piece) }
        ensures err { OnErr result (self.new ≡ self.old) }
        ensures ready { self.new.ready ≡ self.old.ready }
        ensures of_city { (city : Node) → IsPieceOf city piece → IsFragmentOf city self.old.cache.contents → IsFragmentOf city self.new.cache.contents }
    {
        self.copies.own(piece)
    }

    /// Gives an owned node that value, which is one version later, as `Fragment::renew` does. It takes no
    /// memory.
    pub fn renew(&mut self, name: &Name, local: Local)
        requires { IsSomeAnd (version_at self.old.cache.contents name.now) (λ version. version < u64.MAX) }
        ensures after { self.new.cache ≡ renewed_in self.old.cache name.now local }
        ensures ready { self.new.ready ≡ self.old.ready }
        ensures of_city { (city : Node) → IsFragmentOf city self.old.cache.contents → IsFragmentOf city self.new.cache.contents }
    {
        self.copies.renew(name, local);
    }

    /// Makes an owned node ready to be released: `release` of it takes no memory until the next call of
    /// `take_in`, `take_all`, `release` or `ready`. What is held and its order stay. One node is ready at a
    /// time; where the node is not owned, nothing changes.
    pub fn ready(&mut self, name: &Name) -> Mem<()>
        ensures cache { self.new.cache ≡ self.old.cache }
        ensures ok { OnOk result (status self.old.cache.contents name.now ≡ Some standing.Owned → self.new.ready ≡ Some name.now) }
        ensures other { status self.old.cache.contents name.now ≢ Some standing.Owned → self.new ≡ self.old }
        ensures err { OnErr result (self.new ≡ self.old) }
    {
        if self.copies.fragment().status(name) == Some(Status::Owned) {
            self.copies.prepare(name)?;
        }
        Ok(())
    }

    /// Owns a node no longer, and keeps a copy of it, stamped with the present moment `now`, as
    /// `Fragment::release` does. The copy goes to the front; where more nodes are complete then than the
    /// capacity, the last one is evicted. It takes no memory where the node is ready.
    pub fn release(&mut self, name: &Name, now: u64) -> Mem<()>
        requires { status self.old.cache.contents name.now ≡ Some standing.Owned }
        ensures ok { OnOk result (self.new.cache ≡ released_in self.old.cache name.now now) }
        ensures err { OnErr result (self.new ≡ self.old) }
        ensures ready { self.old.ready ≡ Some name.now → IsOk result }
        ensures of_city { (city : Node) → IsFragmentOf city self.old.cache.contents → IsFragmentOf city self.new.cache.contents }
    {
        self.copies.release(name, now)?;
        trim(&mut self.copies, self.capacity);
        Ok(())
    }
}

// Evicts the last copy where there are more than so many.
fn trim(copies: &mut Copies, capacity: u32)
    ensures trimmed { cache_of capacity copies.new ≡ trimmed (cache_of capacity copies.old) }
    ensures within { length copies.old.recent.order ≤ capacity + 1 → length copies.new.recent.order ≤ capacity }
    ensures of_city { (city : Node) → IsFragmentOf city copies.old.contents → IsFragmentOf city copies.new.contents }
{
    if copies.len() > capacity as usize {
        copies.evict_last();
    }
}
