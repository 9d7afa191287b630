//! Agents as a city starts.
ghost use Rattle.std.specs.Prelude.{◌≡◌, ◌≤◌, true, false, fold, List, IfOk, OnOk};
ghost use Rattle.std.specs.Cmp.Lexicographic.{pointwise};
ghost use Rattle.iris_base.specs.declared.limits.TheConstants.{MAX_CAPACITY};
ghost use Rattle.iris_base.specs.declared.name.Label.{Label};
ghost use Rattle.iris_base.specs.NameOrder.{label_eq};
ghost use Rattle.iris_fragment.specs.Contents.{has_place};
ghost use Rattle.iris_migrate.specs.Titles.{seat_at};
ghost use Rattle.iris_agent.specs.Starts.{AreBegun, empty_cache, owned_names, piece_begun, started, update_number, last_in, raised};
ghost use Rattle.iris_agent.specs.Tables.{tables_of};

use crate::agent::Agent;
use crate::asks::Asks;
use iris_cache::Cached;
use iris_fragment::Piece;
use iris_gather::Gathers;
use iris_keeper::Kept;
use iris_migrate::Titles;
use iris_tree::{AgentId, Kind, Label, MAX_CAPACITY, Mem, Name, Sequence};
use std::alloc::{AllocError, AllocFailed, Global};

// Holds the ids of a piece's node, and owns the node of a full one.
fn begin(cache: &mut Cached, piece: &Piece) -> Mem<()>
    requires { has_place cache.old.cache.contents.nodes piece.now.name ≡ true }
    ensures { OnOk result (cache.new.cache ≡ piece_begun cache.old.cache piece.now) }
{
    let copy = piece.copy()?;
    if copy.full.is_some() {
        cache.own(copy)
    } else {
        cache.take_in(copy)
    }
}

// A cache that begins with these pieces.
fn begun(alloc: Global, capacity: u32, top: &Label, pieces: &[Piece]) -> Mem<Cached>
    requires least { 1 ≤ capacity }
    requires most { capacity ≤ MAX_CAPACITY }
    requires pieces { AreBegun (empty_cache capacity top.now) pieces.now }
    ensures { IfOk result (λ cache. cache.cache ≡ fold piece_begun (empty_cache capacity top.now) pieces.now) }
{
    let mut cache = Cached::new(alloc, capacity, *top)?;
    for piece in pieces {
        begin(&mut cache, piece)?;
    }
    Ok(cache)
}

// The names of the full pieces.
fn owned_names(alloc: Global, pieces: &[Piece]) -> Mem<Vec<Name>>
    ensures { IfOk result (λ names. names.items ≡ owned_names pieces.now) }
{
    let mut names = Vec::new(alloc);
    for piece in pieces {
        if piece.full.is_some() {
            names.push(piece.name.copy()?)?;
        }
    }
    Ok(names)
}

// The last number of a node, if it is owned, is at least that.
fn raise(titles: &mut Titles, name: &Name, number: u64)
    ensures there { seat_at titles.new name.now ≡ raised (seat_at titles.old name.now) number }
    ensures others { (other : List Label) → pointwise label_eq other name.now ≡ false → seat_at titles.new other ≡ seat_at titles.old other }
{
    let Some(last) = titles.last(name) else {
        return;
    };
    if last < number {
        titles.set_last(name, number);
    }
}

// The last number of an owned node is at least that of a row that tells of an update of it.
fn note_row(titles: &mut Titles, row: &Kept)
    ensures { (name : List Label) → seat_at titles.new name ≡ raised (seat_at titles.old name) (update_number name row.now) }
{
    if let Kept::Update { name, no, .. } = row {
        raise(titles, name, *no);
    }
}

// The last numbers of the owned nodes are at least those that the rows tell.
fn note_rows(titles: &mut Titles, rows: &[Kept])
    ensures { (name : List Label) → seat_at titles.new name ≡ raised (seat_at titles.old name) (last_in rows.now name) }
{
    for row in rows {
        note_row(titles, row);
    }
}

impl Agent {
    /// An agent as a city starts. `top` is the label of the city's top node, and `capacity` the greatest
    /// number of copies that it may hold. It owns the node of each full piece, and of each other piece, of
    /// a node above those, it holds the ids; a piece stands behind that of the node above it. `rows` are all
    /// that the city's keeper tells, in any order: they say which update of each node was the last. A row of
    /// a node that it does not own costs one look-up.
    pub fn new(
        alloc: Global,
        id: AgentId,
        kinds: Sequence<Kind>,
        top: Label,
        capacity: u32,
        pieces: &[Piece],
        rows: &[Kept],
    ) -> Mem<Agent>
        requires least { 1 ≤ capacity }
        requires most { capacity ≤ MAX_CAPACITY }
        requires pieces { AreBegun (empty_cache capacity top) pieces.now }
        ensures { IfOk result (λ agent. tables_of agent ≡ started id kinds top capacity pieces.now rows.now) }
    {
        let cache = begun(alloc, capacity, &top, pieces)?;
        let owned = owned_names(alloc, pieces)?;
        let mut titles = Titles::new(alloc, &owned)?;
        note_rows(&mut titles, rows);
        let gathers = Gathers::new(alloc);
        let asked = Asks::new(alloc);
        Ok(Agent {
            alloc,
            id,
            kinds,
            top,
            cache,
            titles,
            gathers,
            asked,
        })
    }
}
