//! The pieces with which an agent begins.
ghost use Rattle.std.specs.Prelude.{◌≡◌, ◌++◌, IfOk, OnOk};
ghost use Rattle.iris_tree.specs.Universe.{labels_of, IsOrdered};
ghost use Rattle.iris_start.specs.Pieces.{own_full, pieces_at};

use iris_book::Book;
use iris_fragment::{Full, Piece};
use iris_route::Registry;
use iris_tree::{AgentId, Label, Mem, Name, Sequence, Tree};
use std::alloc::{AllocError, AllocFailed, Global};

// The newest value of a node, where the registry gives the node to that agent.
fn own_full(id: &AgentId, registry: &Registry, book: &Book, name: &Name) -> Mem<Option<Full>>
    ensures { IfOk result (λ full. full ≡ own_full registry.now book.now.history id.now name.now) }
{
    let Some((owner, _)) = registry.owner(name) else {
        return Ok(None);
    };
    if owner != *id {
        return Ok(None);
    }
    let Some(newest) = book.newest(name) else {
        return Ok(None);
    };
    Ok(Some(Full {
        local: newest.local.copy()?,
        version: newest.version,
        stamp: 0,
    }))
}

// The labels of these nodes, in their order.
fn labels_of(alloc: Global, nodes: &[Tree]) -> Mem<Sequence<Label>>
    ensures { IfOk result (λ labels. labels ≡ labels_of nodes.now) }
{
    let mut labels = Vec::with_capacity(alloc, nodes.len())?;
    for node in nodes {
        labels.push(*node.label())?;
    }
    Ok(Sequence::from_vec(labels))
}

/// Adds the pieces of a node and of all below it with which that agent begins. `path` is the name of the node
/// above. At an error some of them may have been added.
pub(crate) fn put_pieces(
    pieces: &mut Vec<Piece>,
    id: &AgentId,
    registry: &Registry,
    book: &Book,
    path: &Name,
    node: &Tree,
) -> Mem<()>
    ensures pieces { OnOk result (pieces.new.items ≡ pieces.old.items ++ pieces_at (own_full registry.now book.now.history id.now) path.now node.now) }
    ensures ordered { OnOk result (IsOrdered node.now) }
{
    let name = path.child(*node.label())?;
    let ids = labels_of(*pieces.allocator(), node.children())?;
    let full = own_full(id, registry, book, &name)?;
    let owned = full.is_some();
    let place = pieces.len();
    pieces.push(Piece {
        name: name.copy()?,
        ids,
        full,
    })?;
    for child in node.children() {
        put_pieces(pieces, id, registry, book, &name, child)?;
    }
    if !owned && pieces.len() == place + 1 {
        pieces.truncate(place);
    }
    Ok(())
}
