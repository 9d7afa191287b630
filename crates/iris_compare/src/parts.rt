//! Views that have parts of a document.

use iris_fragment::{Full, Level, Piece};
use iris_need::View;
use iris_tree::{Label, Mem, Name, Sequence, Tree};
use std::alloc::Global;

/// The piece of a node at that level. The name is the node's.
pub fn piece(alloc: Global, node: &Tree, name: Name, level: Level) -> Mem<Piece> {
    let mut ids: Sequence<Label> = Sequence::new(alloc);
    for child in node.children() {
        ids.push(*child.label())?;
    }
    let full = match level {
        Level::Ids => None,
        Level::Full => Some(Full {
            local: node.local().copy()?,
            version: 0,
            stamp: 0,
        }),
    };
    Ok(Piece { name, ids, full })
}

// Adds the parts of a node and of all below it, and answers how the digits go on.
fn add<'a>(
    alloc: Global,
    node: &Tree,
    name: &Name,
    levels: &'a [u8],
    view: &mut View,
) -> Mem<&'a [u8]> {
    let (first, mut rest) = match levels.split_first() {
        Some((first, rest)) => (*first, rest),
        None => (b'0', levels),
    };
    match first {
        b'1' => view.add(piece(alloc, node, name.copy()?, Level::Ids)?)?,
        b'2' => view.add(piece(alloc, node, name.copy()?, Level::Full)?)?,
        _ => {}
    }
    for child in node.children() {
        rest = add(alloc, child, &name.child(*child.label())?, rest, view)?;
    }
    Ok(rest)
}

/// The view that has of each node what its digit tells, in the order of names: nothing where there is no
/// digit more.
pub fn view(alloc: Global, document: &Tree, levels: &[u8]) -> Mem<View> {
    let mut view = View::new(alloc);
    let mut name = Name::document(alloc);
    name.push(*document.label())?;
    add(alloc, document, &name, levels, &mut view)?;
    Ok(view)
}
