//! Copies of the lists that messages carry.
ghost use Rattle.std.specs.Prelude.{◌≡◌, IfOk};

use iris_fragment::Piece;
use iris_tree::{Change, Mem, Sequence};

// A copy of a list of pieces, by the same allocator.
pub(crate) fn copy_pieces(pieces: &Sequence<Piece>) -> Mem<Sequence<Piece>>
    ensures { IfOk result (λ copy. copy ≡ pieces.now) }
{
    let mut copy = Vec::with_capacity(pieces.allocator(), pieces.len())?;
    for piece in pieces.as_slice() {
        copy.push(piece.copy()?)?;
    }
    Ok(Sequence::from_vec(copy))
}

// A copy of a list of changes, by the same allocator.
#[tactic(auto, using(iris_base::proofs::Copies::copied))]
pub(crate) fn copy_changes(changes: &Sequence<Change>) -> Mem<Sequence<Change>>
    ensures { IfOk result (λ copy. copy ≡ changes.now) }
{
    Ok(changes.copy()?)
}
