//! Views laid over the usable part of a fragment.
ghost use Rattle.std.specs.Prelude.{◌≡◌, ℕ, List, IfOk};
ghost use Rattle.iris_base.specs.declared.name.Label.{Label};
ghost use Rattle.iris_fragment.specs.Contents.{Contents};
ghost use Rattle.iris_fragment.specs.Shape.{HaveRisingNames};
ghost use Rattle.iris_need.specs.Pieces.{Pieces, piece_at};
ghost use Rattle.iris_gather.specs.Laid.{laid, usable_at, joined_with};

use iris_fragment::Fragment;
use iris_need::View;
use iris_tree::Mem;

/// A copy of the view, laid over what of the fragment is usable for the floor, a moment in milliseconds:
/// what the view has stays. An owned value is stamped with the present moment `now`. It costs as much as
/// all of the fragment.
pub fn lay(view: &View, fragment: &Fragment, floor: u64, now: u64) -> Mem<View>
    ensures { IfOk result (λ over. over ≡ laid fragment.now floor now view.now) }
{
    let mut over = view.copy()?;
    for piece in fragment.usable_pieces(floor, now)? {
        over.add(piece)?;
    }
    Ok(over)
}

/// What a laid view has of each node: what the view has, and after that what is usable. This call does
/// nothing.
pub fn laid_at_names()
    ensures { (f : Contents) (floor now : ℕ) (view : Pieces) (name : List Label)
        → HaveRisingNames f.nodes
        → piece_at (laid f floor now view) name ≡ joined_with (piece_at view name) (usable_at f floor now name) }
{}
