//! The pieces of a handover.
ghost use Rattle.std.specs.Prelude.{◌≡◌, ◌++◌, ◌≤◌, length, take, IfOk, OnOk, option_to_list};
ghost use Rattle.iris_fragment.specs.declared.piece.Level.TheVariants as level;
ghost use Rattle.iris_fragment.specs.Usable.{held_piece};
ghost use Rattle.iris_agent.specs.Moves.{pieces_above, handover_pieces};

use iris_fragment::{Fragment, Level, Piece};
use iris_tree::{Mem, Name, Sequence};
use std::alloc::Global;

/// The pieces of a handover of a node: of each node above the ids, from the top node down, and then the
/// node in full, stamped with the present moment.
pub(crate) fn handover_pieces(
    alloc: Global,
    fragment: &Fragment,
    name: &Name,
    now: u64,
) -> Mem<Sequence<Piece>>
    ensures { IfOk result (λ pieces. pieces ≡ handover_pieces fragment.now name.now now) }
{
    let mut pieces = pieces_above(alloc, fragment, name, now)?;
    if let Some(piece) = fragment.piece(name, Level::Full, now)? {
        pieces.push(piece)?;
    }
    Ok(pieces)
}

// The ids of each node above, from the top node down.
fn pieces_above(alloc: Global, fragment: &Fragment, name: &Name, now: u64) -> Mem<Sequence<Piece>>
    ensures { IfOk result (λ pieces. pieces ≡ pieces_above fragment.now name.now now) }
{
    let mut pieces = Sequence::new(alloc);
    for count in 1..name.len() {
        add_ids(&mut pieces, alloc, fragment, name, count, now)?;
    }
    Ok(pieces)
}

// Adds the ids of the node whose name is that many labels from the top node down, where it is held.
fn add_ids(
    pieces: &mut Sequence<Piece>,
    alloc: Global,
    fragment: &Fragment,
    name: &Name,
    count: usize,
    now: u64,
) -> Mem<()>
    requires { count ≤ length name.now }
    ensures { OnOk result (pieces.new ≡ pieces.old ++ option_to_list (held_piece fragment.now (take count name.now) level.Ids now)) }
{
    let labels = Vec::from_slice(alloc, &name.as_slice()[..count])?;
    let above = Name::from_vec(labels);
    if let Some(piece) = fragment.piece(&above, Level::Ids, now)? {
        pieces.push(piece)?;
    }
    Ok(())
}
