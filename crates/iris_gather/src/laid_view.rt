//! A laid view, read one node at a time.
ghost use Rattle.std.specs.Prelude.{◌≡◌, ◌++◌, Some, IfOk, OnOk, option_map, option_to_list};
ghost use Rattle.iris_need.specs.Decided.{at_level, pieces_for};
ghost use Rattle.iris_need.specs.Pieces.{piece_at};
ghost use Rattle.iris_gather.specs.Laid.{laid, joined_with};

use crate::usable::Usable;
use iris_fragment::{Level, Piece};
use iris_need::{Need, View};
use iris_tree::{Mem, Name};
use std::alloc::Global;

/// A view laid over what of a fragment is usable. Nothing of it is made but what is read.
#[derive(Clone, Copy)]
pub(crate) struct LaidView<'a> {
    pub(crate) view: &'a View,
    pub(crate) usable: Usable<'a>,
}

// A piece of a view, with the full part of what is usable where it has none itself.
fn joined(held: Piece, usable: Option<Piece>) -> Piece
    ensures { Some result ≡ joined_with (Some held) usable }
{
    let mut joined = held;
    if joined.full.is_some() {
        return joined;
    }
    if let Some(usable) = usable {
        joined.full = usable.full;
    }
    joined
}

/// A piece, if there is one, as far as a level asks.
pub(crate) fn as_asked(level: Level, piece: Option<Piece>) -> Option<Piece>
    ensures { result ≡ option_map (at_level level) piece }
{
    let mut piece = piece?;
    if level == Level::Ids {
        piece.full = None;
    }
    Some(piece)
}

/// Adds what is there.
pub(crate) fn add<T: Drop>(items: &mut Vec<T>, item: Option<T>) -> Mem<()>
    ensures { OnOk result (items.new.items ≡ items.old.items ++ option_to_list item) }
{
    if let Some(item) = item {
        items.push(item)?;
    }
    Ok(())
}

impl LaidView<'_> {
    /// The piece of that name.
    pub(crate) fn piece(&self, name: &Name) -> Mem<Option<Piece>>
        ensures { IfOk result (λ piece. piece ≡ piece_at (laid self.now.usable.fragment.now self.now.usable.floor self.now.usable.moment self.now.view.now) name.now) }
    {
        self.usable.fragment.keeps_shape();
        let usable = self.usable.piece(name)?;
        match self.view.get(name) {
            Some(held) => Ok(Some(joined(held.copy()?, usable))),
            None => Ok(usable),
        }
    }

    /// The pieces of these needs, each as far as its level asks.
    pub(crate) fn pieces(&self, alloc: Global, needs: &[Need]) -> Mem<Vec<Piece>>
        ensures { IfOk result (λ pieces. pieces.items ≡ pieces_for (laid self.now.usable.fragment.now self.now.usable.floor self.now.usable.moment self.now.view.now) needs.now) }
    {
        let mut pieces = Vec::new(alloc);
        for need in needs {
            let piece = self.piece(&need.name)?;
            add(&mut pieces, as_asked(need.level, piece))?;
        }
        Ok(pieces)
    }
}
