//! Views: what is known of a document.
ghost use Rattle.std.specs.Prelude.{◌≡◌, [], Some, None, IfOk, OnOk, OnErr, option_copied, MatchOption};
ghost use Rattle.iris_need.specs.Pieces.{piece_at, pieces_in, AreNamed, HaveRisingNames, AreOrderedPieces, first_full, with_piece};
ghost use Rattle.iris_need.specs.Collected.{full_at};

use iris_fragment::{Full, Piece};
use iris_tree::{Label, Local, Mem, Name};
use std::alloc::Global;
use std::collections::BTreeMap;
use std::marker::Model;

/// Pieces of a document by their names. Of each name the first piece stays, and takes the full part of
/// the first that has one.
#[derive(Debug, Drop)]
pub struct View {
    alloc: Global,
    map: BTreeMap<Name, Piece>,
}

impl Model for View {
    ghost use Rattle.std.specs.Coded.{coded×, coded_list};
    ghost use Rattle.iris_base.specs.contracts.name.Label as label_type;
    ghost use Rattle.iris_fragment.specs.contracts.piece.Piece as piece_type;
    ghost use Rattle.iris_need.specs.Pieces.{Pieces, AreNamed};

    ghost Value = { Pieces };

    ghost coded = { coded_list (coded× (coded_list label_type.the_row.coded) piece_type.the_row.coded) };

    ghost view = { λ v. v.map.entries };

    ghost invariant = { λ v. AreNamed v.map.entries };
}

// Puts a full part where there is none.
fn keep_first(held: &mut Option<Full>, later: Option<Full>)
    ensures { held.new ≡ first_full held.old later }
{
    if held.is_none() {
        *held = later;
    }
}

impl View {
    /// A view of nothing. It takes no memory.
    pub fn new(alloc: Global) -> View
        ensures { result ≡ [] }
    {
        View {
            alloc,
            map: BTreeMap::new(alloc),
        }
    }

    /// The shape of a view: each piece stands under its own name, and the names rise. It is so of every view.
    /// This call does nothing.
    pub fn keeps_shape(&self)
        ensures named { AreNamed self.now }
        ensures ordered { HaveRisingNames self.now }
    {
        let _ = self.map.len();
    }

    /// The piece of that name.
    pub fn get(&self, name: &Name) -> Option<&Piece>
        ensures { option_copied result ≡ piece_at self.now name.now }
    {
        self.map.get(name)
    }

    // The labels of the children and the local information of the node of that name, where both are known.
    pub(crate) fn full(&self, name: &Name) -> Option<(&[Label], &Local)>
        ensures { MatchOption result (full_at self.now name.now ≡ None) (λ r. full_at self.now name.now ≡ Some (record { ids = r.0.now; local = r.1.now })) }
    {
        let piece = self.get(name)?;
        let full = piece.full.as_ref()?;
        Some((piece.ids.as_slice(), &full.local))
    }

    /// Takes in a piece. Where there is no memory the view stays as it was.
    pub fn add(&mut self, piece: Piece) -> Mem<()>
        ensures ok { OnOk result (self.new ≡ with_piece self.old piece) }
        ensures err { OnErr result (self.new ≡ self.old) }
    {
        let Some(held) = self.map.get_mut(&piece.name) else {
            let name = piece.name.copy()?;
            self.map.insert(name, piece)?;
            return Ok(());
        };
        keep_first(&mut held.full, piece.full);
        Ok(())
    }

    /// Copies of all pieces, in the order of their names.
    pub fn pieces(&self) -> Mem<Vec<Piece>>
        ensures all { IfOk result (λ pieces. pieces.items ≡ pieces_in self.now) }
        ensures ordered { IfOk result (λ pieces. AreOrderedPieces pieces.items) }
    {
        let mut pieces = Vec::with_capacity(self.alloc, self.map.len())?;
        for piece in self.map.values() {
            pieces.push(piece.copy()?)?;
        }
        Ok(pieces)
    }

    /// A copy, by the same allocator.
    pub fn copy(&self) -> Mem<View>
        ensures { IfOk result (λ copy. copy ≡ self.now) }
    {
        let mut map = BTreeMap::new(self.alloc);
        for (name, piece) in self.map.iter() {
            map.insert(name.copy()?, piece.copy()?)?;
        }
        Ok(View {
            alloc: self.alloc,
            map,
        })
    }
}
