//! How a fragment holds one node.
ghost use Rattle.std.specs.Prelude.{◌≡◌, IfOk};

use crate::piece::{Full, Level, Piece, copy_ids};
use crate::status::Status;
use iris_tree::{Label, Local, Mem, Name, Sequence};
use std::alloc::Global;

/// What is held of a node beside its ids.
#[derive(Debug, Drop)]
pub enum Part {
    /// The agent's own: its value, and how many of its updates were accepted.
    Own { local: Local, version: u64 },
    /// A copy.
    Copied { full: Full },
    /// Nothing.
    Bare,
}

/// A node as a fragment holds it.
#[derive(Debug, Drop)]
pub struct HeldNode {
    pub ids: Sequence<Label>,
    pub part: Part,
}

impl Part {
    ghost use Rattle.iris_fragment.specs.declared.held.Part.TheVariants.{Bare};
    ghost use Rattle.iris_fragment.specs.Contents.{part_status};
    ghost use Rattle.iris_fragment.specs.Usable.{is_usable, usable_level, full_held};
    ghost use Rattle.iris_fragment.specs.Changes.{takes, joined_part, own_version};

    // A copy, where a full part came with a piece.
    pub(crate) fn new(full: Option<Full>) -> Part
        ensures { result ≡ joined_part Bare full }
    {
        match full {
            Some(full) => Part::Copied { full },
            None => Part::Bare,
        }
    }

    pub(crate) fn status(&self) -> Status
        ensures { result ≡ part_status self.now }
    {
        match self {
            Part::Own { .. } => Status::Owned,
            Part::Copied { .. } => Status::Complete,
            Part::Bare => Status::IdComplete,
        }
    }

    pub(crate) fn is_usable(&self, level: Level, floor: u64) -> bool
        ensures { result ≡ is_usable self.now level floor }
    {
        match (level, self) {
            (Level::Ids, _) | (Level::Full, Part::Own { .. }) => true,
            (Level::Full, Part::Copied { full }) => floor <= full.stamp,
            (Level::Full, Part::Bare) => false,
        }
    }

    // The greater level at which it is usable.
    pub(crate) fn usable_level(&self, floor: u64) -> Option<Level>
        ensures { result ≡ usable_level self.now floor }
    {
        if self.is_usable(Level::Full, floor) {
            Some(Level::Full)
        } else if self.is_usable(Level::Ids, floor) {
            Some(Level::Ids)
        } else {
            None
        }
    }

    // The version of an owned node.
    pub(crate) fn own_version(&self) -> Option<u64>
        ensures { result ≡ own_version self.now }
    {
        match self {
            Part::Own { version, .. } => Some(*version),
            _ => None,
        }
    }

    // A copy of the full part, where there is one. An owned value is stamped with the present moment.
    pub(crate) fn full(&self, now: u64) -> Mem<Option<Full>>
        ensures { IfOk result (λ full. full ≡ full_held self.now now) }
    {
        match self {
            Part::Own { local, version } => Ok(Some(Full {
                local: local.copy()?,
                version: *version,
                stamp: now,
            })),
            Part::Copied { full } => Ok(Some(full.copy()?)),
            Part::Bare => Ok(None),
        }
    }

    // Whether a full part that arrives takes this place.
    pub(crate) fn takes(&self, full: &Full) -> bool
        ensures { result ≡ takes self.now full.now }
    {
        match self {
            Part::Own { .. } => false,
            Part::Copied { full: held } => {
                held.stamp < full.stamp || (held.stamp == full.stamp && held.version < full.version)
            }
            Part::Bare => true,
        }
    }
}

impl HeldNode {
    ghost use Rattle.iris_fragment.specs.Usable.{piece_of, usable_piece};

    // The piece of the node at that level, where it is held there.
    pub(crate) fn piece(
        &self,
        alloc: Global,
        name: &[Label],
        level: Level,
        now: u64,
    ) -> Mem<Option<Piece>>
        ensures { IfOk result (λ piece. piece ≡ piece_of name.now self.now level now) }
    {
        match level {
            Level::Ids => Ok(Some(self.told(alloc, name, None)?)),
            Level::Full => match self.part.full(now)? {
                Some(full) => Ok(Some(self.told(alloc, name, Some(full))?)),
                None => Ok(None),
            },
        }
    }

    // The piece of the node at the greater level at which it is usable.
    pub(crate) fn usable_piece(
        &self,
        alloc: Global,
        name: &[Label],
        floor: u64,
        now: u64,
    ) -> Mem<Option<Piece>>
        ensures { IfOk result (λ piece. piece ≡ usable_piece floor now (name.now, self.now)) }
    {
        match self.part.usable_level(floor) {
            Some(level) => self.piece(alloc, name, level, now),
            None => Ok(None),
        }
    }

    // A piece with its ids.
    fn told(&self, alloc: Global, name: &[Label], full: Option<Full>) -> Mem<Piece>
        ensures { IfOk result (λ piece. piece ≡ record { name = name.now; ids = self.now.ids; full = full }) }
    {
        Ok(Piece {
            name: Name::from_vec(Vec::from_slice(alloc, name)?),
            ids: copy_ids(&self.ids)?,
            full,
        })
    }
}
