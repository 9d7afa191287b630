//! What a gather decides over its view and the usable part of a fragment, and what that rests on.
ghost use Rattle.std.specs.Prelude.{◌≡◌, [], IfOk, option_map};
ghost use Rattle.iris_need.specs.Decided.{pieces_for};
ghost use Rattle.iris_need.specs.Needs.{from_document, support_of};
ghost use Rattle.iris_gather.specs.Basis.{cite_of, cites_told, cites_of};
ghost use Rattle.iris_gather.specs.Laid.{laid};
ghost use Rattle.iris_gather.specs.Verdicts.{IsVerdict};

use crate::laid_view::{LaidView, add};
use crate::usable::Usable;
use crate::verdict::{Verdict, evaluate};
use iris_fragment::{Fragment, Piece};
use iris_need::{Start, View};
use iris_tree::{Cite, Mem, Sequence};
use iris_xpath::Query;
use std::alloc::Global;

/// What is decided over a laid view, with what of that view it rests on.
#[derive(Debug, Drop)]
pub struct Basis {
    pub verdict: Verdict,
    /// The pieces of what the verdict rests on, each as far as its level asks, in the order of names.
    pub pieces: Sequence<Piece>,
    /// The cites of what the verdict rests on in full, in the order of names.
    pub cites: Sequence<Cite>,
}

// The cite of a piece, if it is full.
fn cite(piece: &Piece) -> Mem<Option<Cite>>
    ensures { IfOk result (λ cite. cite ≡ option_map (cite_of piece.now.name) piece.now.full) }
{
    let Some(full) = &piece.full else {
        return Ok(None);
    };
    Ok(Some(Cite {
        name: piece.name.copy()?,
        version: full.version,
        stamp: full.stamp,
    }))
}

// The cites of these pieces, of those that are full.
fn cites(alloc: Global, pieces: &[Piece]) -> Mem<Vec<Cite>>
    ensures { IfOk result (λ cites. cites.items ≡ cites_told pieces.now) }
{
    let mut cites = Vec::new(alloc);
    for piece in pieces {
        add(&mut cites, cite(piece)?)?;
    }
    Ok(cites)
}

impl Basis {
    /// A verdict with the pieces that it rests on, and their cites.
    pub(crate) fn with_pieces(alloc: Global, verdict: Verdict, pieces: Vec<Piece>) -> Mem<Basis>
        ensures verdict { IfOk result (λ basis. basis.verdict ≡ verdict) }
        ensures pieces { IfOk result (λ basis. basis.pieces ≡ pieces.items) }
        ensures cites { IfOk result (λ basis. basis.cites ≡ cites_told pieces.items) }
    {
        let cites = cites(alloc, &pieces)?;
        Ok(Basis {
            verdict,
            pieces: Sequence::from_vec(pieces),
            cites: Sequence::from_vec(cites),
        })
    }

    /// The verdict of a query from a start over the view laid over what of the fragment is usable for the
    /// floor, and what it rests on there. A start at the document is that of a client's query. `floor` and
    /// the present moment `now` are in milliseconds; an owned value is stamped with `now`. It costs what the
    /// query looks at, and not what the fragment holds.
    pub fn of(
        alloc: Global,
        query: &Query,
        start: &Start,
        floor: u64,
        view: &View,
        fragment: &Fragment,
        now: u64,
    ) -> Mem<Basis>
        requires client { start.now.name ≡ [] → start.now ≡ from_document start.now.top }
        ensures verdict { IfOk result (λ basis. IsVerdict query.now start.now (laid fragment.now floor now view.now) basis.verdict) }
        ensures pieces { IfOk result (λ basis. basis.pieces ≡ pieces_for (laid fragment.now floor now view.now) (support_of query.now start.now (laid fragment.now floor now view.now))) }
        ensures cites { IfOk result (λ basis. basis.cites ≡ cites_of query.now start.now (laid fragment.now floor now view.now)) }
    {
        let usable = Usable {
            fragment,
            floor,
            moment: now,
        };
        let over = usable.part_seen(alloc, query, start, view)?;
        let verdict = evaluate(alloc, query, start, &over)?;
        let laid = LaidView { view, usable };
        let pieces = laid.pieces(alloc, verdict.support())?;
        view.keeps_shape();
        Ok(Basis::with_pieces(alloc, verdict, pieces)?)
    }
}
