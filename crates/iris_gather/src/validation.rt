//! Whether a verdict of an evaluation that was made elsewhere still holds.
ghost use Rattle.std.specs.Prelude.{◌≡◌, All, MatchBool, IfOk, IfErr};
ghost use Rattle.iris_need.specs.Decided.{pieces_for};
ghost use Rattle.iris_need.specs.Needs.{support_of};
ghost use Rattle.iris_need.specs.Pieces.{piece_at};
ghost use Rattle.iris_gather.specs.Basis.{cites_of};
ghost use Rattle.iris_gather.specs.Laid.{laid};
ghost use Rattle.iris_gather.specs.Validation.{IsSameFull, IsSamePiece, IsSameAt, NoMore, IsSameFor, NoMoreFor, IsStillValid, IsFirstChanged, FailsFirst, IsFirstFailing, lesser_of};
ghost use Rattle.iris_gather.specs.Verdicts.{IsVerdict};

use crate::basis::Basis;
use crate::equal::{same_ids, same_local};
use crate::laid_view::{LaidView, add, as_asked};
use crate::usable::Usable;
use crate::verdict::Verdict;
use iris_fragment::{Fragment, Full, Level, Piece};
use iris_need::{Need, Start, View};
use iris_tree::{Mem, Name};
use iris_xpath::Query;
use std::alloc::Global;

/// What was evaluated elsewhere: a query from a start over a view, and the verdict.
#[derive(Clone, Copy)]
pub struct Evaluated<'a> {
    pub query: &'a Query,
    pub start: &'a Start,
    /// A view that was laid at an earlier moment.
    pub view: &'a View,
    pub verdict: &'a Verdict,
}

// Whether a full part is there now as it was.
fn is_same_full(old: &Option<Full>, now: &Option<Full>) -> bool
    ensures { MatchBool result (IsSameFull old.now now.now) (IsSameFull old.now now.now → ⊥) }
{
    match (old, now) {
        (Some(old), Some(now)) => {
            old.version == now.version && same_local(&old.local, &now.local)
        }
        _ => false,
    }
}

// Whether a piece is now as it was at that level.
fn is_same_piece(level: Level, old: &Piece, now: &Piece) -> bool
    ensures { MatchBool result (IsSamePiece level old.now now.now) (IsSamePiece level old.now now.now → ⊥) }
{
    same_ids(&old.ids, &now.ids)
        && match level {
            Level::Ids => true,
            Level::Full => is_same_full(&old.full, &now.full),
        }
}

// Whether the node of a need is had now as the view of before has it.
fn is_same(old: &View, need: &Need, now: &Option<Piece>) -> bool
    ensures { MatchBool result (IsSameAt need.now.level (piece_at old.now need.now.name) now.now) (IsSameAt need.now.level (piece_at old.now need.now.name) now.now → ⊥) }
{
    match (old.get(&need.name), now) {
        (Some(old), Some(now)) => is_same_piece(need.level, old, now),
        _ => false,
    }
}

// Whether no more of the node of a need is had now than the view of before has.
fn no_more(old: &View, need: &Need, now: &Option<Piece>) -> bool
    ensures { MatchBool result (NoMore (piece_at old.now need.now.name) now.now) (NoMore (piece_at old.now need.now.name) now.now → ⊥) }
{
    match (old.get(&need.name), now) {
        (_, None) => true,
        (None, Some(_)) => false,
        (Some(old), Some(now)) => old.full.is_some() || now.full.is_none(),
    }
}

// The lesser of a name and of another one, if there is one, in the order of names.
fn lesser(one: Name, other: Option<Name>) -> Name
    ensures { result ≡ lesser_of one other }
{
    match other {
        Some(other) => one.min(other),
        None => one,
    }
}

impl LaidView<'_> {
    // The pieces of these needs, each as far as its level asks, if each node is had here as the view of before
    // has it; else the name of the first that is not.
    fn unchanged(&self, alloc: Global, old: &View, needs: &[Need]) -> Mem<Result<Vec<Piece>, Name>>
        ensures pieces { IfOk result (λ found. IfOk found (λ pieces. pieces.items ≡ pieces_for (laid self.now.usable.fragment.now self.now.usable.floor self.now.usable.moment self.now.view.now) needs.now)) }
        ensures same { IfOk result (λ found. IfOk found (λ _. All (IsSameFor old.now (laid self.now.usable.fragment.now self.now.usable.floor self.now.usable.moment self.now.view.now)) needs.now)) }
        ensures changed { IfOk result (λ found. IfErr found (FailsFirst (IsSameFor old.now (laid self.now.usable.fragment.now self.now.usable.floor self.now.usable.moment self.now.view.now)) needs.now)) }
    {
        let mut pieces = Vec::new(alloc);
        for need in needs {
            let now = self.piece(&need.name)?;
            if !is_same(old, need, &now) {
                return Ok(Err(need.name.copy()?));
            }
            add(&mut pieces, as_asked(need.level, now))?;
        }
        Ok(Ok(pieces))
    }

    // The name of the first of these needs of whose node more is had here than the view of before has.
    fn first_come(&self, old: &View, needs: &[Need]) -> Mem<Option<Name>>
        ensures { IfOk result (IsFirstFailing (NoMoreFor old.now (laid self.now.usable.fragment.now self.now.usable.floor self.now.usable.moment self.now.view.now)) needs.now) }
    {
        for need in needs {
            let now = self.piece(&need.name)?;
            if !no_more(old, need, &now) {
                return Ok(Some(need.name.copy()?));
            }
        }
        Ok(None)
    }
}

impl Basis {
    /// The verdict of an evaluation that was made elsewhere, over an earlier view, if it is that of an
    /// evaluation over the view laid over what of the fragment is usable for the floor now; and what it rests
    /// on there. Nothing is evaluated for this: it is so where what the verdict rests on is had as it was,
    /// with the same values of the same versions, and nothing came of the nodes that were missing. Otherwise
    /// the first name, in the order of names, at which that is not so. `floor` and the present moment `now`
    /// are in milliseconds; an owned value is stamped with `now`. It costs what the verdict looks at.
    pub fn validate(
        alloc: Global,
        evaluated: &Evaluated<'_>,
        floor: u64,
        view: &View,
        fragment: &Fragment,
        now: u64,
    ) -> Mem<Result<Basis, Name>>
        requires { IsVerdict evaluated.now.query.now evaluated.now.start.now evaluated.now.view.now evaluated.now.verdict.now }
        ensures valid { IfOk result (λ validated. IfOk validated (λ _. IsStillValid evaluated.now.view.now (laid fragment.now floor now view.now) evaluated.now.verdict.now)) }
        ensures same { IfOk result (λ validated. IfOk validated (λ basis. basis.verdict ≡ evaluated.now.verdict.now)) }
        ensures verdict { IfOk result (λ validated. IfOk validated (λ basis. IsVerdict evaluated.now.query.now evaluated.now.start.now (laid fragment.now floor now view.now) basis.verdict)) }
        ensures pieces { IfOk result (λ validated. IfOk validated (λ basis. basis.pieces ≡ pieces_for (laid fragment.now floor now view.now) (support_of evaluated.now.query.now evaluated.now.start.now (laid fragment.now floor now view.now)))) }
        ensures cites { IfOk result (λ validated. IfOk validated (λ basis. basis.cites ≡ cites_of evaluated.now.query.now evaluated.now.start.now (laid fragment.now floor now view.now))) }
        ensures changed { IfOk result (λ validated. IfErr validated (λ name. IsFirstChanged evaluated.now.view.now (laid fragment.now floor now view.now) evaluated.now.verdict.now name)) }
    {
        let usable = Usable {
            fragment,
            floor,
            moment: now,
        };
        let laid = LaidView { view, usable };
        let (old, verdict) = (evaluated.view, evaluated.verdict);
        let come = laid.first_come(old, verdict.asks())?;
        old.keeps_shape();
        view.keeps_shape();
        match (laid.unchanged(alloc, old, verdict.support())?, come) {
            (Ok(pieces), None) => Ok(Ok(Basis::with_pieces(alloc, verdict.copy()?, pieces)?)),
            (Ok(_), Some(name)) => Ok(Err(name)),
            (Err(name), come) => Ok(Err(lesser(name, come))),
        }
    }
}
