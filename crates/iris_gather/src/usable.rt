//! The part of a laid view at which an evaluation looks, made without laying the whole fragment.
ghost use Rattle.std.specs.Prelude.{◌≡◌, ◌<◌, None, All, IfOk, is_some, option_to_list};
ghost use Rattle.std.specs.Bool.{OnTrue, OnFalse};
ghost use Rattle.iris_fragment.specs.declared.piece.Level.TheVariants as level;
ghost use Rattle.iris_fragment.specs.Usable.{usable};
ghost use Rattle.iris_need.specs.Pieces.{Pieces, view_of, laid_over};
ghost use Rattle.iris_need.specs.Run.{meets_known};
ghost use Rattle.iris_gather.specs.Laid.{laid, usable_at, TellsSame};
ghost use Rattle.iris_gather.specs.Taking.{level_up_to, level_taken, piece_taken, levels_left, IsBetween};

use iris_fragment::{Fragment, Level, Piece};
use iris_need::{Need, Start, View, missing};
use iris_tree::{Mem, Name};
use iris_xpath::Query;
use std::alloc::Global;

/// What of a fragment is usable for a floor, at a present moment; both in milliseconds.
#[derive(Clone, Copy)]
pub(crate) struct Usable<'f> {
    pub(crate) fragment: &'f Fragment,
    pub(crate) floor: u64,
    pub(crate) moment: u64,
}

// Whether a view has the node of that name at that level.
fn has(view: &View, name: &Name, level: Level) -> bool
    ensures { result ≡ meets_known level (view_of view.now name.now) }
{
    match view.get(name) {
        Some(piece) => level == Level::Ids || piece.full.is_some(),
        None => false,
    }
}

impl<'f> Usable<'f> {
    // The greater level at which a node is usable, if it is held.
    fn greatest(&self, name: &Name) -> Level
        ensures { result ≡ level_up_to level.Full (usable self.now.fragment.now name.now level.Full self.now.floor) }
    {
        if self.fragment.usable(name, Level::Full, self.floor) {
            Level::Full
        } else {
            Level::Ids
        }
    }

    /// The piece of the node of that name, at the greater level at which it is usable; none where it is not
    /// held.
    pub(crate) fn piece(&self, name: &Name) -> Mem<Option<Piece>>
        ensures { IfOk result (λ piece. piece ≡ usable_at self.now.fragment.now self.now.floor self.now.moment name.now) }
    {
        self.fragment.piece(name, self.greatest(name), self.moment)
    }

    // The greater level, up to that of a need, at which its node is usable, if it is held.
    fn level(&self, need: &Need) -> Level
        ensures { result ≡ level_taken self.now.fragment.now self.now.floor need.now }
    {
        match need.level {
            Level::Full => self.greatest(&need.name),
            Level::Ids => Level::Ids,
        }
    }

    // The usable piece of a need's node, as far as its level asks, unless the view has as much of it.
    fn piece_for(&self, view: &View, need: &Need) -> Mem<Option<Piece>>
        ensures { IfOk result (λ piece. piece ≡ piece_taken self.now.fragment.now self.now.floor self.now.moment view.now need.now) }
    {
        let level = self.level(need);
        if has(view, &need.name, level) {
            return Ok(None);
        }
        self.fragment.piece(&need.name, level, self.moment)
    }

    // Adds that piece. Returns whether there was one.
    fn add_for(&self, view: &mut View, need: &Need) -> Mem<bool>
        ensures added { IfOk result (λ added. view.new ≡ laid_over (option_to_list (piece_taken self.now.fragment.now self.now.floor self.now.moment view.old need.now)) view.old) }
        ensures told { IfOk result (λ added. added ≡ is_some (piece_taken self.now.fragment.now self.now.floor self.now.moment view.old need.now)) }
    {
        let Some(piece) = self.piece_for(view, need)? else {
            return Ok(false);
        };
        view.add(piece)?;
        Ok(true)
    }

    // Adds the pieces for these needs. Returns whether there were any.
    fn add_all(&self, view: &mut View, needs: &[Need]) -> Mem<bool>
        ensures fewer { IfOk result (λ added. OnTrue added (levels_left self.now.fragment.now view.new < levels_left self.now.fragment.now view.old)) }
        ensures none { IfOk result (λ added. OnFalse added (All (λ need. piece_taken self.now.fragment.now self.now.floor self.now.moment view.old need ≡ None) needs.now)) }
        ensures same { IfOk result (λ added. OnFalse added (view.new ≡ view.old)) }
        ensures between { IfOk result (λ _. (first : Pieces) → IsBetween self.now.fragment.now self.now.floor self.now.moment first view.old → IsBetween self.now.fragment.now self.now.floor self.now.moment first view.new) }
    {
        let mut added = false;
        for need in needs {
            if self.add_for(view, need)? {
                added = true;
            }
        }
        Ok(added)
    }

    /// A part of the view laid over what is usable, in which an evaluation sees all that it looks at. It
    /// grows from a copy of the view by rounds: each adds what is usable for the needs of an evaluation
    /// over it, until there is nothing. So it costs what the evaluation looks at, and not the fragment.
    pub(crate) fn part_seen(
        &self,
        alloc: Global,
        query: &Query,
        start: &Start,
        view: &View,
    ) -> Mem<View>
        ensures same { IfOk result (λ over. TellsSame query.now start.now over (laid self.now.fragment.now self.now.floor self.now.moment view.now)) }
    {
        self.fragment.keeps_shape();
        let mut over = view.copy()?;
        loop {
            let needs = missing(alloc, query, start, &over)?;
            if !self.add_all(&mut over, &needs)? {
                return Ok(over);
            }
        }
    }
}
