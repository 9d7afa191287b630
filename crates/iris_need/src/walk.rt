//! A walk over a view, and the looks that it takes.
ghost use Rattle.std.specs.Prelude.{◌≡◌, ◌&&◌, None, Some, IfOk, OnOk, MatchOption, IsTrue, option_map, option_to_list};
ghost use Rattle.iris_fragment.specs.declared.piece.Level.{Level};
ghost use Rattle.iris_need.specs.Pieces.{view_of};
ghost use Rattle.iris_need.specs.Needs.{is_under, seen_from};
ghost use Rattle.iris_need.specs.Run.{meets};
ghost use Rattle.iris_need.specs.Program.{room};
ghost use Rattle.iris_need.specs.Walk.{look_added, ids_at, full_at};

use crate::looks::Looks;
use crate::needs::Needs;
use crate::view::View;
use iris_fragment::Level;
use iris_tree::{Label, Local, MAX_LABELS, Mem, Name, State};
use std::alloc::Global;

/// A walk over a view.
#[derive(Clone, Copy)]
pub(crate) struct Walk<'a> {
    pub(crate) alloc: Global,
    pub(crate) view: &'a View,
    /// The label of the document's top node.
    pub(crate) top: Label,
    /// Nothing is seen but what is at or under this name.
    pub(crate) above: &'a Name,
    pub(crate) takes: Looks,
}

// How many levels there may be below a name, which has at most `MAX_LABELS` labels.
#[tactic(auto, unfolding(crate::specs::Program::room))]
pub(crate) fn room(name: &Name) -> usize
    ensures { result ≡ room name.now }
{
    MAX_LABELS.saturating_sub(name.len())
}

/// Whether the view tells two things.
pub(crate) fn both_told(first: bool, second: bool) -> bool
    ensures { result ≡ (first && second) }
{
    first && second
}

impl<'a> Walk<'a> {
    // Whether a name is at or under the name of the walk.
    fn sees(&self, name: &Name) -> bool
        ensures { result ≡ is_under name.now self.now.above.now }
    {
        name.is_under(self.above)
    }

    // Takes a look at a name, or leaves it.
    fn note(
        &self,
        name: &Name,
        level: Level,
        state: Option<State>,
        is_met: bool,
        needs: &mut Needs,
    ) -> Mem<()>
        requires met { is_met ≡ meets (seen_from self.now.above.now (view_of self.now.view.now)) (record { name = name.now; level = level; states = option_to_list state }) }
        ensures { OnOk result (needs.new ≡ look_added self.now needs.old (record { name = name.now; level = level; states = option_to_list state })) }
    {
        match self.takes {
            Looks::Unmet if is_met || !self.sees(name) => Ok(()),
            Looks::Unmet => needs.add(name, level, state),
            Looks::Met if is_met => needs.add(name, level, None),
            Looks::Met => Ok(()),
        }
    }

    // The ids and the local information of a node, where the walk sees both.
    fn held(&self, name: &Name) -> Option<(&'a [Label], &'a Local)>
        ensures { MatchOption result (full_at self.now name.now ≡ None) (λ r. full_at self.now name.now ≡ Some (record { ids = r.0.now; local = r.1.now })) }
    {
        if self.sees(name) {
            self.view.full(name)
        } else {
            None
        }
    }

    // The ids of a node, where the walk sees them.
    fn held_ids(&self, name: &Name) -> Option<&'a [Label]>
        ensures { option_map (λ ids. ids.now) result ≡ ids_at self.now name.now }
    {
        if !self.sees(name) {
            return None;
        }
        let piece = self.view.get(name)?;
        Some(piece.ids.as_slice())
    }

    /// Looks at the ids of a node.
    pub(crate) fn see_ids(
        &self,
        name: &Name,
        state: Option<State>,
        needs: &mut Needs,
    ) -> Mem<Option<&'a [Label]>>
        ensures look { OnOk result (needs.new ≡ look_added self.now needs.old (record { name = name.now; level = Level.Ids; states = option_to_list state })) }
        ensures seen { IfOk result (λ seen. option_map (λ ids. ids.now) seen ≡ ids_at self.now name.now) }
    {
        let seen = self.held_ids(name);
        self.note(name, Level::Ids, state, seen.is_some(), needs)?;
        Ok(seen)
    }

    /// Looks at the ids and the local information of a node.
    pub(crate) fn see_full(
        &self,
        name: &Name,
        state: Option<State>,
        needs: &mut Needs,
    ) -> Mem<Option<(&'a [Label], &'a Local)>>
        ensures look { OnOk result (needs.new ≡ look_added self.now needs.old (record { name = name.now; level = Level.Full; states = option_to_list state })) }
        ensures seen { IfOk result (λ seen. MatchOption seen (full_at self.now name.now ≡ None) (λ r. full_at self.now name.now ≡ Some (record { ids = r.0.now; local = r.1.now }))) }
    {
        let seen = self.held(name);
        self.note(name, Level::Full, state, seen.is_some(), needs)?;
        Ok(seen)
    }
}
