//! Needs, collected by name.
ghost use Rattle.std.specs.Prelude.{◌≡◌, ◌≤◌, length, [], fold, IfOk, IfSome, MatchOption, OnOk, option_to_list};
ghost use Rattle.std.specs.List.{insert};
ghost use Rattle.iris_need.specs.Needs.{greater, with_state, with_look};

use crate::need::Need;
use iris_fragment::Level;
use iris_tree::{Mem, Name, Sequence, State};
use std::alloc::Global;
use std::cmp::Ordering;
use std::collections::BTreeMap;
use std::marker::Model;

/// What is asked of the node of one name.
#[derive(Debug, Drop)]
pub(crate) struct Asked {
    level: Level,
    states: Vec<State>,
}

/// Needs in the order of their names, each name once.
#[derive(Debug, Drop)]
pub(crate) struct Needs {
    alloc: Global,
    map: BTreeMap<Name, Asked>,
}

impl Model for Needs {
    ghost use Rattle.std.specs.Prelude.{List};
    ghost use Rattle.std.specs.Coded.{coded_list};
    ghost use Rattle.iris_need.specs.declared.need.Need.{Need};
    ghost use Rattle.iris_need.specs.contracts.need.Need as need_type;
    ghost use Rattle.iris_need.specs.Collected.{needs_of};

    ghost Value = { List Need };

    ghost coded = { coded_list need_type.the_row.coded };

    ghost view = { λ n. needs_of n.map.entries };
}

// The place at which a state is missing; none where it is there.
fn place(states: &[State], state: State) -> Option<usize>
    ensures within { IfSome result (λ at. at ≤ length states.now) }
    ensures put { MatchOption result (with_state states.now state ≡ states.now) (λ at. with_state states.now state ≡ insert states.now at state) }
{
    for (i, other) in states.iter().enumerate() {
        match state.cmp(other) {
            Ordering::Greater => {}
            Ordering::Equal => return None,
            Ordering::Less => return Some(i),
        }
    }
    Some(states.len())
}

// Adds a state at its place, unless it is there.
fn add_state(states: &mut Vec<State>, state: State) -> Mem<()>
    ensures { OnOk result (states.new.items ≡ with_state states.old.items state) }
{
    if let Some(at) = place(states, state) {
        states.insert(at, state)?;
    }
    Ok(())
}

// The list of a state, or of none.
fn list_of(alloc: Global, state: Option<State>) -> Mem<Vec<State>>
    ensures { IfOk result (λ states. states.items ≡ option_to_list state) }
{
    let mut states = Vec::new(alloc);
    if let Some(state) = state {
        states.push(state)?;
    }
    Ok(states)
}

impl Asked {
    // One look more, which carries a state or none.
    fn join(&mut self, level: Level, state: Option<State>) -> Mem<()>
        ensures level { self.new.level ≡ greater self.old.level level }
        ensures states { OnOk result (self.new.states.items ≡ fold with_state self.old.states.items (option_to_list state)) }
    {
        self.level = self.level.max(level);
        if let Some(state) = state {
            add_state(&mut self.states, state)?;
        }
        Ok(())
    }
}

impl Needs {
    pub(crate) fn new(alloc: Global) -> Needs
        ensures { result ≡ [] }
    {
        Needs {
            alloc,
            map: BTreeMap::new(alloc),
        }
    }

    // Adds a look. The name is copied where nothing is asked of it yet.
    pub(crate) fn add(&mut self, name: &Name, level: Level, state: Option<State>) -> Mem<()>
        ensures { OnOk result (self.new ≡ with_look self.old (record { name = name.now; level = level; states = option_to_list state })) }
    {
        if let Some(asked) = self.map.get_mut(name) {
            return asked.join(level, state);
        }
        let states = list_of(self.alloc, state)?;
        self.map.insert(name.copy()?, Asked { level, states })?;
        Ok(())
    }

    // The needs, in the order of their names.
    pub(crate) fn into_vec(self) -> Mem<Vec<Need>>
        ensures { IfOk result (λ needs. needs.items ≡ self) }
    {
        let mut needs = Vec::with_capacity(self.alloc, self.map.len())?;
        for (name, asked) in self.map {
            needs.push(Need {
                name,
                level: asked.level,
                states: Sequence::from_vec(asked.states),
            })?;
        }
        Ok(needs)
    }
}
