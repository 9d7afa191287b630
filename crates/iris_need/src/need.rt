//! What is asked of one node, and where an evaluation begins.
ghost use Rattle.std.specs.Prelude.{◌≡◌, IfOk};
ghost use Rattle.iris_need.specs.Needs.{from_document};

use iris_fragment::Level;
use iris_tree::{Label, Mem, Name, Sequence, State};
use std::alloc::Global;

/// A look at a node: at which level, and with which states the evaluation stands there.
#[derive(Debug, Drop)]
pub struct Need {
    pub name: Name,
    pub level: Level,
    /// In their order, each once.
    pub states: Sequence<State>,
}

/// Where an evaluation begins. It sees nothing outside the subtree of its name.
#[derive(Debug, Drop)]
pub struct Start {
    /// The label of the city's top node: the first label of the name, where that isn't the document's.
    pub top: Label,
    pub name: Name,
    /// The level at which the node of the name is looked at in any case; the document never is.
    pub level: Level,
    pub states: Sequence<State>,
}

// A copy of a list of states, by the same allocator.
fn copy_states(states: &Sequence<State>) -> Mem<Sequence<State>>
    ensures { IfOk result (λ copy. copy ≡ states.now) }
{
    let copy = Vec::from_slice(states.allocator(), states.as_slice())?;
    Ok(Sequence::from_vec(copy))
}

impl Need {
    /// A copy, by the same allocator.
    pub fn copy(&self) -> Mem<Need>
        ensures { IfOk result (λ copy. copy ≡ self.now) }
    {
        Ok(Need {
            name: self.name.copy()?,
            level: self.level,
            states: copy_states(&self.states)?,
        })
    }
}

impl Start {
    /// Where a client's query starts, of a city whose top node has that label.
    pub fn from_document(alloc: Global, top: Label) -> Mem<Start>
        ensures { IfOk result (λ start. start ≡ from_document top) }
    {
        let mut states = Sequence::new(alloc);
        states.push(State::At(0))?;
        Ok(Start {
            top,
            name: Name::document(alloc),
            level: Level::Ids,
            states,
        })
    }

    /// A copy, by the same allocator.
    pub fn copy(&self) -> Mem<Start>
        ensures { IfOk result (λ copy. copy ≡ self.now) }
    {
        Ok(Start {
            top: self.top,
            name: self.name.copy()?,
            level: self.level,
            states: copy_states(&self.states)?,
        })
    }
}
