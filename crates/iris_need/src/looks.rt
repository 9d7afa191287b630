//! Which looks are collected, and the states that they carry.
ghost use Rattle.std.specs.Prelude.{◌≡◌, option_to_list};
ghost use Rattle.iris_need.specs.Walk.{marks_of};

use iris_tree::{Name, State};

/// Which looks are collected.
#[derive(Clone, Copy)]
pub(crate) enum Looks {
    /// Those that the view doesn't meet, with their states.
    Unmet,
    /// Those that it meets, without states.
    Met,
}

/// The states that looks carry, by the names that they are at.
#[derive(Clone, Copy)]
pub(crate) enum Marks<'p> {
    /// That state at each name.
    Each(State),
    /// That state at that name, and none elsewhere.
    Only(&'p Name, State),
    /// None.
    Nowhere,
}

impl<'p> Marks<'p> {
    /// The state that a look at a name carries.
    pub(crate) fn state_at(&self, name: &Name) -> Option<State>
        ensures { option_to_list result ≡ marks_of self.now name.now }
    {
        match self {
            Marks::Each(state) => Some(*state),
            Marks::Only(at, state) => { if *name == **at { Some(*state) } else { None } }
            Marks::Nowhere => None,
        }
    }
}
