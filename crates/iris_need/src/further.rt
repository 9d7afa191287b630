//! What is done at each place to which a step goes.
ghost use Rattle.std.specs.Prelude.{◌≡◌};
ghost use Rattle.iris_need.specs.Walk.{marks_of, step_in, lower_of};

use crate::looks::Marks;
use crate::route::Route;
use iris_tree::State;
use iris_xpath::{Attribute, Expression, Part, Step};

/// The further parts of a path in a predicate, and the states that its looks carry.
#[derive(Clone, Copy)]
pub(crate) struct Trail<'p> {
    pub(crate) parts: &'p [Part<Expression>],
    pub(crate) attribute: &'p Option<Attribute>,
    pub(crate) marks: Marks<'p>,
}

/// What is done at each place to which a step goes.
#[derive(Clone, Copy)]
pub(crate) enum Further<'p> {
    /// A step of the main path tests it, and the steps after it go on.
    Main(Route<'p>),
    /// A step of a path in a predicate tests it, and the further parts of the path go on.
    Path(&'p Step<Expression>, Trail<'p>),
}

impl<'p> Further<'p> {
    /// The step.
    pub(crate) fn step(&self) -> &'p Step<Expression>
        ensures { result.now ≡ step_in self.now }
    {
        match self {
            Further::Main(route) => route.step,
            Further::Path(step, _) => step,
        }
    }

    /// The states that the looks carry which the step makes below the place where it begins.
    pub(crate) fn lower_marks(&self) -> Marks<'p>
        ensures { marks_of result ≡ lower_of self.now }
    {
        match self {
            Further::Main(route) => Marks::Each(State::Seek(route.number)),
            Further::Path(_, trail) => trail.marks,
        }
    }
}
