//! Where a walk stands in the steps of a query.
ghost use Rattle.std.specs.Prelude.{◌≡◌, ◌+◌, ◌<◌, ◌≤◌, ◌∷◌, [], length, drop, IfSome, MatchOption};
ghost use Rattle.iris_base.specs.declared.limits.TheConstants.{MAX_STEPS};

use iris_xpath::{Expression, Step};

/// The step to go by, its number, and those after it.
#[derive(Clone, Copy)]
pub(crate) struct Route<'p> {
    pub(crate) number: u32,
    pub(crate) step: &'p Step<Expression>,
    pub(crate) rest: &'p [Step<Expression>],
    ghost few: { number + length rest.now < MAX_STEPS },
}

impl<'p> Route<'p> {
    /// The route from the step of that number on; none where there is no such step.
    pub(crate) fn at(steps: &'p [Step<Expression>], number: u32) -> Option<Route<'p>>
        requires few { length steps.now ≤ MAX_STEPS }
        ensures cut { MatchOption result (drop number steps.now ≡ []) (λ r. drop number steps.now ≡ r.step.now ∷ r.rest.now) }
        ensures from { IfSome result (λ r. r.number ≡ number) }
    {
        let i = number as usize;
        if i >= steps.len() {
            return None;
        }
        Some(Route {
            number,
            step: &steps[i],
            rest: &steps[i + 1..],
        })
    }

    /// The route from the step after this one on; none after the last.
    pub(crate) fn next(&self) -> Option<Route<'p>>
        ensures cut { MatchOption result (self.now.rest.now ≡ []) (λ r. self.now.rest.now ≡ r.step.now ∷ r.rest.now) }
        ensures from { IfSome result (λ r. r.number ≡ self.now.number + 1) }
    {
        let Some((step, rest)) = self.rest.split_first() else {
            return None;
        };
        Some(Route {
            number: self.number + 1,
            step,
            rest,
        })
    }
}
