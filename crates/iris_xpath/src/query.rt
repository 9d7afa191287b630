//! Queries.
ghost use Rattle.std.specs.Prelude.{◌≡◌, ◌≢◌, ◌≤◌, [], length, IfOk};
ghost use Rattle.iris_base.specs.declared.limits.TheConstants.{MAX_STEPS};
ghost use Rattle.iris_xpath.specs.Told.{IsQuery};

use crate::expression::{Expression, Step};
use iris_tree::{Mem, Sequence};
use std::marker::Model;

/// A query: one step or more, from the top of the document down. It is one that some text spells within
/// the limits of queries.
#[derive(Debug, Drop)]
pub struct Query {
    steps: Sequence<Step<Expression>>,
}

impl Model for Query {
    ghost use Rattle.iris_xpath.specs.Syntax.{Syntax};
    ghost use Rattle.iris_xpath.specs.Told.{IsQuery};
    ghost use Rattle.std.specs.Coded.{codes};
    ghost use Rattle.iris_xpath.specs.contracts.expression.Expression as expression;

    ghost Value = { Syntax };

    ghost coded = { Prim.hlevel (codes, expression.the_row.coded) };

    ghost view = { λ q. q.steps };

    ghost invariant = { λ q. IsQuery q.steps };

    ghost inverse = { λ steps. record { steps = steps } };
}

impl Query {
    /// The query of these steps.
    pub(crate) fn new(steps: Sequence<Step<Expression>>) -> Query
        requires spelled { IsQuery steps }
        ensures { result ≡ steps }
    {
        Query { steps }
    }

    /// The steps of the main path, from the top of the document down.
    #[inline]
    pub fn steps(&self) -> &[Step<Expression>]
        ensures value { result.now ≡ self.now }
        ensures spelled { IsQuery self.now }
        ensures some { self.now ≢ [] }
        ensures few { length self.now ≤ MAX_STEPS }
    {
        self.steps.as_slice()
    }

    /// A copy, by the same allocator.
    pub fn copy(&self) -> Mem<Query>
        ensures { IfOk result (λ copy. copy ≡ self.now) }
    {
        let alloc = self.steps.allocator();
        let mut steps = Sequence::new(alloc);
        for step in self.steps.as_slice() {
            steps.push(step.copy(alloc)?)?;
        }
        Ok(Query { steps })
    }
}
