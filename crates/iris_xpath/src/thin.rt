//! Queries of a plain form, which evaluations over a part of a document take.
ghost use Rattle.std.specs.Prelude.{◌≡◌, is_some};
ghost use Rattle.std.specs.List.{list_all};
ghost use Rattle.iris_xpath.specs.ThinQuery.{equality_of, is_thin_step, is_thin};

use crate::expression::{Expression, Separator, Step};
use crate::query::Query;

// Whether a predicate has the form `@name='value'`.
fn is_equality(predicate: &Expression) -> bool
    ensures { result ≡ is_some (equality_of predicate.now) }
{
    predicate.as_equality().is_some()
}

// Whether each has that form.
fn are_equalities(predicates: &[Expression]) -> bool
    ensures { result ≡ list_all (λ e. is_some (equality_of e)) predicates.now }
{
    predicates.iter().all(|predicate| is_equality(predicate))
}

// Whether a step has `/`, a kind as its test, and such predicates alone.
fn is_thin_step(step: &Step<Expression>) -> bool
    ensures { result ≡ is_thin_step step.now }
{
    match step.separator {
        Separator::DoubleSlash => false,
        Separator::Slash => step.kind().is_some() && are_equalities(step.predicates.as_slice()),
    }
}

impl Query {
    /// Whether each step has `/`, a kind as its test, and predicates of the form `@name='value'` alone.
    pub fn is_thin(&self) -> bool
        ensures { result ≡ is_thin self.now }
    {
        self.steps().iter().all(|step| is_thin_step(step))
    }
}
