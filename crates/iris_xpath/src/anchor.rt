//! The node under which every selected place lies.
ghost use Rattle.std.specs.Prelude.{◌≡◌, ◌↔◌, ℕ, List, IfOk, IsTrue, MatchOption};
ghost use Rattle.iris_xpath.specs.declared.expression.Comparison.TheVariants.{Equal};
ghost use Rattle.iris_xpath.specs.Anchor.{IsIdPredicate, IsIdBetween, IsIdLiteral, own_id, id_path, HasNoId, FirstId, Anchored, IsAnchored, Lca, LcaName};

use crate::expression::{Comparison, Expression, Operand, Path, Separator, Step};
use crate::query::Query;
use iris_tree::{Id, Label, Mem, Name};
use std::alloc::Global;

/// The greatest number of steps at the front that are all anchored: they have `/`, a kind and a predicate
/// that compares `@id` by `=` with a well-formed id. All that the query selects lies under one node.
pub fn lca(query: &Query) -> usize
    ensures { Lca query.now result }
{
    let mut count = 0;
    for step in query.steps() {
        match anchor_of(step) {
            Some(_) => count += 1,
            None => return count,
        }
    }
    count
}

/// The name of that node: the labels of the anchored steps at the front, from the top down.
pub fn lca_name(alloc: Global, query: &Query) -> Mem<Name>
    ensures { IfOk result (LcaName query.now) }
{
    let mut name = Name::document(alloc);
    for step in query.steps() {
        match anchor_of(step) {
            Some(label) => name.push(label)?,
            None => return Ok(name),
        }
    }
    Ok(name)
}

// The label of an anchored step: one with `/`, a kind and an id predicate.
fn anchor_of(step: &Step<Expression>) -> Option<Label>
    ensures { MatchOption result (IsAnchored step.now → ⊥) (Anchored step.now) }
{
    match step.separator {
        Separator::Slash => {}
        Separator::DoubleSlash => return None,
    }
    match step.kind() {
        Some(kind) => match first_id(step.predicates.as_slice()) {
            Some(id) => Some(Label { kind: *kind, id }),
            None => None,
        },
        None => None,
    }
}

fn first_id(predicates: &[Expression]) -> Option<Id>
    ensures { MatchOption result (HasNoId predicates.now) (λ id. FirstId id predicates.now) }
{
    for predicate in predicates {
        if let Some(id) = id_of(predicate) {
            return Some(id);
        }
    }
    None
}

// The id, where the expression is `@id='id'` in either order.
fn id_of(expression: &Expression) -> Option<Id>
    ensures { MatchOption result ((id : List ℕ) → IsIdPredicate id expression.now → ⊥) (λ id. IsIdPredicate id expression.now) }
{
    match expression {
        Expression::Compare {
            left,
            comparison,
            right,
        } => id_between(left, *comparison, right),
        Expression::Or(_) => None,
        Expression::And(_) => None,
        Expression::Not(_) => None,
        Expression::Path(_) => None,
    }
}

fn id_between(
    left: &Operand<Expression>,
    comparison: Comparison,
    right: &Operand<Expression>,
) -> Option<Id>
    ensures { MatchOption result ((id : List ℕ) → IsIdBetween id left.now comparison right.now → ⊥) (λ id. IsIdBetween id left.now comparison right.now) }
{
    if comparison != Comparison::Equal {
        None
    } else if is_own_id(left) {
        id_in(right)
    } else if is_own_id(right) {
        id_in(left)
    } else {
        None
    }
}

// The id that a literal is.
fn id_in(side: &Operand<Expression>) -> Option<Id>
    ensures { MatchOption result ((id : List ℕ) → IsIdLiteral id side.now → ⊥) (λ id. IsIdLiteral id side.now) }
{
    match side {
        Operand::Literal(text) => match Id::new(text.as_str()) {
            Ok(id) => Some(id),
            Err(_) => None,
        },
        Operand::Path(_) => None,
        Operand::Number(_) => None,
    }
}

// Whether a side is `@id`.
fn is_own_id(side: &Operand<Expression>) -> bool
    ensures { IsTrue result ↔ (side.now ≡ own_id) }
{
    match side {
        Operand::Path(path) => is_id_path(path),
        Operand::Literal(_) => false,
        Operand::Number(_) => false,
    }
}

fn is_id_path(path: &Path<Expression>) -> bool
    ensures { IsTrue result ↔ (path.now ≡ id_path) }
{
    if !path.parts.is_empty() {
        return false;
    }
    match &path.attribute {
        Some(attribute) => {
            attribute.name.as_str() == "id" && attribute.separator == Separator::Slash
        }
        None => false,
    }
}
