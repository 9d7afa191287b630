//! Whether two queries, or two starts, are the same.
ghost use Rattle.std.specs.Prelude.{◌≡◌, ◌≢◌, MatchBool};

use iris_need::Start;
use iris_tree::{Name, Sequence, State};
use iris_xpath::{Attribute, Expression, NameTest, Operand, Part, Path, Query, Step};

/// Whether the queries are the same.
pub(crate) fn same_query(one: &Query, other: &Query) -> bool
    ensures { MatchBool result (one.now ≡ other.now) (one.now ≢ other.now) }
{
    let (ones, others) = (one.steps(), other.steps());
    if ones.len() != others.len() {
        return false;
    }
    for index in 0..ones.len() {
        if !same_step(&ones[index], &others[index]) {
            return false;
        }
    }
    true
}

/// Whether the starts are the same.
pub(crate) fn same_start(one: &Start, other: &Start) -> bool
    ensures { MatchBool result (one.now ≡ other.now) (one.now ≢ other.now) }
{
    if one.top != other.top || one.level != other.level {
        return false;
    }
    if !same_name(&one.name, &other.name) {
        return false;
    }
    same_states(&one.states, &other.states)
}

fn same_name(one: &Name, other: &Name) -> bool
    ensures { MatchBool result (one.now ≡ other.now) (one.now ≢ other.now) }
{
    one == other
}

fn same_states(ones: &Sequence<State>, others: &Sequence<State>) -> bool
    ensures { MatchBool result (ones.now ≡ others.now) (ones.now ≢ others.now) }
{
    let (ones, others) = (ones.as_slice(), others.as_slice());
    if ones.len() != others.len() {
        return false;
    }
    for index in 0..ones.len() {
        if ones[index] != others[index] {
            return false;
        }
    }
    true
}

fn same_test(one: &NameTest, other: &NameTest) -> bool
    ensures { MatchBool result (one.now ≡ other.now) (one.now ≢ other.now) }
{
    match (one, other) {
        (NameTest::Any, NameTest::Any) => true,
        (NameTest::Kind(one), NameTest::Kind(other)) => one == other,
        (NameTest::Tag(one), NameTest::Tag(other)) => one == other,
        _ => false,
    }
}

fn same_attribute(one: &Option<Attribute>, other: &Option<Attribute>) -> bool
    ensures { MatchBool result (one.now ≡ other.now) (one.now ≢ other.now) }
{
    match (one, other) {
        (None, None) => true,
        (Some(one), Some(other)) => one.separator == other.separator && one.name == other.name,
        _ => false,
    }
}

#[cycle(comparing)]
fn same_expression(one: &Expression, other: &Expression) -> bool
    ensures { MatchBool result (one.now ≡ other.now) (one.now ≢ other.now) }
{
    match (one, other) {
        (Expression::Or(ones), Expression::Or(others)) => same_all(ones, others),
        (Expression::And(ones), Expression::And(others)) => same_all(ones, others),
        (Expression::Not(one), Expression::Not(other)) => same_expression(one.get(), other.get()),
        (Expression::Path(one), Expression::Path(other)) => same_path(one, other),
        (
            Expression::Compare {
                left,
                comparison,
                right,
            },
            Expression::Compare {
                left: other_left,
                comparison: other_comparison,
                right: other_right,
            },
        ) => {
            comparison == other_comparison
                && same_operand(left, other_left)
                && same_operand(right, other_right)
        }
        _ => false,
    }
}

#[cycle(comparing)]
fn same_all(ones: &Sequence<Expression>, others: &Sequence<Expression>) -> bool
    ensures { MatchBool result (ones.now ≡ others.now) (ones.now ≢ others.now) }
{
    let (ones, others) = (ones.as_slice(), others.as_slice());
    if ones.len() != others.len() {
        return false;
    }
    for index in 0..ones.len() {
        if !same_expression(&ones[index], &others[index]) {
            return false;
        }
    }
    true
}

#[cycle(comparing)]
fn same_step(one: &Step<Expression>, other: &Step<Expression>) -> bool
    ensures { MatchBool result (one.now ≡ other.now) (one.now ≢ other.now) }
{
    one.separator == other.separator
        && same_test(&one.test, &other.test)
        && same_all(&one.predicates, &other.predicates)
}

#[cycle(comparing)]
fn same_part(one: &Part<Expression>, other: &Part<Expression>) -> bool
    ensures { MatchBool result (one.now ≡ other.now) (one.now ≢ other.now) }
{
    match (one, other) {
        (Part::Itself, Part::Itself) | (Part::Parent, Part::Parent) => true,
        (Part::Step(one), Part::Step(other)) => same_step(one, other),
        _ => false,
    }
}

#[cycle(comparing)]
fn same_parts(ones: &Sequence<Part<Expression>>, others: &Sequence<Part<Expression>>) -> bool
    ensures { MatchBool result (ones.now ≡ others.now) (ones.now ≢ others.now) }
{
    let (ones, others) = (ones.as_slice(), others.as_slice());
    if ones.len() != others.len() {
        return false;
    }
    for index in 0..ones.len() {
        if !same_part(&ones[index], &others[index]) {
            return false;
        }
    }
    true
}

#[cycle(comparing)]
fn same_path(one: &Path<Expression>, other: &Path<Expression>) -> bool
    ensures { MatchBool result (one.now ≡ other.now) (one.now ≢ other.now) }
{
    same_attribute(&one.attribute, &other.attribute) && same_parts(&one.parts, &other.parts)
}

#[cycle(comparing)]
fn same_operand(one: &Operand<Expression>, other: &Operand<Expression>) -> bool
    ensures { MatchBool result (one.now ≡ other.now) (one.now ≢ other.now) }
{
    match (one, other) {
        (Operand::Path(one), Operand::Path(other)) => same_path(one, other),
        (Operand::Literal(one), Operand::Literal(other)) => one == other,
        (Operand::Number(one), Operand::Number(other)) => one == other,
        _ => false,
    }
}
