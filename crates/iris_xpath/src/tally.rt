//! What of a query the limits count.
ghost use Rattle.std.specs.Prelude.{◌≡◌, min, Some, None};
ghost use Rattle.iris_xpath.specs.Tally as tally;

use crate::error::QueryLimit;
use crate::expression::{Attribute, Expression, NameTest, Operand, Part, Path, Separator, Step};
use crate::operands::TOO_LONG;
use crate::query::Query;
use iris_tree::{MAX_NESTING, MAX_OPERANDS, MAX_PARENTHESES, MAX_PATH_PARTS, MAX_STEPS, Sequence};

/// What is counted of predicates.
#[derive(Clone, Copy)]
pub struct Tally {
    /// Whether a number has too many digits.
    pub is_long: bool,
    /// The greatest number of parts of a path, its attribute counted.
    pub path: usize,
    /// The number of operands.
    pub operands: usize,
    /// The nesting depth.
    pub depth: usize,
}

/// The first limit that is passed, of those behind that of the bytes, where parentheses are nested so deep.
pub fn limit_passed(steps: &[Step<Expression>], parens: usize) -> Option<QueryLimit>
    ensures { result ≡ tally.limit_of steps.now parens }
{
    let tally = tally_main(steps);
    if tally.is_long {
        Some(QueryLimit::Digits)
    } else if steps.len() > MAX_STEPS {
        Some(QueryLimit::Steps)
    } else if tally.path > MAX_PATH_PARTS {
        Some(QueryLimit::Path)
    } else if tally.operands > MAX_OPERANDS {
        Some(QueryLimit::Operands)
    } else if parens > MAX_PARENTHESES {
        Some(QueryLimit::Parens)
    } else if tally.depth > MAX_NESTING {
        Some(QueryLimit::Depth)
    } else {
        None
    }
}

/// The nesting depth of the query: the greatest number of paths in its predicates, one inside another,
/// that have a kind, `*`, `..` or `//`.
pub fn depth(query: &Query) -> u32
    ensures { result ≡ tally.depth_of query.now }
{
    tally_main(query.steps()).depth as u32
}

// The tally of the predicates of all steps.
fn tally_main(steps: &[Step<Expression>]) -> Tally
    ensures { result ≡ tally.capped (tally.main_tally steps.now) }
{
    let mut all = nothing();
    for step in steps {
        all = both(all, tally_all(&step.predicates));
    }
    all
}

fn nothing() -> Tally
    ensures { result ≡ tally.nothing }
{
    Tally {
        is_long: false,
        path: 0,
        operands: 0,
        depth: 0,
    }
}

fn both(one: Tally, other: Tally) -> Tally
    ensures { result ≡ tally.capped (tally.both one other) }
{
    Tally {
        is_long: one.is_long || other.is_long,
        path: one.path.max(other.path),
        operands: one.operands.saturating_add(other.operands),
        depth: one.depth.max(other.depth),
    }
}

#[cycle(tallying)]
fn tally_all(expressions: &Sequence<Expression>) -> Tally
    ensures { result ≡ tally.capped (tally.tally_all expressions.now) }
{
    let mut all = nothing();
    for expression in expressions.as_slice() {
        all = both(all, tally_of(expression));
    }
    all
}

#[cycle(tallying)]
fn tally_of(expression: &Expression) -> Tally
    ensures { result ≡ tally.capped (tally.tally_of expression.now) }
{
    match expression {
        Expression::Or(parts) | Expression::And(parts) => tally_all(parts),
        Expression::Not(inner) => tally_of(inner.get()),
        Expression::Path(path) => tally_path(path),
        Expression::Compare { left, right, .. } => {
            both(tally_operand(left), tally_operand(right))
        }
    }
}

#[cycle(tallying)]
fn tally_operand(operand: &Operand<Expression>) -> Tally
    ensures { result ≡ tally.capped (tally.tally_operand operand.now) }
{
    match operand {
        Operand::Path(path) => tally_path(path),
        Operand::Literal(_) => operand_of(false),
        Operand::Number(value) => operand_of(*value == TOO_LONG),
    }
}

fn operand_of(is_long: bool) -> Tally
    ensures { result ≡ tally.operand_of is_long }
{
    Tally {
        is_long,
        path: 0,
        operands: 1,
        depth: 0,
    }
}

#[cycle(tallying)]
fn tally_path(path: &Path<Expression>) -> Tally
    ensures { result ≡ tally.capped (tally.tally_path path.now) }
{
    let mut inner = nothing();
    for part in path.parts.as_slice() {
        inner = both(inner, tally_part(part));
    }
    path_of(inner, path_len(path), is_counted(path))
}

fn path_of(inner: Tally, len: usize, is_counted: bool) -> Tally
    ensures { result ≡ tally.capped (tally.path_of inner len is_counted) }
{
    Tally {
        is_long: inner.is_long,
        path: inner.path.max(len),
        operands: inner.operands.saturating_add(1),
        depth: if is_counted {
            inner.depth.saturating_add(1)
        } else {
            inner.depth
        },
    }
}

#[cycle(tallying)]
fn tally_part(part: &Part<Expression>) -> Tally
    ensures { result ≡ tally.capped (tally.tally_part part.now) }
{
    match part {
        Part::Itself | Part::Parent => nothing(),
        Part::Step(step) => tally_all(&step.predicates),
    }
}

// The number of its parts, the attribute counted.
fn path_len(path: &Path<Expression>) -> usize
    ensures { result ≡ min (tally.path_len path.now.parts path.now.attribute) tally.most }
{
    match path.attribute {
        Some(_) => path.parts.len().saturating_add(1),
        None => path.parts.len(),
    }
}

// Whether the path has a kind test, `*`, `..` or `//`.
fn is_counted(path: &Path<Expression>) -> bool
    ensures { result ≡ tally.is_counted path.now.parts path.now.attribute }
{
    if is_deep(&path.attribute) {
        return true;
    }
    for part in path.parts.as_slice() {
        if goes_far(part) {
            return true;
        }
    }
    false
}

fn is_deep(attribute: &Option<Attribute>) -> bool
    ensures { result ≡ tally.is_deep attribute.now }
{
    match attribute {
        Some(attribute) => is_double(attribute.separator),
        None => false,
    }
}

fn is_double(separator: Separator) -> bool
    ensures { result ≡ tally.is_double separator }
{
    match separator {
        Separator::Slash => false,
        Separator::DoubleSlash => true,
    }
}

fn goes_far(part: &Part<Expression>) -> bool
    ensures { result ≡ tally.goes_far part.now }
{
    match part {
        Part::Itself => false,
        Part::Parent => true,
        Part::Step(step) => is_double(step.separator) || is_wide(&step.test),
    }
}

fn is_wide(test: &NameTest) -> bool
    ensures { result ≡ tally.is_wide test.now }
{
    match test {
        NameTest::Any | NameTest::Kind(_) => true,
        NameTest::Tag(_) => false,
    }
}
