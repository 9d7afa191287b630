//! What a byte does to units, their links, brackets and parentheses.
ghost use Rattle.std.specs.Prelude.{◌≡◌, ◌<◌, ◌++◌, IfOk};
ghost use Rattle.iris_xpath.specs.Machine as machine;
ghost use Rattle.iris_xpath.specs.Trees as trees;
ghost use Rattle.iris_xpath.specs.Machine.{Turned};

use crate::bytes::{is_blank, is_word_byte};
use crate::expression::{Expression, Step};
use crate::operands::begin_operand;
use crate::stack::Stack;
use crate::state::{Frame, Level, Link, Side, State};
use iris_tree::{Mem, Sequence};
use sqlite_items::Boxed;
use std::alloc::Global;

#[inline(always)]
pub fn no_units(alloc: Global) -> Mem<Boxed<Level>>
    ensures { IfOk result (λ level. level ≡ machine.no_units) }
{
    let level = Level {
        ors: Sequence::new(alloc),
        ands: Sequence::new(alloc),
    };
    Ok(Boxed::new(alloc, level)?)
}

#[inline(always)]
pub fn unit(alloc: Global, stack: &mut Stack, level: Boxed<Level>, byte: u8) -> Mem<Option<State>>
    requires { byte < 128 }
    ensures { IfOk result (λ next. Turned (machine.unit level stack.old byte) next stack.new) }
{
    if is_blank(byte) {
        return Ok(Some(State::Unit { level }));
    }
    begin_unit(alloc, stack, level, byte)
}

#[inline(always)]
fn begin_unit(alloc: Global, stack: &mut Stack, level: Boxed<Level>, byte: u8) -> Mem<Option<State>>
    requires { byte < 128 }
    ensures { IfOk result (λ next. Turned (machine.begin_unit level stack.old byte) next stack.new) }
{
    if byte == b'(' {
        stack.push(Frame::Paren {
            negated: false,
            level,
        })?;
        return Ok(Some(State::Unit {
            level: no_units(alloc)?,
        }));
    }
    let side = Side {
        compared: None,
        level,
    };
    begin_operand(alloc, Boxed::new(alloc, side)?, byte)
}

#[inline(always)]
pub fn after_group(
    alloc: Global,
    stack: &mut Stack,
    unit: Expression,
    level: Boxed<Level>,
    byte: u8,
) -> Mem<Option<State>>
    ensures { IfOk result (λ next. Turned (machine.after_group unit level stack.old byte) next stack.new) }
{
    if is_blank(byte) {
        let unit = Boxed::new(alloc, unit)?;
        return Ok(Some(State::AfterGroup { unit, level }));
    }
    end_unit(alloc, stack, unit, level, byte)
}

// What follows a unit is `and`, `or`, or what closes the innermost bracket or parenthesis.
pub fn end_unit(
    alloc: Global,
    stack: &mut Stack,
    unit: Expression,
    level: Boxed<Level>,
    byte: u8,
) -> Mem<Option<State>>
    ensures { IfOk result (λ next. Turned (machine.end_unit unit level stack.old byte) next stack.new) }
{
    if byte == b'a' {
        let unit = Boxed::new(alloc, unit)?;
        return Ok(Some(State::Link {
            link: Link::A,
            unit,
            level,
        }));
    }
    if byte == b'o' {
        let unit = Boxed::new(alloc, unit)?;
        return Ok(Some(State::Link {
            link: Link::O,
            unit,
            level,
        }));
    }
    let Level { ors, ands } = level.into_inner();
    let whole = joined_or(ors, joined_and(ands, unit)?)?;
    close(alloc, stack, whole, byte)
}

// Closes the innermost bracket or parenthesis after an expression.
fn close(alloc: Global, stack: &mut Stack, whole: Expression, byte: u8) -> Mem<Option<State>>
    ensures { IfOk result (λ next. Turned (machine.close whole stack.old byte) next stack.new) }
{
    match stack.pop() {
        Some(Frame::Bracket { step, spot }) => {
            if byte != b']' {
                return Ok(None);
            }
            let step = with_predicate(step.into_inner(), whole)?;
            let step = Boxed::new(alloc, step)?;
            Ok(Some(State::AfterStep { step, spot }))
        }
        Some(Frame::Paren { negated, level }) => {
            if byte != b')' {
                return Ok(None);
            }
            let unit = Boxed::new(alloc, negated_if(negated, whole, alloc)?)?;
            Ok(Some(State::AfterGroup { unit, level }))
        }
        None => Ok(None),
    }
}

pub fn with_predicate(step: Step<Expression>, predicate: Expression) -> Mem<Step<Expression>>
    ensures { IfOk result (λ made. made ≡ trees.with_predicate step predicate) }
{
    let Step {
        separator,
        test,
        mut predicates,
    } = step;
    predicates.push(predicate)?;
    Ok(Step {
        separator,
        test,
        predicates,
    })
}

fn negated_if(negated: bool, inner: Expression, alloc: Global) -> Mem<Expression>
    ensures { IfOk result (λ made. made ≡ trees.negated_if negated inner) }
{
    if !negated {
        return Ok(inner);
    }
    Ok(Expression::Not(Boxed::new(alloc, inner)?))
}

#[inline(always)]
pub fn after_link(
    alloc: Global,
    stack: &mut Stack,
    link: Link,
    unit: Boxed<Expression>,
    level: Boxed<Level>,
    byte: u8,
) -> Mem<Option<State>>
    requires { byte < 128 }
    ensures { IfOk result (λ next. Turned (machine.after_link link unit level stack.old byte) next stack.new) }
{
    match link {
        Link::A => Ok(link_if(byte == b'n', Link::An, unit, level)),
        Link::An => Ok(link_if(byte == b'd', Link::And, unit, level)),
        Link::O => Ok(link_if(byte == b'r', Link::Or, unit, level)),
        Link::And => {
            if is_word_byte(byte) {
                return Ok(None);
            }
            let level = after_and(alloc, level, unit.into_inner())?;
            self::unit(alloc, stack, level, byte)
        }
        Link::Or => {
            if is_word_byte(byte) {
                return Ok(None);
            }
            let level = after_or(alloc, level, unit.into_inner())?;
            self::unit(alloc, stack, level, byte)
        }
    }
}

#[inline(always)]
fn link_if(holds: bool, link: Link, unit: Boxed<Expression>, level: Boxed<Level>) -> Option<State>
    ensures { result ≡ machine.link_if holds link unit level }
{
    if !holds {
        return None;
    }
    Some(State::Link { link, unit, level })
}

// The level where the unit is followed by `and`.
fn after_and(alloc: Global, level: Boxed<Level>, unit: Expression) -> Mem<Boxed<Level>>
    ensures { IfOk result (λ next. next ≡ machine.after_and level unit) }
{
    let Level { ors, ands } = level.into_inner();
    let level = Level {
        ors,
        ands: add_and(ands, unit)?,
    };
    Ok(Boxed::new(alloc, level)?)
}

// The level where the unit is followed by `or`.
fn after_or(alloc: Global, level: Boxed<Level>, unit: Expression) -> Mem<Boxed<Level>>
    ensures { IfOk result (λ next. next ≡ machine.after_or level unit) }
{
    let Level { ors, ands } = level.into_inner();
    let level = Level {
        ors: add_or(ors, joined_and(ands, unit)?)?,
        ands: Sequence::new(alloc),
    };
    Ok(Boxed::new(alloc, level)?)
}

// The `and` of some expressions and one more. An `and` in it gives its parts.
fn joined_and(ands: Sequence<Expression>, last: Expression) -> Mem<Expression>
    ensures { IfOk result (λ made. made ≡ trees.joined_and ands last) }
{
    if ands.is_empty() {
        return Ok(last);
    }
    Ok(Expression::And(add_and(ands, last)?))
}

fn joined_or(ors: Sequence<Expression>, last: Expression) -> Mem<Expression>
    ensures { IfOk result (λ made. made ≡ trees.joined_or ors last) }
{
    if ors.is_empty() {
        return Ok(last);
    }
    Ok(Expression::Or(add_or(ors, last)?))
}

fn add_and(ands: Sequence<Expression>, last: Expression) -> Mem<Sequence<Expression>>
    ensures { IfOk result (λ made. made ≡ trees.add_and ands last) }
{
    match last {
        Expression::And(parts) => joined(ands, parts),
        other => {
            let mut ands = ands;
            ands.push(other)?;
            Ok(ands)
        }
    }
}

fn add_or(ors: Sequence<Expression>, last: Expression) -> Mem<Sequence<Expression>>
    ensures { IfOk result (λ made. made ≡ trees.add_or ors last) }
{
    match last {
        Expression::Or(parts) => joined(ors, parts),
        other => {
            let mut ors = ors;
            ors.push(other)?;
            Ok(ors)
        }
    }
}

fn joined(front: Sequence<Expression>, back: Sequence<Expression>) -> Mem<Sequence<Expression>>
    ensures { IfOk result (λ made. made ≡ front ++ back) }
{
    let mut front = front.into_vec();
    let mut back = back.into_vec();
    front.append(&mut back)?;
    Ok(Sequence::from_vec(front))
}
