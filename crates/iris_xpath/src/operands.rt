//! What a byte does to operands and comparisons.
ghost use Rattle.std.specs.Prelude.{◌≡◌, ◌<◌, ◌≤◌, ◌^◌, length, IfOk};
ghost use Rattle.iris_base.specs.declared.limits.TheConstants.{MAX_DIGITS};
ghost use Rattle.iris_xpath.specs.Machine as machine;
ghost use Rattle.iris_xpath.specs.Trees as trees;
ghost use Rattle.iris_xpath.specs.Machine.{Turned};

use crate::bytes::{is_blank, is_digit, is_quote};
use crate::expression::{Comparison, Expression, Operand, Path, Separator};
use crate::stack::Stack;
use crate::state::{Compared, Level, Side, State};
use crate::steps::begin_part;
use crate::units::end_unit;
use crate::word::Word;
use iris_tree::{MAX_DIGITS, Mem, Sequence};
use sqlite_items::Boxed;
use std::alloc::Global;

// An operand is a literal, a number or a path.
#[inline(always)]
pub fn begin_operand(alloc: Global, side: Boxed<Side>, byte: u8) -> Mem<Option<State>>
    requires { byte < 128 }
    ensures { IfOk result (λ next. next ≡ machine.begin_operand side byte) }
{
    if is_quote(byte) {
        return Ok(Some(State::InLiteral { quote: byte, side }));
    }
    if byte == b'-' {
        return Ok(Some(State::Minus { side }));
    }
    if is_digit(byte) {
        let digits = Word::new(alloc, byte)?;
        return Ok(Some(State::InDigits {
            negative: false,
            digits,
            side,
        }));
    }
    begin_part(alloc, Separator::Slash, Sequence::new(alloc), side, byte)
}

#[inline(always)]
pub fn after_minus(alloc: Global, side: Boxed<Side>, byte: u8) -> Mem<Option<State>>
    requires { byte < 128 }
    ensures { IfOk result (λ next. next ≡ machine.after_minus side byte) }
{
    if is_blank(byte) {
        return Ok(Some(State::Minus { side }));
    }
    if !is_digit(byte) {
        return Ok(None);
    }
    let digits = Word::new(alloc, byte)?;
    Ok(Some(State::InDigits {
        negative: true,
        digits,
        side,
    }))
}

/// What stands for a number of more digits than a query may have.
pub const TOO_LONG: i64 = 1_000_000_000_000_000_000;

// The number of these digits, or `TOO_LONG` where they are more than `MAX_DIGITS`.
pub fn number_of(negative: bool, digits: &Word) -> i64
    ensures { result ≡ trees.number_of negative digits.now }
{
    let digits = digits.as_str().as_bytes();
    if digits.len() > MAX_DIGITS {
        return TOO_LONG;
    }
    let value = value_of(digits) as i64;
    if negative { -value } else { value }
}

// The value of at most `MAX_DIGITS` digits.
fn value_of(digits: &[u8]) -> u64
    requires { length digits.now ≤ MAX_DIGITS }
    ensures value { result ≡ trees.value_of digits.now }
    ensures small { result < 10 ^ MAX_DIGITS }
{
    let mut value: u64 = 0;
    for digit in digits {
        value = value * 10 + digit_of(*digit);
    }
    value
}

#[inline(always)]
fn digit_of(byte: u8) -> u64
    ensures value { result ≡ trees.digit_of byte }
    ensures small { result ≤ 9 }
{
    if is_digit(byte) {
        (byte - b'0') as u64
    } else {
        0
    }
}

#[inline(always)]
pub fn after_operand(
    alloc: Global,
    stack: &mut Stack,
    operand: Operand<Expression>,
    side: Boxed<Side>,
    byte: u8,
) -> Mem<Option<State>>
    ensures { IfOk result (λ next. Turned (machine.after_operand operand side stack.old byte) next stack.new) }
{
    if is_blank(byte) {
        let operand = Boxed::new(alloc, operand)?;
        return Ok(Some(State::AfterOperand { operand, side }));
    }
    end_operand(alloc, stack, operand, side, byte)
}

// What follows an operand is the sign of a comparison, or what follows a unit.
#[inline(always)]
pub fn end_operand(
    alloc: Global,
    stack: &mut Stack,
    operand: Operand<Expression>,
    side: Boxed<Side>,
    byte: u8,
) -> Mem<Option<State>>
    ensures { IfOk result (λ next. Turned (machine.end_operand operand side stack.old byte) next stack.new) }
{
    let Side { compared, level } = side.into_inner();
    match compared {
        Some(Compared { left, comparison }) => {
            let unit = Expression::Compare {
                left,
                comparison,
                right: operand,
            };
            end_unit(alloc, stack, unit, level, byte)
        }
        None => end_left(alloc, stack, operand, level, byte),
    }
}

#[inline(always)]
fn end_left(
    alloc: Global,
    stack: &mut Stack,
    operand: Operand<Expression>,
    level: Boxed<Level>,
    byte: u8,
) -> Mem<Option<State>>
    ensures { IfOk result (λ next. Turned (machine.end_left operand level stack.old byte) next stack.new) }
{
    if byte == b'!' {
        let left = Boxed::new(alloc, operand)?;
        return Ok(Some(State::Bang { left, level }));
    }
    if byte == b'=' {
        return Ok(Some(right_of(alloc, operand, Comparison::Equal, level)?));
    }
    if byte == b'<' {
        return Ok(Some(sign_of(alloc, operand, Comparison::Less, level)?));
    }
    if byte == b'>' {
        return Ok(Some(sign_of(alloc, operand, Comparison::Greater, level)?));
    }
    match operand {
        Operand::Path(path) => end_unit(alloc, stack, Expression::Path(path), level, byte),
        Operand::Literal(_) | Operand::Number(_) => Ok(None),
    }
}

// ---- comparisons

#[inline(always)]
fn right_of(
    alloc: Global,
    left: Operand<Expression>,
    comparison: Comparison,
    level: Boxed<Level>,
) -> Mem<State>
    ensures { IfOk result (λ state. state ≡ machine.right_of left comparison level) }
{
    let side = Side {
        compared: Some(Compared { left, comparison }),
        level,
    };
    Ok(State::Right {
        side: Boxed::new(alloc, side)?,
    })
}

#[inline(always)]
fn sign_of(
    alloc: Global,
    left: Operand<Expression>,
    comparison: Comparison,
    level: Boxed<Level>,
) -> Mem<State>
    ensures { IfOk result (λ state. state ≡ machine.sign_of left comparison level) }
{
    let compared = Boxed::new(alloc, Compared { left, comparison })?;
    Ok(State::Sign { compared, level })
}

#[inline(always)]
pub fn after_bang(
    alloc: Global,
    left: Operand<Expression>,
    level: Boxed<Level>,
    byte: u8,
) -> Mem<Option<State>>
    ensures { IfOk result (λ next. next ≡ machine.after_bang left level byte) }
{
    if byte != b'=' {
        return Ok(None);
    }
    Ok(Some(right_of(alloc, left, Comparison::NotEqual, level)?))
}

#[inline(always)]
pub fn after_sign(
    alloc: Global,
    compared: Compared,
    level: Boxed<Level>,
    byte: u8,
) -> Mem<Option<State>>
    requires { byte < 128 }
    ensures { IfOk result (λ next. next ≡ machine.after_sign compared level byte) }
{
    let Compared { left, comparison } = compared;
    if byte == b'=' {
        return Ok(Some(right_of(alloc, left, or_equal(comparison), level)?));
    }
    let side = Side {
        compared: Some(Compared { left, comparison }),
        level,
    };
    right(alloc, Boxed::new(alloc, side)?, byte)
}

// The sign with `=` behind it.
#[inline(always)]
fn or_equal(comparison: Comparison) -> Comparison
    ensures { result ≡ trees.or_equal comparison }
{
    match comparison {
        Comparison::Less => Comparison::LessOrEqual,
        Comparison::Greater => Comparison::GreaterOrEqual,
        other => other,
    }
}

#[inline(always)]
pub fn right(alloc: Global, side: Boxed<Side>, byte: u8) -> Mem<Option<State>>
    requires { byte < 128 }
    ensures { IfOk result (λ next. next ≡ machine.begin_right side byte) }
{
    if is_blank(byte) {
        return Ok(Some(State::Right { side }));
    }
    begin_operand(alloc, side, byte)
}
