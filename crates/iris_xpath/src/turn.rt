//! What a byte does.
ghost use Rattle.std.specs.Prelude.{◌<◌, IfOk};
ghost use Rattle.iris_xpath.specs.Machine as machine;
ghost use Rattle.iris_xpath.specs.Trees as trees;
ghost use Rattle.iris_xpath.specs.Machine.{Turned, IsBytewise, at};

use crate::bytes::{is_digit, is_word_byte};
use crate::expression::{Expression, Operand, Part, Separator};
use crate::operands::{after_bang, after_minus, after_operand, after_sign, number_of, right};
use crate::stack::Stack;
use crate::state::{Side, State};
use crate::steps::{
    after_at, after_dot, after_dots, after_separator, after_slash, after_step, attribute_of,
    begin_text, step_of, test_of,
};
use crate::units::{after_group, after_link, unit};
use crate::word::Word;
use iris_tree::{Kind, Mem, Sequence};
use sqlite_items::Boxed;
use std::alloc::Global;

/// What a byte does at a state, below what is open: the next state, or nothing where no query goes on
/// with it. A literal is not read byte by byte.
#[inline(always)]
pub fn turn(
    alloc: Global,
    kinds: &[Kind],
    stack: &mut Stack,
    state: State,
    byte: u8,
) -> Mem<Option<State>>
    requires ascii { byte < 128 }
    requires bytewise { IsBytewise state }
    ensures { IfOk result (λ next. Turned (machine.next (trees.named kinds.now) (at state stack.old) byte) next stack.new) }
{
    match state {
        State::Start => begin_text(alloc, byte),
        State::Slash { spot } => after_slash(alloc, spot, byte),
        State::Separated { separator, spot } => after_separator(alloc, separator, spot, byte),
        State::InWord {
            separator,
            word,
            spot,
        } => {
            if is_word_byte(byte) {
                let word = word.push(byte)?;
                return Ok(Some(State::InWord {
                    separator,
                    word,
                    spot,
                }));
            }
            let step = step_of(alloc, separator, test_of(kinds, word));
            after_step(alloc, stack, step, spot, byte)
        }
        State::AfterStep { step, spot } => after_step(alloc, stack, step.into_inner(), spot, byte),
        State::Unit { level } => unit(alloc, stack, level, byte),
        State::Dot { parts, side } => after_dot(alloc, stack, parts, side, byte),
        State::AfterDots { parts, side } => after_dots(alloc, stack, parts, side, byte),
        State::AtSign {
            separator,
            parts,
            side,
        } => after_at(alloc, separator, parts, side, byte),
        State::InAttribute {
            separator,
            word,
            parts,
            side,
        } => in_attribute(alloc, stack, separator, word, parts, side, byte),
        State::AfterOperand { operand, side } => after_operand(
            alloc,
            stack,
            operand.into_inner(),
            side,
            byte,
        ),
        State::InLiteral { .. } => unreachable!(),
        State::Minus { side } => after_minus(alloc, side, byte),
        State::InDigits {
            negative,
            digits,
            side,
        } => in_digits(alloc, stack, negative, digits, side, byte),
        State::Bang { left, level } => after_bang(alloc, left.into_inner(), level, byte),
        State::Sign { compared, level } => after_sign(alloc, compared.into_inner(), level, byte),
        State::Right { side } => right(alloc, side, byte),
        State::AfterGroup { unit, level } => after_group(
            alloc,
            stack,
            unit.into_inner(),
            level,
            byte,
        ),
        State::Link { link, unit, level } => after_link(alloc, stack, link, unit, level, byte),
    }
}

// After bytes of an attribute's name.
#[inline(always)]
fn in_attribute(
    alloc: Global,
    stack: &mut Stack,
    separator: Separator,
    word: Word,
    parts: Sequence<Part<Expression>>,
    side: Boxed<Side>,
    byte: u8,
) -> Mem<Option<State>>
    requires { byte < 128 }
    ensures { IfOk result (λ next. Turned (machine.in_attribute separator word parts side stack.old byte) next stack.new) }
{
    if is_word_byte(byte) {
        let word = word.push(byte)?;
        return Ok(Some(State::InAttribute {
            separator,
            word,
            parts,
            side,
        }));
    }
    after_operand(
        alloc,
        stack,
        attribute_of(separator, word, parts),
        side,
        byte,
    )
}

// After digits of a number.
#[inline(always)]
fn in_digits(
    alloc: Global,
    stack: &mut Stack,
    negative: bool,
    digits: Word,
    side: Boxed<Side>,
    byte: u8,
) -> Mem<Option<State>>
    requires { byte < 128 }
    ensures { IfOk result (λ next. Turned (machine.in_digits negative digits side stack.old byte) next stack.new) }
{
    if is_digit(byte) {
        let digits = digits.push(byte)?;
        return Ok(Some(State::InDigits {
            negative,
            digits,
            side,
        }));
    }
    let operand = Operand::Number(number_of(negative, &digits));
    after_operand(alloc, stack, operand, side, byte)
}
