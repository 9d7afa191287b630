//! What a byte does to steps and paths.
ghost use Rattle.std.specs.Prelude.{◌≡◌, ◌<◌, IfOk};
ghost use Rattle.iris_xpath.specs.Machine as machine;
ghost use Rattle.iris_xpath.specs.Trees as trees;
ghost use Rattle.iris_xpath.specs.Machine.{Turned};

use crate::bytes::{is_blank, is_letter};
use crate::expression::{Attribute, Expression, NameTest, Operand, Part, Path, Separator, Step};
use crate::operands::end_operand;
use crate::stack::Stack;
use crate::state::{Frame, Side, Spot, State};
use crate::units::no_units;
use crate::word::Word;
use iris_tree::{Kind, Mem, Sequence};
use sqlite_items::Boxed;
use std::alloc::Global;

#[inline(always)]
pub fn begin_text(alloc: Global, byte: u8) -> Mem<Option<State>>
    ensures { IfOk result (λ next. next ≡ machine.begin_text byte) }
{
    if is_blank(byte) {
        return Ok(Some(State::Start));
    }
    if byte != b'/' {
        return Ok(None);
    }
    Ok(Some(State::Slash {
        spot: Spot::Main {
            steps: Sequence::new(alloc),
        },
    }))
}

#[inline(always)]
pub fn after_slash(alloc: Global, spot: Spot, byte: u8) -> Mem<Option<State>>
    requires { byte < 128 }
    ensures { IfOk result (λ next. next ≡ machine.after_slash spot byte) }
{
    if byte == b'/' {
        return Ok(Some(State::Separated {
            separator: Separator::DoubleSlash,
            spot,
        }));
    }
    after_separator(alloc, Separator::Slash, spot, byte)
}

#[inline(always)]
pub fn after_separator(
    alloc: Global,
    separator: Separator,
    spot: Spot,
    byte: u8,
) -> Mem<Option<State>>
    requires { byte < 128 }
    ensures { IfOk result (λ next. next ≡ machine.after_separator separator spot byte) }
{
    if is_blank(byte) {
        return Ok(Some(State::Separated { separator, spot }));
    }
    match spot {
        Spot::Main { .. } => begin_step(alloc, separator, spot, byte),
        Spot::Part { parts, side } => begin_part(alloc, separator, parts, side, byte),
    }
}

// A step begins with a word or `*`.
#[inline(always)]
fn begin_step(alloc: Global, separator: Separator, spot: Spot, byte: u8) -> Mem<Option<State>>
    requires { byte < 128 }
    ensures { IfOk result (λ next. next ≡ machine.begin_step separator spot byte) }
{
    if is_letter(byte) {
        let word = Word::new(alloc, byte)?;
        return Ok(Some(State::InWord {
            separator,
            word,
            spot,
        }));
    }
    if byte != b'*' {
        return Ok(None);
    }
    let step = Boxed::new(alloc, step_of(alloc, separator, NameTest::Any))?;
    Ok(Some(State::AfterStep { step, spot }))
}

// A part begins as a step does, or with `.` or `@`.
#[inline(always)]
pub fn begin_part(
    alloc: Global,
    separator: Separator,
    parts: Sequence<Part<Expression>>,
    side: Boxed<Side>,
    byte: u8,
) -> Mem<Option<State>>
    requires { byte < 128 }
    ensures { IfOk result (λ next. next ≡ machine.begin_part separator parts side byte) }
{
    if byte == b'@' {
        return Ok(Some(State::AtSign {
            separator,
            parts,
            side,
        }));
    }
    if byte == b'.' {
        return Ok(match separator {
            Separator::Slash => Some(State::Dot { parts, side }),
            Separator::DoubleSlash => None,
        });
    }
    begin_step(alloc, separator, Spot::Part { parts, side }, byte)
}

#[inline(always)]
pub fn step_of(alloc: Global, separator: Separator, test: NameTest) -> Step<Expression>
    ensures { result ≡ trees.step_of separator test }
{
    Step {
        separator,
        test,
        predicates: Sequence::new(alloc),
    }
}

// The kind of that name, or else the tag.
pub fn test_of(kinds: &[Kind], word: Word) -> NameTest
    ensures { result ≡ trees.named kinds.now word }
{
    for kind in kinds {
        if kind.as_str() == word.as_str() {
            return NameTest::Kind(*kind);
        }
    }
    NameTest::Tag(word.into_text())
}

#[inline(always)]
pub fn after_step(
    alloc: Global,
    stack: &mut Stack,
    step: Step<Expression>,
    spot: Spot,
    byte: u8,
) -> Mem<Option<State>>
    ensures { IfOk result (λ next. Turned (machine.after_step step spot stack.old byte) next stack.new) }
{
    if is_blank(byte) {
        let step = Boxed::new(alloc, step)?;
        return Ok(Some(State::AfterStep { step, spot }));
    }
    if byte == b'[' {
        let step = Boxed::new(alloc, step)?;
        stack.push(Frame::Bracket { step, spot })?;
        return Ok(Some(State::Unit {
            level: no_units(alloc)?,
        }));
    }
    match spot {
        Spot::Main { mut steps } => {
            if byte != b'/' {
                return Ok(None);
            }
            steps.push(step)?;
            Ok(Some(State::Slash {
                spot: Spot::Main { steps },
            }))
        }
        Spot::Part { parts, side } => {
            if byte == b'(' {
                return open_not(alloc, stack, step, parts, side);
            }
            let mut parts = parts;
            parts.push(Part::Step(step))?;
            after_path(alloc, stack, parts, side, byte)
        }
    }
}

// A parenthesis after a step is that of `not` or none.
fn open_not(
    alloc: Global,
    stack: &mut Stack,
    step: Step<Expression>,
    parts: Sequence<Part<Expression>>,
    side: Boxed<Side>,
) -> Mem<Option<State>>
    ensures { IfOk result (λ next. Turned (machine.open_not step parts side stack.old) next stack.new) }
{
    if !is_not(&step) || !parts.is_empty() {
        return Ok(None);
    }
    let Side { compared, level } = side.into_inner();
    if compared.is_some() {
        return Ok(None);
    }
    stack.push(Frame::Paren {
        negated: true,
        level,
    })?;
    Ok(Some(State::Unit {
        level: no_units(alloc)?,
    }))
}

// Whether the step is the word `not` alone.
fn is_not(step: &Step<Expression>) -> bool
    ensures { result ≡ trees.is_not step.now }
{
    let name = match &step.test {
        NameTest::Any => return false,
        NameTest::Kind(kind) => kind.as_str(),
        NameTest::Tag(tag) => tag.as_str(),
    };
    name == "not" && step.predicates.is_empty()
}

// ---- paths in predicates

#[inline(always)]
fn after_path(
    alloc: Global,
    stack: &mut Stack,
    parts: Sequence<Part<Expression>>,
    side: Boxed<Side>,
    byte: u8,
) -> Mem<Option<State>>
    ensures { IfOk result (λ next. Turned (machine.after_path parts side stack.old byte) next stack.new) }
{
    if byte == b'/' {
        return Ok(Some(State::Slash {
            spot: Spot::Part { parts, side },
        }));
    }
    let path = Path {
        parts,
        attribute: None,
    };
    end_operand(alloc, stack, Operand::Path(path), side, byte)
}

#[inline(always)]
pub fn after_dot(
    alloc: Global,
    stack: &mut Stack,
    parts: Sequence<Part<Expression>>,
    side: Boxed<Side>,
    byte: u8,
) -> Mem<Option<State>>
    ensures { IfOk result (λ next. Turned (machine.after_dot parts side stack.old byte) next stack.new) }
{
    let mut parts = parts;
    if byte == b'.' {
        parts.push(Part::Parent)?;
        return Ok(Some(State::AfterDots { parts, side }));
    }
    parts.push(Part::Itself)?;
    after_dots(alloc, stack, parts, side, byte)
}

#[inline(always)]
pub fn after_dots(
    alloc: Global,
    stack: &mut Stack,
    parts: Sequence<Part<Expression>>,
    side: Boxed<Side>,
    byte: u8,
) -> Mem<Option<State>>
    ensures { IfOk result (λ next. Turned (machine.after_dots parts side stack.old byte) next stack.new) }
{
    if is_blank(byte) {
        return Ok(Some(State::AfterDots { parts, side }));
    }
    after_path(alloc, stack, parts, side, byte)
}

#[inline(always)]
pub fn after_at(
    alloc: Global,
    separator: Separator,
    parts: Sequence<Part<Expression>>,
    side: Boxed<Side>,
    byte: u8,
) -> Mem<Option<State>>
    requires { byte < 128 }
    ensures { IfOk result (λ next. next ≡ machine.after_at separator parts side byte) }
{
    if is_blank(byte) {
        return Ok(Some(State::AtSign {
            separator,
            parts,
            side,
        }));
    }
    if !is_letter(byte) {
        return Ok(None);
    }
    let word = Word::new(alloc, byte)?;
    Ok(Some(State::InAttribute {
        separator,
        word,
        parts,
        side,
    }))
}

#[inline(always)]
pub fn attribute_of(
    separator: Separator,
    word: Word,
    parts: Sequence<Part<Expression>>,
) -> Operand<Expression>
    ensures { result ≡ trees.attribute_of separator word parts }
{
    let attribute = Attribute {
        separator,
        name: word.into_text(),
    };
    Operand::Path(Path {
        parts,
        attribute: Some(attribute),
    })
}
