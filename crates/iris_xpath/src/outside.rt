//! Which part of XPath 1.0 stands where no query goes on.

ghost use Rattle.std.specs.Prelude.{◌≡◌, option_copied};
ghost use Rattle.iris_xpath.specs.Outside as outside;

use crate::bytes::{is_digit, is_word_byte};
use crate::error::OutsidePart;
use crate::expression::{Expression, NameTest, Operand, Separator, Step};
use crate::state::{Link, Side, Spot, State};

/// How an operand ends.
#[derive(Clone, Copy)]
pub enum Ending {
    /// In a word, the name of a step.
    Word,
    /// In an attribute.
    Attribute,
    /// In a digit.
    Digit,
    /// In a number and a blank.
    Number,
    Literal,
    Other,
}

/// What stands before the byte where no query goes on, blanks passed over.
#[derive(Clone, Copy)]
pub enum Last {
    /// A step of the main path.
    MainStep { is_word: bool },
    /// An operand, the right side of a comparison or not.
    Operand { ending: Ending, is_right: bool },
    /// A unit in parentheses.
    Group,
    /// A separator of the main path.
    MainSeparator,
    /// `//` of a path in a predicate.
    PartDoubleSlash,
    /// What stands before a unit.
    UnitBegins,
    /// The sign of a comparison.
    RightBegins,
    AtSign,
    Minus,
    Other,
}

impl Last {
    /// What was read last, in that state.
    pub fn of(state: &State) -> Last
        ensures { result ≡ outside.last_of state.now }
    {
        match state {
            State::Slash { spot } => match spot {
                Spot::Main { .. } => Last::MainSeparator,
                Spot::Part { .. } => Last::Other,
            },
            State::Separated { separator, spot } => match spot {
                Spot::Main { .. } => Last::MainSeparator,
                Spot::Part { .. } => match separator {
                    Separator::Slash => Last::Other,
                    Separator::DoubleSlash => Last::PartDoubleSlash,
                },
            },
            State::InWord { spot, .. } => after_step(true, spot),
            State::AfterStep { step, spot } => after_step(is_word(step.get()), spot),
            State::Unit { .. } => Last::UnitBegins,
            State::Dot { side, .. } | State::AfterDots { side, .. } => {
                after_operand(Ending::Other, side.get())
            }
            State::AtSign { .. } => Last::AtSign,
            State::InAttribute { side, .. } => after_operand(Ending::Attribute, side.get()),
            State::AfterOperand { operand, side } => match operand.get() {
                Operand::Path(_) => after_operand(Ending::Attribute, side.get()),
                Operand::Literal(_) => after_operand(Ending::Literal, side.get()),
                Operand::Number(_) => after_operand(Ending::Number, side.get()),
            },
            State::Minus { .. } => Last::Minus,
            State::InDigits { side, .. } => after_operand(Ending::Digit, side.get()),
            State::Sign { .. } | State::Right { .. } => Last::RightBegins,
            State::AfterGroup { .. } => Last::Group,
            State::Link { link, .. } => match link {
                Link::And | Link::Or => Last::UnitBegins,
                Link::A | Link::An | Link::O => Last::Other,
            },
            State::Start | State::InLiteral { .. } | State::Bang { .. } => Last::Other,
        }
    }

    // After a word, the name of a step or of an attribute.
    fn is_word(self) -> bool
        ensures { result ≡ outside.after_word self }
    {
        match self {
            Last::MainStep { is_word } => is_word,
            Last::Operand { ending, .. } => matches!(ending, Ending::Word | Ending::Attribute),
            _ => false,
        }
    }
}

fn after_step(is_word: bool, spot: &Spot) -> Last
    ensures { result ≡ outside.after_step is_word spot.now }
{
    match spot {
        Spot::Main { .. } => Last::MainStep { is_word },
        Spot::Part { side, .. } => {
            after_operand(
                if is_word { Ending::Word } else { Ending::Other },
                side.get(),
            )
        }
    }
}

fn after_operand(ending: Ending, side: &Side) -> Last
    ensures { result ≡ outside.after_operand ending side.now }
{
    Last::Operand {
        ending,
        is_right: side.compared.is_some(),
    }
}

fn is_word(step: &Step<Expression>) -> bool
    ensures { result ≡ outside.is_word step.now }
{
    match &step.test {
        NameTest::Any => false,
        NameTest::Kind(_) | NameTest::Tag(_) => step.predicates.is_empty(),
    }
}

/// The part of XPath 1.0 that stands at the front of the rest, where no query goes on, after that byte: the
/// first that fits, in the order of `OutsidePart`.
pub fn what_at(last: Last, before: Option<u8>, rest: &[u8]) -> Option<OutsidePart>
    ensures { result ≡ outside.what_at last before rest.now }
{
    let byte = *rest.first()?;
    if byte == b'|' {
        Some(OutsidePart::Union)
    } else if byte == b'$' {
        Some(OutsidePart::Variable)
    } else if is_decimal(last, before, byte) {
        Some(OutsidePart::Decimal)
    } else if is_arithmetic(last, byte, rest) {
        Some(OutsidePart::Arithmetic)
    } else if byte == b':' && last.is_word() {
        Some(OutsidePart::Axis)
    } else if is_truth_value(last, byte, rest) {
        Some(OutsidePart::TruthValue)
    } else if byte == b'(' && last.is_word() {
        Some(OutsidePart::Function)
    } else if is_lone_number(last) && closes(byte, rest) {
        Some(OutsidePart::Position)
    } else if is_lone_literal(last) && closes(byte, rest) {
        Some(OutsidePart::Literal)
    } else {
        what_begins(last, byte)
    }
}

// The rows that tell what may not begin.
fn what_begins(last: Last, byte: u8) -> Option<OutsidePart>
    ensures { result ≡ outside.what_begins last byte }
{
    match last {
        Last::UnitBegins | Last::RightBegins => if byte == b'/' {
            Some(OutsidePart::Absolute)
        } else {
            None
        },
        Last::MainSeparator => {
            if byte == b'.' || byte == b'@' {
                Some(OutsidePart::MainPath)
            } else {
                None
            }
        }
        Last::PartDoubleSlash => if byte == b'.' {
            Some(OutsidePart::Dots)
        } else {
            None
        },
        Last::AtSign => if byte == b'*' {
            Some(OutsidePart::Attribute)
        } else {
            None
        },
        Last::Operand {
            ending: Ending::Attribute,
            ..
        } => {
            if byte == b'[' || byte == b'/' {
                Some(OutsidePart::Attribute)
            } else {
                None
            }
        }
        _ => None,
    }
}

// A point right after a digit, or a digit right after a point.
fn is_decimal(last: Last, before: Option<u8>, byte: u8) -> bool
    ensures { result ≡ outside.is_decimal last before byte }
{
    if byte == b'.' {
        return matches!(
            last,
            Last::Operand {
                ending: Ending::Digit,
                ..
            }
        );
    }
    is_digit(byte) && before == Some(b'.')
}

fn is_arithmetic(last: Last, byte: u8, rest: &[u8]) -> bool
    ensures { result ≡ outside.is_arithmetic last byte rest.now }
{
    match last {
        Last::Operand { .. } => {
            byte == b'+'
                || byte == b'-'
                || byte == b'*'
                || is_whole_word(rest, "div")
                || is_whole_word(rest, "mod")
        }
        Last::Minus => true,
        _ => false,
    }
}

fn is_truth_value(last: Last, byte: u8, rest: &[u8]) -> bool
    ensures { result ≡ outside.is_truth_value last byte rest.now }
{
    match last {
        Last::Group => is_sign(rest),
        Last::Operand { is_right, .. } => is_right && is_sign(rest),
        Last::RightBegins => byte == b'(',
        _ => false,
    }
}

fn is_lone_number(last: Last) -> bool
    ensures { result ≡ outside.is_lone_number last }
{
    match last {
        Last::Operand { ending, is_right } => {
            !is_right && matches!(ending, Ending::Digit | Ending::Number)
        }
        _ => false,
    }
}

fn is_lone_literal(last: Last) -> bool
    ensures { result ≡ outside.is_lone_literal last }
{
    match last {
        Last::Operand { ending, is_right } => !is_right && matches!(ending, Ending::Literal),
        _ => false,
    }
}

fn is_sign(rest: &[u8]) -> bool
    ensures { result ≡ outside.is_sign rest.now }
{
    match rest {
        [b'=', ..] => true,
        [b'<', ..] => true,
        [b'>', ..] => true,
        [b'!', b'=', ..] => true,
        _ => false,
    }
}

fn closes(byte: u8, rest: &[u8]) -> bool
    ensures { result ≡ outside.closes byte rest.now }
{
    byte == b']' || byte == b')' || is_whole_word(rest, "and") || is_whole_word(rest, "or")
}

// Whether that word stands at the front, and ends.
fn is_whole_word(rest: &[u8], word: &str) -> bool
    ensures { result ≡ outside.is_whole_word word.now rest.now }
{
    match rest.strip_prefix(word.as_bytes()) {
        Some(after) => match after {
            [next, ..] => !is_word_byte(*next),
            [] => true,
        },
        None => false,
    }
}
