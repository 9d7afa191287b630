//! The states of the reader. What is large stands in a box, so that little is moved at each byte.

use crate::expression::{Comparison, Expression, Operand, Part, Separator, Step};
use crate::word::Word;
use iris_tree::Sequence;
use sqlite_items::Boxed;

/// What stands before a unit inside its bracket or parenthesis: the finished parts of the `or`, and the
/// finished parts of the `and` that is being read.
#[derive(Drop)]
pub struct Level {
    pub ors: Sequence<Expression>,
    pub ands: Sequence<Expression>,
}

/// The left side of a comparison and its sign.
#[derive(Drop)]
pub struct Compared {
    pub left: Operand<Expression>,
    pub comparison: Comparison,
}

/// Where an operand stands: the comparison of which it is the right side, if any, and what is before.
#[derive(Drop)]
pub struct Side {
    pub compared: Option<Compared>,
    pub level: Boxed<Level>,
}

/// Where a step stands: after steps of the main path, or after parts of a path in a predicate.
#[derive(Drop)]
pub enum Spot {
    Main {
        steps: Sequence<Step<Expression>>,
    },
    Part {
        parts: Sequence<Part<Expression>>,
        side: Boxed<Side>,
    },
}

/// What is open.
#[derive(Drop)]
pub enum Frame {
    /// `[`, after a step.
    Bracket {
        step: Boxed<Step<Expression>>,
        spot: Spot,
    },
    /// `(`, or `not(`.
    Paren {
        negated: bool,
        level: Boxed<Level>,
    },
}

/// How much of `and` or of `or` was read.
#[derive(Clone, Copy)]
pub enum Link {
    A,
    An,
    And,
    O,
    Or,
}

/// What was read last.
#[derive(Drop)]
pub enum State {
    /// Nothing.
    Start,
    /// A `/`, which a second may follow.
    Slash {
        spot: Spot,
    },
    /// A whole separator.
    Separated {
        separator: Separator,
        spot: Spot,
    },
    /// Bytes of a word, the name of a step.
    InWord {
        separator: Separator,
        word: Word,
        spot: Spot,
    },
    /// A step, which predicates may follow.
    AfterStep {
        step: Boxed<Step<Expression>>,
        spot: Spot,
    },
    /// A bracket, a parenthesis, `and` or `or`: a unit begins.
    Unit {
        level: Boxed<Level>,
    },
    /// A `.`, which a second may follow.
    Dot {
        parts: Sequence<Part<Expression>>,
        side: Boxed<Side>,
    },
    /// `.` or `..`, the last of the parts.
    AfterDots {
        parts: Sequence<Part<Expression>>,
        side: Boxed<Side>,
    },
    /// `@`.
    AtSign {
        separator: Separator,
        parts: Sequence<Part<Expression>>,
        side: Boxed<Side>,
    },
    /// Bytes of a word, the name of an attribute.
    InAttribute {
        separator: Separator,
        word: Word,
        parts: Sequence<Part<Expression>>,
        side: Boxed<Side>,
    },
    /// An operand.
    AfterOperand {
        operand: Boxed<Operand<Expression>>,
        side: Boxed<Side>,
    },
    /// The quote that begins a literal.
    InLiteral {
        quote: u8,
        side: Boxed<Side>,
    },
    /// `-`.
    Minus {
        side: Boxed<Side>,
    },
    /// Digits of a number.
    InDigits {
        negative: bool,
        digits: Word,
        side: Boxed<Side>,
    },
    /// An operand and `!`.
    Bang {
        left: Boxed<Operand<Expression>>,
        level: Boxed<Level>,
    },
    /// An operand and `<` or `>`, which `=` may follow.
    Sign {
        compared: Boxed<Compared>,
        level: Boxed<Level>,
    },
    /// An operand and a sign: the right side begins.
    Right {
        side: Boxed<Side>,
    },
    /// A unit in parentheses.
    AfterGroup {
        unit: Boxed<Expression>,
        level: Boxed<Level>,
    },
    /// A unit, and the letters of a link.
    Link {
        link: Link,
        unit: Boxed<Expression>,
        level: Boxed<Level>,
    },
}
