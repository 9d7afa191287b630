//! Why a text is not read as a query.
ghost use Rattle.std.specs.Prelude.{◌≡◌};
ghost use Rattle.iris_xpath.specs.ErrorWords.{part_word, limit_word};

use iris_tree::Memory;
use std::alloc::AllocError;
use thiserror::Error;

/// A part of XPath 1.0 that is outside this query language.
#[derive(Clone, Copy, Debug, PartialEq, Eq, PartialOrd, Ord, Hash)]
pub enum OutsidePart {
    /// `|`, the union of two paths (XPath 1.0, 3.3).
    Union,
    /// `$`, before the name of a variable (3.1).
    Variable,
    /// A point behind a digit, or a digit behind a point (3.5, 3.7).
    Decimal,
    /// `+`, `-`, `*`, `div` or `mod` behind an operand, or what `-` negates that is no number (3.5).
    Arithmetic,
    /// `:` behind a word: an axis by its full name, or a prefix (2.2, 2.3).
    Axis,
    /// A sign of comparison behind a truth value, or a parenthesis behind such a sign (3.4).
    TruthValue,
    /// `(` behind a word: a call of a function other than `not` (3.2).
    Function,
    /// The end of a predicate, or of a part of it, that is only a number (2.4).
    Position,
    /// The end of a predicate, or of a part of it, that is only a text in quotes (3.7).
    Literal,
    /// `/` where a path of a predicate begins: a path from the top of the document (2).
    Absolute,
    /// `.` or `@` in the main path (2.5).
    MainPath,
    /// `.` or `..` behind `//` (2.5).
    Dots,
    /// `@*`, or a predicate or a further part behind an attribute (2.3, 2.5).
    Attribute,
}

impl OutsidePart {
    /// The word for it in lines and messages.
    pub fn word(self) -> &'static str
        ensures { result.now ≡ part_word self }
    {
        match self {
            OutsidePart::Union => "union",
            OutsidePart::Variable => "variable",
            OutsidePart::Decimal => "decimal",
            OutsidePart::Arithmetic => "arithmetic",
            OutsidePart::Axis => "axis",
            OutsidePart::TruthValue => "truth value",
            OutsidePart::Function => "function",
            OutsidePart::Position => "position",
            OutsidePart::Literal => "literal",
            OutsidePart::Absolute => "absolute",
            OutsidePart::MainPath => "main path",
            OutsidePart::Dots => "dots",
            OutsidePart::Attribute => "attribute",
        }
    }
}

/// A limit of queries.
#[derive(Clone, Copy, Debug, PartialEq, Eq, PartialOrd, Ord, Hash)]
pub enum QueryLimit {
    /// The bytes of the text, `MAX_QUERY_BYTES`.
    Bytes,
    /// The digits of a number, as they are written, `MAX_DIGITS`.
    Digits,
    /// The steps of the main path, `MAX_STEPS`.
    Steps,
    /// The parts of a path in a predicate, its attribute counted, `MAX_PATH_PARTS`.
    Path,
    /// The operands of all predicates together, `MAX_OPERANDS`.
    Operands,
    /// Parentheses in one another inside one predicate, those of `not` among them, `MAX_PARENTHESES`.
    Parens,
    /// The nesting depth, `MAX_NESTING`.
    Depth,
}

impl QueryLimit {
    /// The word for it in lines and messages.
    pub fn word(self) -> &'static str
        ensures { result.now ≡ limit_word self }
    {
        match self {
            QueryLimit::Bytes => "bytes",
            QueryLimit::Digits => "digits",
            QueryLimit::Steps => "steps",
            QueryLimit::Path => "path",
            QueryLimit::Operands => "operands",
            QueryLimit::Parens => "parens",
            QueryLimit::Depth => "depth",
        }
    }
}

/// Why a text is not read as a query. Offsets are in bytes, from 0.
#[derive(Clone, Copy, Debug, PartialEq, Eq, PartialOrd, Ord, Hash, Error)]
pub enum QueryError {
    /// The first `at` bytes of the text begin a query, and with the byte there, or the end of the text,
    /// they do not go on as one.
    #[error("the text does not go on as a query at byte {at}")]
    Syntax { at: usize },
    /// As `Syntax`, where what stands there is a part of XPath 1.0 that is outside this language.
    #[error("byte {at} begins a part of XPath 1.0 that queries do not have")]
    Outside { at: usize, what: OutsidePart },
    /// The text is of the grammar and passes this limit, the first in the order of the limits; or it is
    /// so long that it is not looked at.
    #[error("the query passes a limit")]
    TooLarge { which: QueryLimit },
    /// There was no memory.
    #[error("out of memory")]
    Memory,
}

impl From<Memory> for QueryError {
    ghost use Rattle.std.specs.Prelude.{◌≡◌};
    ghost use Rattle.iris_xpath.specs.declared.error.QueryError.TheVariants.{Memory};

    ghost from_gives = { λ _ e. e ≡ Memory };

    fn from(_error: Memory) -> QueryError {
        QueryError::Memory
    }
}

impl From<AllocError> for QueryError {
    ghost use Rattle.std.specs.Prelude.{◌≡◌};
    ghost use Rattle.iris_xpath.specs.declared.error.QueryError.TheVariants.{Memory};

    ghost from_gives = { λ _ e. e ≡ Memory };

    fn from(_error: AllocError) -> QueryError {
        QueryError::Memory
    }
}
