//! The syntax tree of a query: its steps, and the expressions in their predicates.
ghost use Rattle.std.specs.Prelude.{◌≡◌, None, Some, MatchOption, option_copied};
ghost use Rattle.iris_xpath.specs.ThinQuery.{kind_of, own_name, attribute_name, literal_text, equality_of};

use iris_tree::{Kind, Sequence, Text};
use sqlite_items::Boxed;

/// What stands before a step, or before the attribute at the end of a path (XPath 1.0, 2.5).
#[derive(Clone, Copy, Debug, PartialEq, Eq)]
pub enum Separator {
    /// `/`: a step goes to what is right below.
    Slash,
    /// `//`: a step goes to all that is below.
    DoubleSlash,
}

/// Which elements a step goes to (XPath 1.0, 2.3).
#[derive(Debug, Drop)]
pub enum NameTest {
    /// `*`: every element.
    Any,
    /// The nodes of that kind.
    Kind(Kind),
    /// The plain elements of that tag. It is a word, which may be longer than any tag.
    Tag(Text),
}

/// A step, of the main path or of one in a predicate: where it goes, to which elements, and what is to
/// hold of them.
#[derive(Debug, Drop)]
pub struct Step<E> {
    pub separator: Separator,
    pub test: NameTest,
    /// The expressions of its predicates, in the order of the text.
    pub predicates: Sequence<E>,
}

/// A part of a path in a predicate.
#[derive(Debug, Drop)]
pub enum Part<E> {
    /// `.`
    Itself,
    /// `..`
    Parent,
    /// The first part of a path has the separator `Slash`.
    Step(Step<E>),
}

/// The attribute at the end of a path.
#[derive(Debug, Drop)]
pub struct Attribute {
    /// `Slash` where it is the whole path.
    pub separator: Separator,
    /// A word, which may be longer than the name of any attribute.
    pub name: Text,
}

/// A path that begins at the place under test (XPath 1.0, 2).
#[derive(Debug, Drop)]
pub struct Path<E> {
    pub parts: Sequence<Part<E>>,
    pub attribute: Option<Attribute>,
}

/// How two values are compared (XPath 1.0, 3.4).
#[derive(Clone, Copy, Debug, PartialEq, Eq)]
pub enum Comparison {
    Equal,
    NotEqual,
    Less,
    LessOrEqual,
    Greater,
    GreaterOrEqual,
}

/// A side of a comparison.
#[derive(Debug, Drop)]
pub enum Operand<E> {
    Path(Path<E>),
    /// A text in quotes.
    Literal(Text),
    /// A whole number of up to `MAX_DIGITS` digits.
    Number(i64),
}

/// What a predicate says of the place under test (XPath 1.0, 2.4 and 3.3 to 3.4).
#[derive(Debug, Drop)]
pub enum Expression {
    /// At least one of them holds. There are two or more, and none is an `Or` itself.
    Or(Sequence<Expression>),
    /// Each of them holds. There are two or more, and none is an `And` itself.
    And(Sequence<Expression>),
    Not(Boxed<Expression>),
    /// The path selects something.
    Path(Path<Expression>),
    /// Some value of the left and some value of the right compare so.
    Compare {
        left: Operand<Expression>,
        comparison: Comparison,
        right: Operand<Expression>,
    },
}

impl Step<Expression> {
    /// The kind of the nodes that the step goes to, where its test is a kind.
    pub fn kind(&self) -> Option<&Kind>
        ensures { option_copied result ≡ kind_of self.now.test }
    {
        match &self.test {
            NameTest::Kind(kind) => Some(kind),
            NameTest::Any | NameTest::Tag(_) => None,
        }
    }
}

impl Path<Expression> {
    // The name, where the path is an attribute of the place itself.
    fn as_attribute(&self) -> Option<&str>
        ensures { option_copied result ≡ own_name self.now.parts self.now.attribute }
    {
        if !self.parts.is_empty() {
            return None;
        }
        match &self.attribute {
            Some(attribute) => match attribute.separator {
                Separator::Slash => Some(attribute.name.as_str()),
                Separator::DoubleSlash => None,
            },
            None => None,
        }
    }
}

impl Operand<Expression> {
    // The name, where it is an attribute of the place itself.
    fn as_attribute(&self) -> Option<&str>
        ensures { option_copied result ≡ attribute_name self.now }
    {
        match self {
            Operand::Path(path) => path.as_attribute(),
            Operand::Literal(_) | Operand::Number(_) => None,
        }
    }

    // The text, where it is a literal.
    fn as_literal(&self) -> Option<&str>
        ensures { option_copied result ≡ literal_text self.now }
    {
        match self {
            Operand::Literal(text) => Some(text.as_str()),
            Operand::Path(_) | Operand::Number(_) => None,
        }
    }
}

impl Expression {
    /// The name and the value, where the expression is `@name='value'`: an attribute of the place under
    /// test, and the text that it is to equal.
    pub fn as_equality(&self) -> Option<(&str, &str)>
        ensures { MatchOption result (equality_of self.now ≡ None) (λ r. equality_of self.now ≡ Some (record { name = r.0.now; value = r.1.now })) }
    {
        match self {
            Expression::Compare {
                left,
                comparison: Comparison::Equal,
                right,
            } => Some((left.as_attribute()?, right.as_literal()?)),
            _ => None,
        }
    }
}
