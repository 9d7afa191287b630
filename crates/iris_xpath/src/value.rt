//! Values of expressions, and how they compare (XPath 1.0, 3.4).
ghost use Rattle.std.specs.Prelude.{◌≡◌, map};
ghost use Rattle.std.specs.List.{list_any};
ghost use Rattle.iris_xpath.specs.Meaning.{as_number, are_equal, compare, numbers_compare};
ghost use Rattle.iris_xpath.specs.Values.{value_of};

use crate::expression::Comparison;
use crate::number::number_of;

/// A value: a text, or a number as the query writes it.
#[derive(Clone, Copy)]
pub enum Value<'a> {
    Text(&'a str),
    Number(i64),
}

impl<'a> Value<'a> {
    // The number that it is.
    fn number(self) -> Option<i64>
        ensures { result ≡ as_number (value_of self.entry) }
    {
        match self {
            Value::Text(text) => number_of(text),
            Value::Number(number) => Some(number),
        }
    }

    // Whether they are equal: as texts, and as numbers where a side is a number of the query.
    fn equals(self, other: Value<'a>) -> bool
        ensures { result ≡ are_equal (value_of self.entry) (value_of other.entry) }
    {
        match (self, other) {
            (Value::Text(left), Value::Text(right)) => left == right,
            _ => match (self.number(), other.number()) {
                (Some(left), Some(right)) => left == right,
                _ => false,
            },
        }
    }

    /// Whether the two compare so.
    pub fn compares(self, comparison: Comparison, other: Value<'a>) -> bool
        ensures { result ≡ compare comparison (value_of self.entry) (value_of other.entry) }
    {
        match comparison {
            Comparison::Equal => return self.equals(other),
            Comparison::NotEqual => return !self.equals(other),
            _ => {}
        }
        let (Some(left), Some(right)) = (self.number(), other.number()) else {
            return false;
        };
        match comparison {
            Comparison::Less => left < right,
            Comparison::LessOrEqual => left <= right,
            Comparison::Greater => left > right,
            _ => left >= right,
        }
    }
}

// Whether a value and some of these compare so.
fn compares_some(comparison: Comparison, value: Value, values: &[Value]) -> bool
    ensures { result ≡ list_any (compare comparison (value_of value.entry)) (map value_of values.now) }
{
    for other in values {
        if value.compares(comparison, *other) {
            return true;
        }
    }
    false
}

/// Whether some value of the one side and some of the other compare so.
pub fn some_compare(comparison: Comparison, left: &[Value], right: &[Value]) -> bool
    ensures { result ≡ list_any (λ u. list_any (compare comparison u) (map value_of right.now)) (map value_of left.now) }
{
    for value in left {
        if compares_some(comparison, *value, right) {
            return true;
        }
    }
    false
}
