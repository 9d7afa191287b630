//! Copies of the parts of a syntax tree. Each equals what it copies.
ghost use Rattle.std.specs.Prelude.{◌≡◌, IfOk};

use crate::expression::{Attribute, Expression, NameTest, Operand, Part, Path, Step};
use iris_tree::{Mem, Sequence};
use sqlite_items::Boxed;
use std::alloc::Global;

impl NameTest {
    /// A copy, by the same allocator.
    pub fn copy(&self) -> Mem<NameTest>
        ensures { IfOk result (λ copy. copy ≡ self.now) }
    {
        match self {
            NameTest::Any => Ok(NameTest::Any),
            NameTest::Kind(kind) => Ok(NameTest::Kind(*kind)),
            NameTest::Tag(tag) => Ok(NameTest::Tag(tag.copy()?)),
        }
    }
}

impl Attribute {
    /// A copy, by the same allocator.
    pub fn copy(&self) -> Mem<Attribute>
        ensures { IfOk result (λ copy. copy ≡ self.now) }
    {
        Ok(Attribute {
            separator: self.separator,
            name: self.name.copy()?,
        })
    }
}

impl Expression {
    /// A copy.
    #[cycle(copying)]
    pub fn copy(&self, alloc: Global) -> Mem<Expression>
        ensures { IfOk result (λ copy. copy ≡ self.now) }
    {
        match self {
            Expression::Or(parts) => Ok(Expression::Or(copy_all(parts, alloc)?)),
            Expression::And(parts) => Ok(Expression::And(copy_all(parts, alloc)?)),
            Expression::Not(inner) => Ok(Expression::Not(Boxed::new(
                alloc,
                inner.get().copy(alloc)?,
            )?)),
            Expression::Path(path) => Ok(Expression::Path(path.copy(alloc)?)),
            Expression::Compare {
                left,
                comparison,
                right,
            } => Ok(Expression::Compare {
                left: left.copy(alloc)?,
                comparison: *comparison,
                right: right.copy(alloc)?,
            }),
        }
    }
}

// A copy of each, in their order.
#[cycle(copying)]
fn copy_all(expressions: &Sequence<Expression>, alloc: Global) -> Mem<Sequence<Expression>>
    ensures { IfOk result (λ copy. copy ≡ expressions.now) }
{
    let mut copies = Sequence::new(alloc);
    for expression in expressions.as_slice() {
        copies.push(expression.copy(alloc)?)?;
    }
    Ok(copies)
}

impl Step<Expression> {
    /// A copy.
    #[cycle(copying)]
    pub fn copy(&self, alloc: Global) -> Mem<Step<Expression>>
        ensures { IfOk result (λ copy. copy ≡ self.now) }
    {
        Ok(Step {
            separator: self.separator,
            test: self.test.copy()?,
            predicates: copy_all(&self.predicates, alloc)?,
        })
    }
}

impl Part<Expression> {
    /// A copy.
    #[cycle(copying)]
    pub fn copy(&self, alloc: Global) -> Mem<Part<Expression>>
        ensures { IfOk result (λ copy. copy ≡ self.now) }
    {
        match self {
            Part::Itself => Ok(Part::Itself),
            Part::Parent => Ok(Part::Parent),
            Part::Step(step) => Ok(Part::Step(step.copy(alloc)?)),
        }
    }
}

impl Path<Expression> {
    /// A copy.
    #[cycle(copying)]
    pub fn copy(&self, alloc: Global) -> Mem<Path<Expression>>
        ensures { IfOk result (λ copy. copy ≡ self.now) }
    {
        let mut parts = Sequence::new(alloc);
        for part in self.parts.as_slice() {
            parts.push(part.copy(alloc)?)?;
        }
        let attribute = match &self.attribute {
            Some(attribute) => Some(attribute.copy()?),
            None => None,
        };
        Ok(Path { parts, attribute })
    }
}

impl Operand<Expression> {
    /// A copy.
    #[cycle(copying)]
    pub fn copy(&self, alloc: Global) -> Mem<Operand<Expression>>
        ensures { IfOk result (λ copy. copy ≡ self.now) }
    {
        match self {
            Operand::Path(path) => Ok(Operand::Path(path.copy(alloc)?)),
            Operand::Literal(text) => Ok(Operand::Literal(text.copy()?)),
            Operand::Number(value) => Ok(Operand::Number(*value)),
        }
    }
}
