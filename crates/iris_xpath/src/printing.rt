//! The printed form of a query.
ghost use Rattle.std.specs.Prelude.{◌≡◌, [], ◌∷◌, ◌++◌, map, IfOk, OnOk, string_bytes};
ghost use Rattle.std.specs.Fmt.{signed_decimal};
ghost use Rattle.iris_xpath.specs.Printed as form;
ghost use Rattle.iris_xpath.specs.Again.{ReadsAgain};

use crate::expression::{Comparison, Expression, NameTest, Operand, Part, Path, Separator, Step};
use crate::query::Query;
use iris_tree::{Mem, Sequence, Text};
use std::alloc::Global;

/// The one printed form of the query.
pub fn print(alloc: Global, query: &Query) -> Mem<Text>
    ensures text { IfOk result (λ text. text ≡ form.printed query.now) }
    ensures again { ReadsAgain query.now }
{
    let mut out = String::new(alloc);
    for step in query.steps() {
        write_separator(&mut out, step.separator)?;
        write_step(&mut out, step)?;
    }
    Ok(Text::from_string(out))
}

fn write_separator(out: &mut String, separator: Separator) -> Mem<()>
    ensures { OnOk result (string_bytes out.new ≡ string_bytes out.old ++ form.sep_shown separator) }
{
    out.push_str(separator_text(separator))?;
    Ok(())
}

#[cycle(writing)]
fn write_step(out: &mut String, step: &Step<Expression>) -> Mem<()>
    ensures { OnOk result (string_bytes out.new ≡ string_bytes out.old ++ form.step_text form.predicates_text step.now) }
{
    write_test(out, &step.test)?;
    write_predicates(out, &step.predicates)
}

fn write_test(out: &mut String, test: &NameTest) -> Mem<()>
    ensures { OnOk result (string_bytes out.new ≡ string_bytes out.old ++ form.test_shown test.now) }
{
    match test {
        NameTest::Any => out.push_str("*")?,
        NameTest::Kind(kind) => out.push_str(kind.as_str())?,
        NameTest::Tag(tag) => out.push_str(tag.as_str())?,
    }
    Ok(())
}

#[cycle(writing)]
fn write_predicates(out: &mut String, predicates: &Sequence<Expression>) -> Mem<()>
    ensures { OnOk result (string_bytes out.new ≡ string_bytes out.old ++ form.predicates_text predicates.now) }
{
    for predicate in predicates.as_slice() {
        out.push_str("[")?;
        write_expression(out, predicate)?;
        out.push_str("]")?;
    }
    Ok(())
}

#[cycle(writing)]
fn write_expression(out: &mut String, expression: &Expression) -> Mem<()>
    ensures { OnOk result (string_bytes out.new ≡ string_bytes out.old ++ (form.shown expression.now).text) }
{
    match expression {
        Expression::Or(parts) => write_or(out, parts),
        Expression::And(parts) => write_and(out, parts),
        Expression::Not(inner) => {
            out.push_str("not(")?;
            write_expression(out, inner.get())?;
            out.push_str(")")?;
            Ok(())
        }
        Expression::Path(path) => write_path(out, path),
        Expression::Compare {
            left,
            comparison,
            right,
        } => {
            write_operand(out, left)?;
            out.push_str(sign(*comparison))?;
            write_operand(out, right)
        }
    }
}

#[cycle(writing)]
fn write_or(out: &mut String, parts: &Sequence<Expression>) -> Mem<()>
    ensures { OnOk result (string_bytes out.new ≡ string_bytes out.old ++ form.or_text (map form.shown parts.now)) }
{
    for (i, part) in parts.as_slice().iter().enumerate() {
        write_link(out, i, " or ")?;
        write_expression(out, part)?;
    }
    Ok(())
}

#[cycle(writing)]
fn write_and(out: &mut String, parts: &Sequence<Expression>) -> Mem<()>
    ensures { OnOk result (string_bytes out.new ≡ string_bytes out.old ++ form.and_text (map form.shown parts.now)) }
{
    for (i, part) in parts.as_slice().iter().enumerate() {
        write_link(out, i, " and ")?;
        write_in_and(out, part)?;
    }
    Ok(())
}

// What stands before the element of that index: nothing before the first.
fn write_link(out: &mut String, index: usize, link: &str) -> Mem<()>
    ensures { OnOk result (string_bytes out.new ≡ string_bytes out.old ++ form.link_at index link.now) }
{
    if index > 0 {
        out.push_str(link)?;
    }
    Ok(())
}

#[cycle(writing)]
fn write_in_and(out: &mut String, part: &Expression) -> Mem<()>
    ensures { OnOk result (string_bytes out.new ≡ string_bytes out.old ++ form.in_and (form.shown part.now)) }
{
    if is_or(part) {
        out.push_str("(")?;
        write_expression(out, part)?;
        out.push_str(")")?;
        Ok(())
    } else {
        write_expression(out, part)
    }
}

fn is_or(expression: &Expression) -> bool
    ensures { result ≡ (form.shown expression.now).is_or }
{
    matches!(expression, Expression::Or(_))
}

#[cycle(writing)]
fn write_operand(out: &mut String, operand: &Operand<Expression>) -> Mem<()>
    ensures { OnOk result (string_bytes out.new ≡ string_bytes out.old ++ form.operand_text form.predicates_text operand.now) }
{
    match operand {
        Operand::Path(path) => write_path(out, path),
        Operand::Literal(text) => write_literal(out, text.as_str()),
        Operand::Number(value) => write_number(out, *value),
    }
}

fn write_text(out: &mut String, text: &str) -> Mem<()>
    ensures { OnOk result (string_bytes out.new ≡ string_bytes out.old ++ text.now) }
{
    out.push_str(text)?;
    Ok(())
}

fn write_literal(out: &mut String, text: &str) -> Mem<()>
    ensures { OnOk result (string_bytes out.new ≡ string_bytes out.old ++ form.quoted text.now) }
{
    let quote = quote_of(text);
    out.push_str(quote)?;
    out.push_str(text)?;
    out.push_str(quote)?;
    Ok(())
}

fn quote_of(text: &str) -> &'static str
    ensures { result.now ≡ form.quote_of text.now ∷ [] }
{
    if text.as_bytes().contains(&b'\'') {
        "\""
    } else {
        "'"
    }
}

fn write_number(out: &mut String, value: i64) -> Mem<()>
    ensures { OnOk result (string_bytes out.new ≡ string_bytes out.old ++ signed_decimal value) }
{
    let alloc = *out.allocator();
    let digits = format!(in alloc; "{value}")?;
    out.push_str(digits.as_str())?;
    Ok(())
}

fn sign(comparison: Comparison) -> &'static str
    ensures { result.now ≡ form.sign_shown comparison }
{
    match comparison {
        Comparison::Equal => "=",
        Comparison::NotEqual => "!=",
        Comparison::Less => "<",
        Comparison::LessOrEqual => "<=",
        Comparison::Greater => ">",
        Comparison::GreaterOrEqual => ">=",
    }
}

#[cycle(writing)]
fn write_path(out: &mut String, path: &Path<Expression>) -> Mem<()>
    ensures { OnOk result (string_bytes out.new ≡ string_bytes out.old ++ form.path_text form.predicates_text path.now) }
{
    write_parts(out, &path.parts)?;
    write_attribute(out, path)
}

#[cycle(writing)]
fn write_parts(out: &mut String, parts: &Sequence<Part<Expression>>) -> Mem<()>
    ensures { OnOk result (string_bytes out.new ≡ string_bytes out.old ++ form.linked form.before_part (form.part_text form.predicates_text) parts.now) }
{
    for (i, part) in parts.as_slice().iter().enumerate() {
        write_link(out, i, before_part(part))?;
        write_part(out, part)?;
    }
    Ok(())
}

fn before_part(part: &Part<Expression>) -> &'static str
    ensures { result.now ≡ form.before_part part.now }
{
    match part {
        Part::Itself | Part::Parent => "/",
        Part::Step(step) => separator_text(step.separator),
    }
}

fn separator_text(separator: Separator) -> &'static str
    ensures { result.now ≡ form.sep_shown separator }
{
    match separator {
        Separator::Slash => "/",
        Separator::DoubleSlash => "//",
    }
}

// The separator before the attribute of the path.
fn before_attribute(path: &Path<Expression>, separator: Separator) -> &'static str
    ensures { result.now ≡ form.before_attribute path.now.parts separator }
{
    if path.parts.is_empty() {
        match separator {
            Separator::Slash => "",
            Separator::DoubleSlash => "//",
        }
    } else {
        separator_text(separator)
    }
}

fn write_attribute(out: &mut String, path: &Path<Expression>) -> Mem<()>
    ensures { OnOk result (string_bytes out.new ≡ string_bytes out.old ++ form.attribute_text path.now.parts path.now.attribute) }
{
    if let Some(attribute) = &path.attribute {
        out.push_str(before_attribute(path, attribute.separator))?;
        out.push_str("@")?;
        out.push_str(attribute.name.as_str())?;
    }
    Ok(())
}

#[cycle(writing)]
fn write_part(out: &mut String, part: &Part<Expression>) -> Mem<()>
    ensures { OnOk result (string_bytes out.new ≡ string_bytes out.old ++ form.part_text form.predicates_text part.now) }
{
    match part {
        Part::Itself => write_text(out, "."),
        Part::Parent => write_text(out, ".."),
        Part::Step(step) => write_step(out, step),
    }
}
