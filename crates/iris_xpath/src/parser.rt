//! Reads a query from its text.
ghost use Rattle.std.specs.Prelude.{◌≡◌, ◌≢◌, ℕ, ◌≤◌, ◌<◌, ◌-◌, max, length, take, List, true, [], ◌∷◌, ◌++◌, IfOk, IfErr, IfSome, MatchOption};
ghost use Rattle.iris_xpath.specs.Bytes as class;
ghost use Rattle.iris_xpath.specs.Trees as trees;
ghost use Rattle.iris_xpath.specs.Machine as machine;
ghost use Rattle.iris_xpath.specs.Machine.{IsBytewise, at};
ghost use Rattle.iris_xpath.specs.declared.state.State.{State};
ghost use Rattle.iris_xpath.specs.declared.state.Frame.{Frame};
ghost use Rattle.iris_xpath.specs.declared.expression.Operand.{Operand};
ghost use Rattle.iris_xpath.specs.Reading.{Goes, IsEquality, IsFree, Reached, ReadsOn, Traced};
ghost use Rattle.iris_xpath.specs.Refused.{Refused, IsAt, last_byte};
ghost use Rattle.iris_xpath.specs.Grammar.{Main};
ghost use Rattle.iris_xpath.specs.Spells.{Spells, Reads};
ghost use Rattle.iris_xpath.specs.Parens.{parens_of, parens_in};
ghost use Rattle.iris_xpath.specs.Outside as outside;
ghost use Rattle.iris_xpath.specs.Told.{Found, Told, Gives};
ghost use Rattle.iris_xpath.specs.Syntax.{Syntax};

use crate::bytes::{is_letter, is_quote};
use crate::error::{QueryError, QueryLimit};
use crate::expression::{Comparison, Expression, Operand, Separator, Step};
use crate::outside::{Last, what_at};
use crate::query::Query;
use crate::stack::Stack;
use crate::state::{Side, Spot, State};
use crate::steps::{attribute_of, step_of, test_of};
use crate::tally::limit_passed;
use crate::turn::turn;
use crate::units::with_predicate;
use crate::word::{Word, split_byte};
use iris_tree::{Kind, MAX_QUERY_BYTES, Mem, Sequence, Text};
use sqlite_items::Boxed;
use std::alloc::Global;

/// Reads a query, in abbreviated syntax (XPath 1.0, 2.5). A word of a step is a kind where it is one of
/// the `kinds`, and else a tag.
///
/// Of a text that is none, `Syntax` and `Outside` tell the least offset such that so many bytes begin a
/// query and one more do not. Of one that passes a limit, `TooLarge` tells the first, in the order of
/// `QueryLimit`.
pub fn parse(alloc: Global, text: &str, kinds: &[Kind]) -> Result<Query, QueryError>
    ensures found { IfOk result (λ q. Found (trees.named kinds.now) text.now q) }
    ensures told { IfErr result (λ e. Told (trees.named kinds.now) text.now e) }
    ensures only { (q : Syntax) → Found (trees.named kinds.now) text.now q → Gives q result }
    ensures once { (p q : Syntax) → Reads (trees.named kinds.now) text.now p → Reads (trees.named kinds.now) text.now q → p ≡ q }
{
    if text.len() > MAX_QUERY_BYTES {
        return Err(QueryError::TooLarge {
            which: QueryLimit::Bytes,
        });
    }
    let (steps, parens) = read(alloc, text, kinds)?;
    match limit_passed(steps.as_slice(), parens) {
        Some(which) => Err(QueryError::TooLarge { which }),
        None => Ok(Query::new(steps)),
    }
}

// The steps that the whole text is, and how deep parentheses are nested inside one predicate.
fn read(
    alloc: Global,
    text: &str,
    kinds: &[Kind],
) -> Result<(Sequence<Step<Expression>>, usize), QueryError>
    ensures found { IfOk result (λ r. (m : Main) × Spells (trees.named kinds.now) text.now r.0 m × (r.1 ≡ parens_of m)) }
    ensures refused { IfErr result (λ e. Refused (trees.named kinds.now) text.now e) }
{
    let mut stack = Stack::new(alloc);
    let mut state = State::Start;
    let mut rest = text;
    let mut parens: usize = 0;
    'bytes: while !rest.is_empty() {
        match advance(alloc, kinds, &mut stack, text, state, rest) {
            Ok((next, after)) => {
                state = next;
                parens = parens.max(stack.parens());
                match read_word(&mut state, after) {
                    Ok(after) => rest = after,
                    Err(_) => return Err(QueryError::Memory),
                }
            }
            Err(error) => return Err(error),
        }
    }
    match whole(alloc, kinds, state) {
        Ok(Some(steps)) => Ok((steps, parens)),
        Ok(None) => Err(QueryError::Syntax { at: text.len() }),
        Err(_) => Err(QueryError::Memory),
    }
}

// The next state, and what follows the bytes that lead there: one byte, the rest of a literal, or a
// predicate `[@name='value']`, which is the most frequent.
fn advance<'a>(
    alloc: Global,
    kinds: &[Kind],
    stack: &mut Stack,
    text: &str,
    state: State,
    rest: &'a str,
) -> Result<(State, &'a str), QueryError>
    requires reached { Reached (trees.named kinds.now) text.now state stack.now rest.now }
    requires some { rest.now ≢ [] }
    ensures ok { IfOk result (λ r. Reached (trees.named kinds.now) text.now r.0 stack.new r.1.now) }
    ensures traced { (d : ℕ) → Traced (trees.named kinds.now) text.now state stack.old rest.now d → IfOk result (λ r. Traced (trees.named kinds.now) text.now r.0 stack.new r.1.now (max d (parens_in stack.new))) }
    ensures shorter { IfOk result (λ r. length r.1.now < length rest.now) }
    ensures err { IfErr result (λ e. Refused (trees.named kinds.now) text.now e) }
{
    match state {
        State::InLiteral { quote, side } => match read_literal(alloc, quote, side, rest) {
            Ok(Some(read)) => Ok(read),
            Ok(None) => Err(QueryError::Syntax { at: text.len() }),
            Err(_) => Err(QueryError::Memory),
        },
        State::InWord {
            separator,
            word,
            spot,
        } => match split_equality(alloc, rest) {
            Ok(Some((predicate, after))) => {
                match with_equality(alloc, kinds, separator, word, spot, predicate) {
                    Ok(next) => Ok((next, after)),
                    Err(_) => Err(QueryError::Memory),
                }
            }
            Ok(None) => {
                let state = State::InWord {
                    separator,
                    word,
                    spot,
                };
                advance_byte(alloc, kinds, stack, text, state, rest)
            }
            Err(_) => Err(QueryError::Memory),
        },
        other => advance_byte(alloc, kinds, stack, text, other, rest),
    }
}

// The state after the name of a step and a predicate.
fn with_equality(
    alloc: Global,
    kinds: &[Kind],
    separator: Separator,
    word: Word,
    spot: Spot,
    predicate: Expression,
) -> Mem<State>
    ensures { IfOk result (λ next. next ≡ State.AfterStep (trees.with_predicate (trees.step_of separator (trees.named kinds.now word)) predicate) spot) }
{
    let step = step_of(alloc, separator, test_of(kinds, word));
    let step = Boxed::new(alloc, with_predicate(step, predicate)?)?;
    Ok(State::AfterStep { step, spot })
}

// The next state, and what follows the byte that leads there.
#[inline(always)]
fn advance_byte<'a>(
    alloc: Global,
    kinds: &[Kind],
    stack: &mut Stack,
    text: &str,
    state: State,
    rest: &'a str,
) -> Result<(State, &'a str), QueryError>
    requires bytewise { IsBytewise state }
    requires reached { Reached (trees.named kinds.now) text.now state stack.now rest.now }
    requires some { rest.now ≢ [] }
    ensures ok { IfOk result (λ r. Reached (trees.named kinds.now) text.now r.0 stack.new r.1.now) }
    ensures traced { (d : ℕ) → Traced (trees.named kinds.now) text.now state stack.old rest.now d → IfOk result (λ r. Traced (trees.named kinds.now) text.now r.0 stack.new r.1.now (max d (parens_in stack.new))) }
    ensures shorter { IfOk result (λ r. length r.1.now < length rest.now) }
    ensures err { IfErr result (λ e. Refused (trees.named kinds.now) text.now e) }
{
    let last = Last::of(&state);
    match read_byte(alloc, kinds, stack, state, rest) {
        Ok(Some(read)) => Ok(read),
        Ok(None) => Err(refusal(last, text, rest)),
        Err(_) => Err(QueryError::Memory),
    }
}

// The state after the byte at the front, and what follows it.
#[inline(always)]
fn read_byte<'a>(
    alloc: Global,
    kinds: &[Kind],
    stack: &mut Stack,
    state: State,
    rest: &'a str,
) -> Mem<Option<(State, &'a str)>>
    requires bytewise { IsBytewise state }
    ensures { IfOk result (λ r. Goes (trees.named kinds.now) (at state stack.old) rest.now r stack.new) }
{
    match split_byte(rest) {
        Some((byte, after)) => match turn(alloc, kinds, stack, state, byte)? {
            Some(next) => Ok(Some((next, after))),
            None => Ok(None),
        },
        None => {
            drop(state);
            Ok(None)
        }
    }
}

// Reads on to the end of the word in which the state is, and gives what follows it.
fn read_word<'a>(state: &mut State, text: &'a str) -> Mem<&'a str>
    ensures { IfOk result (λ rest. ReadsOn state.old text.now state.new rest.now) }
{
    match state {
        State::InWord { word, .. } => word.take(text),
        State::InAttribute { word, .. } => word.take(text),
        _ => Ok(text),
    }
}

// The state after the rest of a literal, and what follows it.
fn read_literal<'a>(
    alloc: Global,
    quote: u8,
    side: Boxed<Side>,
    rest: &'a str,
) -> Mem<Option<(State, &'a str)>>
    requires { class.is_quote quote ≡ true }
    ensures { IfOk result (λ r. MatchOption r (IsFree quote rest.now) (λ r. (v : List ℕ) × (rest.now ≡ v ++ quote ∷ r.1.now) × IsFree quote v × (r.0 ≡ State.AfterOperand (Operand.Literal v) side))) }
{
    let Some((value, after)) = split_quote(rest, quote) else {
        return Ok(None);
    };
    let operand = Operand::Literal(Text::from_string(String::from_str(alloc, value)?));
    let operand = Boxed::new(alloc, operand)?;
    Ok(Some((State::AfterOperand { operand, side }, after)))
}

// A predicate `[@name='value']` at the front, and what follows it.
fn split_equality<'a>(alloc: Global, text: &'a str) -> Mem<Option<(Expression, &'a str)>>
    ensures { IfOk result (λ r. IfSome r (λ r. IsEquality text.now r.0 r.1.now)) }
{
    let Some((first, rest)) = split_begin(text) else {
        return Ok(None);
    };
    let mut name = Word::new(alloc, first)?;
    let rest = name.take(rest)?;
    let Some((value, rest)) = split_value(rest) else {
        return Ok(None);
    };
    let predicate = Expression::Compare {
        left: attribute_of(Separator::Slash, name, Sequence::new(alloc)),
        comparison: Comparison::Equal,
        right: Operand::Literal(Text::from_string(String::from_str(alloc, value)?)),
    };
    Ok(Some((predicate, rest)))
}

// The letter after `[@` at the front, and what follows it.
fn split_begin(text: &str) -> Option<(u8, &str)>
    ensures { IfSome result (λ r. (text.now ≡ 91 ∷ 64 ∷ r.0 ∷ r.1.now) × (r.0 < 128) × (class.is_letter r.0 ≡ true)) }
{
    let (first, rest) = split_byte(strip(strip(text, b'[')?, b'@')?)?;
    if !is_letter(first) {
        return None;
    }
    Some((first, rest))
}

// The value in `='value']` at the front, with either quote, and what follows it.
fn split_value(text: &str) -> Option<(&str, &str)>
    ensures { IfSome result (λ r. (q : ℕ) × (text.now ≡ 61 ∷ q ∷ (r.0.now ++ q ∷ 93 ∷ r.1.now)) × (class.is_quote q ≡ true) × IsFree q r.0.now) }
{
    let (quote, rest) = split_byte(strip(text, b'=')?)?;
    if !is_quote(quote) {
        return None;
    }
    let (value, rest) = split_quote(rest, quote)?;
    Some((value, strip(rest, b']')?))
}

// What follows that byte at the front.
fn strip(text: &str, byte: u8) -> Option<&str>
    ensures { IfSome result (λ rest. text.now ≡ byte ∷ rest.now) }
{
    match split_byte(text) {
        Some((first, rest)) if first == byte => Some(rest),
        _ => None,
    }
}

// What stands before the first quote of that kind, and what follows it.
fn split_quote(text: &str, quote: u8) -> Option<(&str, &str)>
    requires { class.is_quote quote ≡ true }
    ensures { MatchOption result (IsFree quote text.now) (λ r. (text.now ≡ r.0.now ++ quote ∷ r.1.now) × IsFree quote r.0.now) }
{
    if quote == b'\'' {
        text.split_once('\'')
    } else {
        text.split_once('"')
    }
}

// Why no query goes on where the rest begins.
fn refusal(last: Last, text: &str, rest: &str) -> QueryError
    requires { length rest.now ≤ length text.now }
    ensures { IsAt result (length text.now - length rest.now) (outside.what_at last (last_byte (take (length text.now - length rest.now) text.now)) rest.now) }
{
    let at = text.len() - rest.len();
    let before = text.as_bytes()[..at].last().copied();
    match what_at(last, before, rest.as_bytes()) {
        Some(what) => QueryError::Outside { at, what },
        None => QueryError::Syntax { at },
    }
}

// The steps, where the text may end at the state.
fn whole(alloc: Global, kinds: &[Kind], state: State) -> Mem<Option<Sequence<Step<Expression>>>>
    ensures { IfOk result (λ r. (fs : List Frame) → r ≡ machine.accept (trees.named kinds.now) (at state fs)) }
{
    match state {
        State::InWord {
            separator,
            word,
            spot,
        } => {
            let step = step_of(alloc, separator, test_of(kinds, word));
            with_last(spot, step)
        }
        State::AfterStep { step, spot } => with_last(spot, step.into_inner()),
        other => {
            drop(other);
            Ok(None)
        }
    }
}

// The steps of the main path with one more.
fn with_last(spot: Spot, step: Step<Expression>) -> Mem<Option<Sequence<Step<Expression>>>>
    ensures { IfOk result (λ r. r ≡ machine.with_last spot step) }
{
    match spot {
        Spot::Main { mut steps } => {
            steps.push(step)?;
            Ok(Some(steps))
        }
        Spot::Part { .. } => Ok(None),
    }
}
