//! Verdicts: what an evaluation decides.
ghost use Rattle.std.specs.Prelude.{◌≡◌, ◌≢◌, [], IfOk};
ghost use Rattle.iris_need.specs.Decided.{pieces_for};
ghost use Rattle.iris_need.specs.Needs.{from_document, missing_of, support_of};
ghost use Rattle.iris_gather.specs.Verdicts.{AreDetermined, IsVerdict, asks_of, rests_on};

use iris_need::{Need, Start, View, answer_of, missing, support};
use iris_tree::{Item, Mem, Sequence};
use iris_xpath::Query;
use std::alloc::Global;

/// What an evaluation decides over a view.
#[derive(Debug, Drop)]
pub enum Verdict {
    /// Nothing is missing.
    Done {
        /// What the evaluation rests on, in the order of names.
        support: Sequence<Need>,
        /// What the query selects, in the order of places, each once; empty where the start is not the
        /// document.
        items: Sequence<Item>,
    },
    /// Something is missing.
    Asks {
        /// What the evaluation rests on, in the order of names.
        support: Sequence<Need>,
        /// What is missing, in the order of names.
        missing: Sequence<Need>,
    },
}

// A copy of a list of needs, by the same allocator.
fn copy_needs(needs: &Sequence<Need>) -> Mem<Sequence<Need>>
    ensures { IfOk result (λ copy. copy ≡ needs.now) }
{
    let mut copy = Sequence::new(needs.allocator());
    for need in needs.as_slice() {
        copy.push(need.copy()?)?;
    }
    Ok(copy)
}

// A copy of a list of items, by the same allocator.
fn copy_items(items: &Sequence<Item>) -> Mem<Sequence<Item>>
    ensures { IfOk result (λ copy. copy ≡ items.now) }
{
    let mut copy = Sequence::new(items.allocator());
    for item in items.as_slice() {
        copy.push(item.copy()?)?;
    }
    Ok(copy)
}

impl Verdict {
    /// A copy, by the same allocator.
    pub fn copy(&self) -> Mem<Verdict>
        ensures { IfOk result (λ copy. copy ≡ self.now) }
    {
        Ok(match self {
            Verdict::Done { support, items } => Verdict::Done {
                support: copy_needs(support)?,
                items: copy_items(items)?,
            },
            Verdict::Asks { support, missing } => Verdict::Asks {
                support: copy_needs(support)?,
                missing: copy_needs(missing)?,
            },
        })
    }

    /// What the evaluation rests on, in the order of names.
    pub fn support(&self) -> &[Need]
        ensures { result.now ≡ rests_on self.now }
    {
        match self {
            Verdict::Done { support, .. } => support.as_slice(),
            Verdict::Asks { support, .. } => support.as_slice(),
        }
    }

    /// What is missing, in the order of names.
    pub fn asks(&self) -> &[Need]
        ensures { result.now ≡ asks_of self.now }
    {
        match self {
            Verdict::Done { .. } => &[],
            Verdict::Asks { missing, .. } => missing.as_slice(),
        }
    }
}

// What the query selects, where the start is the document; nothing from any other start.
fn items_of(alloc: Global, query: &Query, start: &Start, view: &View) -> Mem<Vec<Item>>
    requires whole { missing_of query.now start.now view.now ≡ [] }
    requires client { start.now.name ≡ [] → start.now ≡ from_document start.now.top }
    ensures document { IfOk result (λ items. start.now.name ≡ [] → AreDetermined query.now start.now.top (pieces_for view.now (support_of query.now start.now view.now)) items.items) }
    ensures node { IfOk result (λ items. start.now.name ≢ [] → items.items ≡ []) }
{
    if start.name.is_document() {
        return answer_of(alloc, query, &start.top, view);
    }
    Ok(Vec::new(alloc))
}

/// Evaluates a query from a start over a view. A start at the document is that of a client's query.
pub fn evaluate(alloc: Global, query: &Query, start: &Start, view: &View) -> Mem<Verdict>
    requires client { start.now.name ≡ [] → start.now ≡ from_document start.now.top }
    ensures { IfOk result (λ verdict. IsVerdict query.now start.now view.now verdict) }
{
    let support = Sequence::from_vec(support(alloc, query, start, view)?);
    let missing = missing(alloc, query, start, view)?;
    if !missing.is_empty() {
        let missing = Sequence::from_vec(missing);
        return Ok(Verdict::Asks { support, missing });
    }
    let items = Sequence::from_vec(items_of(alloc, query, start, view)?);
    Ok(Verdict::Done { support, items })
}
