//! The comparison of one evaluation over a part of a document with that over the whole.

use crate::parts::piece;
use anyhow::{Context, ensure};
use iris_fragment::Level;
use iris_json::write_items;
use iris_need::{Need, Start, View, answer_of, missing, support};
use iris_select::{answer, evaluate};
use iris_tree::{Label, Mem, Name, Tree};
use iris_xpath::Query;
use std::alloc::Global;

/// What was compared.
#[derive(Clone, Copy, Debug, Default)]
pub struct Tally {
    pub cases: u64,
    /// How many pieces were missing, in all rounds of all cases.
    pub missing: u64,
}

// How often pieces are added at most.
const MOST_ROUNDS: usize = 1_000;

// Adds what is missing to the view, until nothing is. Whether that was reached.
fn complete(
    alloc: Global,
    document: &Tree,
    query: &Query,
    start: &Start,
    view: &mut View,
    tally: &mut Tally,
) -> anyhow::Result<bool> {
    for _ in 0..MOST_ROUNDS {
        let needs = missing(alloc, query, start, view)?;
        if needs.is_empty() {
            return Ok(true);
        }
        for need in &needs {
            let node = document.find(&need.name).context("no node is missing")?;
            view.add(piece(alloc, node, need.name.copy()?, need.level)?)?;
            tally.missing = tally.missing.saturating_add(1);
        }
    }
    Ok(false)
}

// The names of the needs of level Full.
fn full_names(alloc: Global, needs: &[Need]) -> Mem<Vec<Name>> {
    let mut names = Vec::new(alloc);
    for need in needs {
        if need.level == Level::Full {
            names.push(need.name.copy()?)?;
        }
    }
    Ok(names)
}

/// Completes the view, and compares the answer and what it rests on with the answer over the whole document
/// and what that looks into.
pub fn compare(
    alloc: Global,
    document: &Tree,
    query: &Query,
    view: View,
    tally: &mut Tally,
) -> anyhow::Result<()> {
    let top: Label = *document.label();
    let start = Start::from_document(alloc, top)?;
    let mut view = view;
    let is_complete = complete(alloc, document, query, &start, &mut view, tally)?;
    ensure!(is_complete, "something is always missing");
    let needs = missing(alloc, query, &start, &view)?;
    ensure!(needs.is_empty(), "something is missing at last");
    let items = answer_of(alloc, query, &top, &view)?;
    let text = write_items(alloc, &items)?;
    ensure!(text == answer(alloc, document, query)?, "another answer");
    let rests_on = full_names(alloc, &support(alloc, query, &start, &view)?)?;
    let looked_into = evaluate(alloc, document, query)?.full;
    ensure!(rests_on == looked_into, "other names are looked into");
    tally.cases = tally.cases.saturating_add(1);
    Ok(())
}
