//! Compares evaluations over parts of documents with evaluations over the whole.
//!
//! Standard input has city lines, each followed by lines of digits, a space and a query. A digit tells for
//! a node of the city, in the order of names, what a view has of it: 0 nothing, 1 its ids, 2 all. What is
//! missing for the query is added, again and again, and the answer is compared with that over the whole
//! document.
#![tactic(auto)]

mod compare;
mod parts;

use anyhow::{Context, ensure};
use compare::{Tally, compare};
use iris_json::{City, read_city};
use iris_xpath::parse;
use std::alloc::Global;
use std::io::{BufRead, BufReader};

// Compares the evaluations of one line in that city.
fn run(alloc: Global, city: &City, line: &str, tally: &mut Tally) -> anyhow::Result<()> {
    let (levels, text) = line.split_once(' ').context("no space")?;
    let query = parse(alloc, text, city.kinds.as_slice())?;
    let view = parts::view(alloc, &city.tree, levels.as_bytes())?;
    compare(alloc, &city.tree, &query, view, tally)
}

fn main(rt: HostRuntime) -> anyhow::Result<()> {
    let alloc = rt.alloc();
    let mut tally = Tally::default();
    let mut city = None;
    for line in BufReader::new(alloc, rt.reader())?.lines(alloc) {
        let line = line?;
        if line.starts_with('{') {
            city = Some(read_city(alloc, line.as_bytes())?);
            continue;
        }
        let city = city.as_ref().context("no city")?;
        run(alloc, city, &line, &mut tally).context(line.as_str())?;
    }
    ensure!(tally.cases > 0, "nothing to compare");
    println!(rt; "{} cases, {} pieces missing", tally.cases, tally.missing)?;
    Ok(())
}
