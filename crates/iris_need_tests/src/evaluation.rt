//! The calls of `iris_need`, each once: a city with a hood of two blocks, of which the view lacks the second.

use iris_fragment::{Full, Level, Piece};
use iris_need::{Need, Start, View, answer_of, missing, support};
use iris_tree::{Attrs, Kind, Label, Local, Sequence, State, Tag, Text, name_text, read_name};
use iris_xpath::{Query, parse};
use std::alloc::Global;
use std::test::Fail;

// The label with this text.
fn label(alloc: Global, text: &str) -> Result<Label, Fail> {
    let name = read_name(alloc, text)?;
    match name.as_slice().first() {
        Some(label) => Ok(*label),
        None => Err(Fail::new("no label")),
    }
}

// A full piece of the node with this name, whose one attribute is `free`.
fn piece(alloc: Global, name: &str, below: &[&str], free: &str) -> Result<Piece, Fail> {
    let mut ids = Sequence::new(alloc);
    for text in below {
        ids.push(label(alloc, text)?)?;
    }
    let mut attrs = Attrs::new(alloc);
    attrs.insert(Tag::new("free")?, Text::of(alloc, free)?)?;
    let plain = Sequence::new(alloc);
    let local = Local { attrs, plain };
    let name = read_name(alloc, name)?;
    let full = Some(Full {
        local,
        version: 0,
        stamp: 0,
    });
    Ok(Piece { name, ids, full })
}

// All but the second block.
fn held(alloc: Global) -> Result<View, Fail> {
    let mut view = View::new(alloc);
    view.add(piece(alloc, "block-1.hood-n.city-o", &[], "yes")?)?;
    view.add(piece(alloc, "city-o", &["hood-n"], "")?)?;
    view.add(piece(alloc, "hood-n.city-o", &["block-1", "block-2"], "")?)?;
    Ok(view)
}

fn free_blocks(alloc: Global) -> Result<Query, Fail> {
    let kinds = [Kind::new("city")?, Kind::new("hood")?, Kind::new("block")?];
    let text = "/city[@id='o']/hood/block[@free='yes']";
    Ok(parse(alloc, text, &kinds)?)
}

// Whether the needs have these names, levels and first states.
fn are(
    alloc: Global,
    needs: &[Need],
    wanted: &[(&str, Level, Option<State>)],
) -> Result<bool, Fail> {
    for (need, (name, level, state)) in needs.iter().zip(wanted) {
        let named = name_text(alloc, &need.name)?;
        let first = need.states.as_slice().first().copied();
        if named.as_str() != *name || need.level != *level || first != *state {
            return Ok(false);
        }
    }
    Ok(needs.len() == wanted.len())
}

#[test]
fn lacks_a_block_and_rests_on_the_rest(rt: HostRuntime) -> Result<(), Fail> {
    let alloc = rt.alloc();
    let query = free_blocks(alloc)?;
    let view = held(alloc)?;
    let start = Start::from_document(alloc, label(alloc, "city-o")?)?;
    let lacked = [("block-2.hood-n.city-o", Level::Full, Some(State::Test(2)))];
    let needs = missing(alloc, &query, &start.copy()?, &view)?;
    assert!(rt; are(alloc, &needs, &lacked)?);
    let needs = support(alloc, &query, &start, &view.copy()?)?;
    let held = [
        ("city-o", Level::Ids, None),
        ("hood-n.city-o", Level::Ids, None),
        ("block-1.hood-n.city-o", Level::Full, None),
    ];
    assert!(rt; are(alloc, &needs, &held)?);
    Ok(())
}

#[test]
fn answers_an_ask_of_a_block(rt: HostRuntime) -> Result<(), Fail> {
    let alloc = rt.alloc();
    let mut states = Sequence::new(alloc);
    states.push(State::Test(2))?;
    let start = Start {
        top: label(alloc, "city-o")?,
        name: read_name(alloc, "block-2.hood-n.city-o")?,
        level: Level::Full,
        states,
    };
    let needs = missing(alloc, &free_blocks(alloc)?, &start, &held(alloc)?)?;
    let lacked = [("block-2.hood-n.city-o", Level::Full, Some(State::Test(2)))];
    assert!(rt; are(alloc, &needs, &lacked)?);
    let Some(need) = needs.first() else {
        return Err(Fail::new("nothing is missing"));
    };
    assert!(rt; are(alloc, &[need.copy()?], &lacked)?);
    Ok(())
}

#[test]
fn answers_where_nothing_is_missing(rt: HostRuntime) -> Result<(), Fail> {
    let alloc = rt.alloc();
    let query = free_blocks(alloc)?;
    let top = label(alloc, "city-o")?;
    let mut view = held(alloc)?;
    view.add(piece(alloc, "block-2.hood-n.city-o", &[], "no")?)?;
    let needs = missing(alloc, &query, &Start::from_document(alloc, top)?, &view)?;
    if !needs.is_empty() {
        return Err(Fail::new("something is missing"));
    }
    let items = answer_of(alloc, &query, &top, &view)?;
    assert_eq!(rt; items.len(), 1);
    for item in &items {
        assert_eq!(rt;
            name_text(alloc, &item.at)?.as_str(),
            "block-1.hood-n.city-o"
        );
    }
    Ok(())
}

#[test]
fn the_first_piece_of_a_name_stays(rt: HostRuntime) -> Result<(), Fail> {
    let alloc = rt.alloc();
    let mut view = held(alloc)?;
    view.add(piece(alloc, "city-o", &[], "yes")?)?;
    let Some(piece) = view.get(&read_name(alloc, "city-o")?) else {
        return Err(Fail::new("no piece"));
    };
    assert_eq!(rt; piece.ids.len(), 1);
    assert_eq!(rt; view.pieces()?.len(), 3);
    Ok(())
}
