//! The calls of `iris_select`, each once: what queries select in a small document, and what they look into.

use iris_select::{evaluate, evaluate_items, items_at, select};
use iris_tree::{Attrs, Id, Kind, Label, Local, Plain, Sequence, Tag, Text, Tree, name_text};
use iris_xpath::parse;
use std::alloc::Global;
use std::test::Fail;

fn label(kind: &str, id: &str) -> Result<Label, Fail> {
    Ok(Label {
        kind: Kind::new(kind)?,
        id: Id::new(id)?,
    })
}

fn plain(alloc: Global, tag: &str, text: &str) -> Result<Plain, Fail> {
    Ok(Plain {
        tag: Tag::new(tag)?,
        attrs: Attrs::new(alloc),
        text: Text::new(alloc, text)?,
        kids: Sequence::new(alloc),
    })
}

// A space with an attribute and two plain elements, of which the first has one inside.
fn space(alloc: Global, id: &str, price: &str, note: &str) -> Result<Tree, Fail> {
    let mut local = Local::new(alloc);
    local
        .attrs
        .insert(Tag::new("price")?, Text::new(alloc, price)?)?;
    let mut sign = plain(alloc, "sign", "")?;
    sign.kids.push(plain(alloc, "note", note)?)?;
    local.plain.push(sign)?;
    local.plain.push(plain(alloc, "note", "7")?)?;
    Ok(Tree::new(alloc, label("space", id)?, local))
}

// A block with three spaces.
fn block(alloc: Global) -> Result<Tree, Fail> {
    let mut top = Tree::new(alloc, label("block", "1")?, Local::new(alloc));
    top.insert(space(alloc, "1", " 10 ", "x")?)?;
    top.insert(space(alloc, "2", "9", "y")?)?;
    top.insert(space(alloc, "3", "none", "7")?)?;
    Ok(top)
}

// The kinds of that document.
fn kinds() -> Result<[Kind; 2], Fail> {
    Ok([Kind::new("block")?, Kind::new("space")?])
}

// How many places a query selects, and the names of the nodes that it looks into.
fn told(alloc: Global, top: &Tree, text: &str) -> Result<String, Fail> {
    let found = evaluate(alloc, top, &parse(alloc, text, &kinds()?)?)?;
    let mut told = format!(in alloc; "{}", found.places.len())?;
    for name in &found.full {
        told.push(' ')?;
        told.push_str(name_text(alloc, name)?.as_str())?;
    }
    Ok(told)
}

#[test]
fn selects_and_looks(rt: HostRuntime) -> Result<(), Fail> {
    let alloc = rt.alloc();
    let top = block(alloc)?;
    for (text, wanted) in [
        ("/block/space[@id='2']", "1 space-2.block-1"),
        (
            "/block/space[@price!=9]",
            "2 space-1.block-1 space-2.block-1 space-3.block-1",
        ),
        (
            "//*//*",
            "12 block-1 space-1.block-1 space-2.block-1 space-3.block-1",
        ),
        (
            "/block/space[@id='1' and @id='2' or @price>9]",
            "1 space-1.block-1 space-2.block-1 space-3.block-1",
        ),
        (
            "//note[../../@id='3']",
            "1 block-1 space-1.block-1 space-2.block-1 space-3.block-1",
        ),
        (
            "/block[.//@id='3' and not(space/note=8)]",
            "1 block-1 space-1.block-1 space-2.block-1 space-3.block-1",
        ),
        ("/space", "0"),
    ] {
        assert_eq!(rt; told(alloc, &top, text)?.as_str(), wanted, "at {text}");
    }
    Ok(())
}

#[test]
fn items_at_selected_places(rt: HostRuntime) -> Result<(), Fail> {
    let alloc = rt.alloc();
    let top = block(alloc)?;
    let query = parse(alloc, "//note", &kinds()?)?;
    let items = items_at(alloc, &top, &select(alloc, &top, &query)?)?;
    let found = evaluate_items(alloc, &top, &query)?;
    assert_eq!(rt; (items.len(), found.items.len()), (6, 6));
    Ok(())
}
