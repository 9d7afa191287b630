//! The calls of `iris_tree`, each once.

use iris_tree::{
    Attrs, Change, ChangeError, Element, Id, InsertError, Item, JsonText, Kind, Label, Local, Name,
    Plain, Sequence, Tag, Text, TextError, Tree, changes_len, changes_text,
};
use std::alloc::Global;
use std::str;
use std::test::Fail;

fn label(kind: &str, id: &str) -> Result<Label, TextError> {
    let kind = Kind::new(kind)?;
    let id = Id::new(id)?;
    Ok(Label { kind, id })
}

fn leaf(alloc: Global, label: Label) -> Tree {
    Tree::new(alloc, label, Local::new(alloc))
}

fn free(alloc: Global) -> Result<Attrs, TextError> {
    let mut attrs = Attrs::new(alloc);
    attrs.insert(Tag::new("free")?, Text::new(alloc, "no")?)?;
    Ok(attrs)
}

fn note(alloc: Global) -> Result<Plain, TextError> {
    Ok(Plain {
        tag: Tag::new("note")?,
        attrs: Attrs::new(alloc),
        text: Text::new(alloc, "x")?,
        kids: Sequence::new(alloc),
    })
}

#[test]
fn attributes(rt: HostRuntime) -> Result<(), Fail> {
    let mut attrs = free(rt.alloc())?;
    assert_eq!(rt; attrs.len(), 1);
    assert_eq!(rt; attrs.get("free"), Some("no"));
    assert_eq!(rt; attrs.as_slice().len(), 1);
    assert!(rt; attrs.copy()? == attrs);
    assert!(rt; attrs.remove(&Tag::new("free")?));
    assert!(rt; attrs.is_empty());
    Ok(())
}

#[test]
fn children(rt: HostRuntime) -> Result<(), Fail> {
    let alloc = rt.alloc();
    let top = label("city", "oakland")?;
    let north = label("hood", "north")?;
    let south = label("hood", "south")?;
    let children = vec![in alloc; leaf(alloc, south), leaf(alloc, north)]?;
    let Some(city) = Tree::with_children(top, Local::new(alloc), children) else {
        return Err(Fail::new("a city"));
    };
    let [first, _] = city.children() else {
        return Err(Fail::new("two children"));
    };
    assert_eq!(rt; first.label().id.as_str(), "north");
    Ok(())
}

#[test]
fn twins(rt: HostRuntime) -> Result<(), Fail> {
    let alloc = rt.alloc();
    let north = label("hood", "north")?;
    let mut city = leaf(alloc, label("city", "oakland")?);
    let first = city.insert(leaf(alloc, north));
    let second = city.insert(leaf(alloc, north));
    let found = city.child(&north).is_some();
    assert_eq!(rt; first.err(), None);
    assert_eq!(rt; second.err(), Some(InsertError::Twin));
    assert!(rt; found);
    Ok(())
}

#[test]
fn parts(rt: HostRuntime) -> Result<(), Fail> {
    let alloc = rt.alloc();
    let top = label("city", "oakland")?;
    let name = Name::document(alloc).child(top)?;
    let mut city = leaf(alloc, top);
    let local = Local {
        attrs: free(alloc)?,
        plain: Sequence::new(alloc),
    };
    assert!(rt; city.set_local(&name, local));
    let found = city.find(&name).map(|node| node.local().attrs.len());
    assert_eq!(rt; found, Some(1));
    Ok(())
}

#[test]
fn copies_an_item(rt: HostRuntime) -> Result<(), Fail> {
    let item = Item {
        at: Name::document(rt.alloc()),
        is: Element::Plain(note(rt.alloc())?),
    };
    let copy = item.copy()?;
    assert!(rt; copy.at.is_document());
    Ok(())
}

#[test]
fn copies_a_node(rt: HostRuntime) -> Result<(), Fail> {
    let top = label("city", "oakland")?;
    let copy = Element::Node(leaf(rt.alloc(), top)).copy()?;
    assert!(rt; matches!(&copy, Element::Node(node) if *node.label() == top));
    Ok(())
}

#[test]
fn texts(rt: HostRuntime) -> Result<(), Fail> {
    let mut out = JsonText::new(rt.alloc());
    free(rt.alloc())?.write(&mut out)?;
    out.number(u64::MAX)?;
    out.boolean(true)?;
    note(rt.alloc())?.write(&mut out)?;
    assert_eq!(rt;
        str::from_utf8(&out.into_bytes())?,
        "{\"free\":\"no\"},18446744073709551615,true,{\"attrs\":{},\"kids\":[],\"tag\":\"note\",\"text\":\"x\"}"
    );
    Ok(())
}

#[test]
fn changes(rt: HostRuntime) -> Result<(), Fail> {
    let alloc = rt.alloc();
    let name = Tag::new("free")?;
    let value = Text::new(alloc, "no\n")?;
    let mut changes = Sequence::new(alloc);
    changes.push(Change::Attr { name, value })?;
    let copy = changes.copy()?;
    assert_eq!(rt;
        str::from_utf8(&changes_text(alloc, copy.as_slice())?)?,
        "[[\"attr\",\"free\",\"no\\n\"]]"
    );
    assert_eq!(rt; changes_len(copy.as_slice()), 24);
    let local = Local::new(alloc).change(copy.as_slice())?;
    let text = "{\"attrs\":{\"free\":\"no\\n\"},\"plain\":[]}";
    assert_eq!(rt; str::from_utf8(&local.text()?)?, text);
    assert_eq!(rt; local.text_len(), text.len() as u64);
    Ok(())
}

#[test]
fn puts_an_element_in_the_place_of_two(rt: HostRuntime) -> Result<(), Fail> {
    let alloc = rt.alloc();
    let mut local = Local::new(alloc);
    local.plain.push(note(alloc)?)?;
    local.plain.push(note(alloc)?)?;
    let put = Change::Put {
        plain: note(alloc)?,
    };
    let changed = local.change(&[put])?;
    assert_eq!(rt; (changed.plain_count(), changed.plain_depth()), (1, 1));
    Ok(())
}

#[test]
fn refuses_an_id_inside_an_element(rt: HostRuntime) -> Result<(), Fail> {
    let mut plain = note(rt.alloc())?;
    plain
        .attrs
        .insert(Tag::new("id")?, Text::new(rt.alloc(), "x")?)?;
    let changed = Local::new(rt.alloc()).change(&[Change::Put { plain }]);
    assert!(rt; matches!(changed, Err(ChangeError::BadChange { at: 0 })));
    Ok(())
}

#[test]
fn errors(rt: HostRuntime) -> Result<(), Fail> {
    let alloc = rt.alloc();
    let absent = [Change::Drop {
        name: Tag::new("free")?,
    }];
    let Err(error) = Local::new(alloc).change(&absent) else {
        return Err(Fail::new("a refusal"));
    };
    assert_eq!(rt;
        format!(in alloc; "{error}, {}", InsertError::Twin)?.as_str(),
        "the change at 0 cannot be made, the node has a child with this label"
    );
    Ok(())
}
