//! Nodes of the city.

use iris_fragment::{Full, Piece};
use iris_tree::{Attrs, Label, Local, Name, Sequence, Tag, Text, read_name};
use std::alloc::Global;
use std::test::Fail;

// The label with this text.
pub(crate) fn label(alloc: Global, text: &str) -> Result<Label, Fail> {
    let name = read_name(alloc, text)?;
    match name.as_slice().first() {
        Some(label) => Ok(*label),
        None => Err(Fail::new("no label")),
    }
}

pub(crate) fn name(alloc: Global, text: &str) -> Result<Name, Fail> {
    Ok(read_name(alloc, text)?)
}

// A full piece of the node with this name, whose one attribute is `free`, stamped with that moment.
pub(crate) fn piece(
    alloc: Global,
    text: &str,
    below: &[&str],
    free: &str,
    stamp: u64,
) -> Result<Piece, Fail> {
    let mut ids = Sequence::new(alloc);
    for text in below {
        ids.push(label(alloc, text)?)?;
    }
    let mut attrs = Attrs::new(alloc);
    attrs.insert(Tag::new("free")?, Text::of(alloc, free)?)?;
    let plain = Sequence::new(alloc);
    let local = Local { attrs, plain };
    let full = Some(Full {
        local,
        version: 0,
        stamp,
    });
    let name = name(alloc, text)?;
    Ok(Piece { name, ids, full })
}
