//! The calls of `iris_fragment`, each once: in a city of one hood of one block, whose top node is owned.

use iris_fragment::{EvictError, Fragment, Full, Level, Piece, Status, look_ups, taking_in};
use iris_tree::{Attrs, Id, Kind, Label, Local, Name, Sequence, Tag, Text, TextError};
use std::alloc::Global;
use std::test::Fail;

fn label(kind: &str) -> Result<Label, TextError> {
    let kind = Kind::new(kind)?;
    let id = Id::new("1")?;
    Ok(Label { kind, id })
}

fn name_of(alloc: Global, kinds: &str) -> Result<Name, TextError> {
    let mut name = Name::document(alloc);
    for kind in kinds.split_whitespace() {
        name.push(label(kind)?)?;
    }
    Ok(name)
}

fn local(alloc: Global, free: &str) -> Result<Local, TextError> {
    let mut attrs = Attrs::new(alloc);
    attrs.insert(Tag::new("free")?, Text::of(alloc, free)?)?;
    let plain = Sequence::new(alloc);
    Ok(Local { attrs, plain })
}

// A full piece at version 4, stamped 100, of a node that has one child.
fn piece(alloc: Global, kinds: &str, child: &str) -> Result<Piece, TextError> {
    let mut ids = Sequence::new(alloc);
    ids.push(label(child)?)?;
    let name = name_of(alloc, kinds)?;
    let local = local(alloc, "no")?;
    let full = Some(Full {
        local,
        version: 4,
        stamp: 100,
    });
    Ok(Piece { name, ids, full })
}

// Owns the top node, and has a copy of the hood.
fn fragment(alloc: Global) -> Result<Fragment, TextError> {
    let mut fragment = Fragment::new(alloc, label("city")?);
    let top = piece(alloc, "city", "hood")?;
    if top.full.is_some() && fragment.has_place(&top.name) {
        fragment.set_owned(top)?;
    }
    fragment.take_in(piece(alloc, "city hood", "block")?)?;
    Ok(fragment)
}

#[test]
fn what_is_held(rt: HostRuntime) -> Result<(), Fail> {
    let alloc = rt.alloc();
    let fragment = fragment(alloc)?;
    for (kinds, status, usable, version) in [
        ("city", Some(Status::Owned), true, Some(4)),
        ("city hood", Some(Status::Complete), false, None),
        ("city hood block", Some(Status::Incomplete), false, None),
        ("city block", None, false, None),
    ] {
        let name = name_of(alloc, kinds)?;
        assert!(rt; fragment.status(&name) == status);
        assert_eq!(rt; fragment.usable(&name, Level::Full, 101), usable);
        assert_eq!(rt; fragment.version(&name), version);
    }
    let told = fragment.piece(&name_of(alloc, "city hood")?, Level::Full, 500)?;
    let full = told.and_then(|piece| piece.full);
    assert!(rt; full.is_some_and(|full| (full.version, full.stamp) == (4, 100)));
    let mut levels = Vec::new(alloc);
    for piece in &fragment.usable_pieces(101, 500)? {
        levels.push(piece.full.is_some())?;
    }
    assert!(rt; levels.as_slice() == [true, false].as_slice());
    fragment.keeps_shape();
    look_ups();
    taking_in();
    Ok(())
}

#[test]
fn what_changes(rt: HostRuntime) -> Result<(), Fail> {
    let alloc = rt.alloc();
    let mut fragment = fragment(alloc)?;
    let top = name_of(alloc, "city")?;
    let hood = name_of(alloc, "city hood")?;
    let copy = piece(alloc, "city hood", "block")?.copy()?;
    assert!(rt; !fragment.take_in(copy)?);
    assert!(rt; fragment.evict(&top) == Err(EvictError::IsOwned));
    assert!(rt; fragment.evict(&hood) == Ok(Status::Incomplete));
    if let Some(version) = fragment.version(&top) {
        if version < 5 {
            fragment.renew(&top, local(alloc, "yes")?);
        }
    }
    assert_eq!(rt; fragment.version(&top), Some(5));
    if let Some(Status::Owned) = fragment.status(&top) {
        fragment.release(&top, 700);
    }
    assert!(rt; fragment.status(&top) == Some(Status::Complete));
    Ok(())
}

#[test]
fn what_an_error_prints(rt: HostRuntime) -> Result<(), Fail> {
    let alloc = rt.alloc();
    let status = Some(Status::Incomplete);
    for (error, text) in [
        (
            EvictError::NotHeld { status },
            "no copy of the node is held",
        ),
        (EvictError::IsOwned, "the node is owned"),
    ] {
        assert!(rt; format!(in alloc; "{error}")?.as_str() == text);
    }
    Ok(())
}
