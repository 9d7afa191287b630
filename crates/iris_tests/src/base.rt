//! The calls of `iris_base`, each once.

use iris_base::{
    AgentId, Fault, Form, Id, Kind, Label, Mem, Memory, Name, NameError, Sequence, Tag, Text,
    TextError, count_fault, is_id, name_text, read_name,
};
use std::alloc::Global;
use std::collections::{BTreeMap, HashMap};
use std::test::Fail;

// A type that holds itself through a `Sequence`.
#[derive(Debug, Drop)]
struct Folder {
    title: Text,
    folders: Sequence<Folder>,
}

fn label(kind: &str, id: &str) -> Result<Label, TextError> {
    let kind = Kind::new(kind)?;
    let id = Id::new(id)?;
    Ok(Label { kind, id })
}

fn name(alloc: Global, labels: &[Label]) -> Mem<Name> {
    Ok(Name::from_vec(Vec::from_slice(alloc, labels)?))
}

#[test]
fn short_texts(rt: HostRuntime) -> Result<(), Fail> {
    assert_eq!(rt; Kind::new("hood")?.as_bytes(), b"hood".as_slice());
    assert_eq!(rt; Kind::new("ho0d").err(), Some(TextError::BadText { at: 2 }));
    assert_eq!(rt; Id::new("A_9")?.as_str(), "A_9");
    assert_eq!(rt; Tag::new("a-b_9")?.as_str(), "a-b_9");
    assert_eq!(rt; AgentId::new("a1")?.copy()?.as_str(), "a1");
    assert!(rt; Form::TAG.allows(1, b'-') && !Form::TAG.allows(0, b'-'));
    assert_eq!(rt; Form::KIND.bad_at(b"hood".as_slice()), None);
    assert!(rt; is_id("id") && !is_id("free"));
    Ok(())
}

#[test]
fn texts(rt: HostRuntime) -> Result<(), Fail> {
    let alloc = rt.alloc();
    let text = Text::new(alloc, "x\n\"😀")?;
    assert_eq!(rt; text.as_str(), "x\n\"😀");
    assert_eq!(rt; text.copy()?, text);
    assert!(rt; Text::of(alloc, "w")? < text);
    assert_eq!(rt;
        Text::from_string(String::from_str(alloc, "w")?).as_str(),
        "w"
    );
    Ok(())
}

#[test]
fn prints(rt: HostRuntime) -> Result<(), Fail> {
    let alloc = rt.alloc();
    let kind = Kind::new("hood")?;
    let text = Text::of(alloc, "a\"b")?;
    assert_eq!(rt;
        format!(in alloc; "{kind:>6} {kind:?} {text} {text:?}")?.as_str(),
        "  hood \"hood\" a\"b \"a\\\"b\""
    );
    let bad_text = TextError::BadText { at: 2 };
    let bad_name = NameError::BadName { at: 8 };
    let memory = NameError::from(Memory);
    assert_eq!(rt;
        format!(in alloc; "{bad_text}; {bad_name}; {memory}")?.as_str(),
        "the text goes off its form at byte 2; no name goes on at byte 8; out of memory"
    );
    let failed = Fault::Failed;
    assert_eq!(rt; format!(in alloc; "{failed}")?.as_str(), "the call failed");
    Ok(())
}

#[test]
fn faults(rt: HostRuntime) -> Result<(), Fail> {
    let mut faults = 0;
    assert_eq!(rt; count_fault(&mut faults), Fault::Failed);
    assert_eq!(rt; faults, 1);
    Ok(())
}

#[test]
fn sequences(rt: HostRuntime) -> Result<(), Fail> {
    let mut numbers = Sequence::new(rt.alloc());
    assert!(rt; numbers.is_empty());
    numbers.push(7)?;
    numbers.push(8)?;
    assert_eq!(rt; numbers.len(), 2);
    assert!(rt; numbers == Sequence::from_vec([7, 8].to_vec(numbers.allocator())?));
    assert!(rt; numbers == numbers.copy()?);
    assert_eq!(rt; numbers.into_vec().as_slice(), [7, 8].as_slice());
    let mut top = Folder {
        title: Text::of(rt.alloc(), "top")?,
        folders: Sequence::new(rt.alloc()),
    };
    top.folders.push(Folder {
        title: Text::of(rt.alloc(), "inner")?,
        folders: Sequence::new(rt.alloc()),
    })?;
    for inner in top.folders.as_slice() {
        assert_eq!(rt; inner.title.as_str(), "inner");
    }
    Ok(())
}

#[test]
fn names(rt: HostRuntime) -> Result<(), Fail> {
    let alloc = rt.alloc();
    let mut oakland = Name::document(alloc);
    assert!(rt; oakland.is_document());
    assert_eq!(rt; oakland.parent_len(), None);
    assert_eq!(rt; name_text(alloc, &oakland)?.as_str(), "");
    oakland.push(label("city", "oakland")?)?;
    assert_eq!(rt; oakland.parent_len(), Some(0));
    let north = oakland.child(label("hood", "north")?)?;
    assert!(rt; north.is_under(&oakland) && !oakland.is_under(&north));
    assert!(rt; north.is_under(&north));
    let mut space = north.child(label("block", "3")?)?;
    let seven = label("space", "7")?;
    space.push(seven.copy()?)?;
    assert_eq!(rt;
        name_text(alloc, &space)?.as_str(),
        "space-7.block-3.hood-north.city-oakland"
    );
    assert_eq!(rt; space.len(), 4);
    assert_eq!(rt; space.pop(), Some(seven));
    assert_eq!(rt; space.as_slice().len(), 3);
    Ok(())
}

#[test]
fn names_in_order(rt: HostRuntime) -> Result<(), Fail> {
    let alloc = rt.alloc();
    let block = name(alloc, &[label("block", "9")?])?;
    let north = name(alloc, &[label("hood", "1")?])?;
    let below = north.child(label("block", "1")?)?;
    assert!(rt; block < north && north < below);
    assert!(rt; below == below.copy()?);
    Ok(())
}

#[test]
fn names_as_keys(rt: HostRuntime) -> Result<(), Fail> {
    let alloc = rt.alloc();
    let hood = Name::document(alloc).child(label("hood", "north")?)?;
    let block = hood.child(label("block", "3")?)?;
    let mut ordered = BTreeMap::new(alloc);
    let mut hashed = HashMap::new(alloc);
    ordered.insert(hood.copy()?, 1)?;
    ordered.insert(block.copy()?, 2)?;
    hashed.insert(hood.copy()?, 1)?;
    assert_eq!(rt; ordered.get(&block).copied(), Some(2));
    assert_eq!(rt; hashed.get(&hood).copied(), Some(1));
    assert_eq!(rt; hashed.get(&block).copied(), None);
    Ok(())
}

#[test]
fn reads_names(rt: HostRuntime) -> Result<(), Fail> {
    let alloc = rt.alloc();
    let space = read_name(alloc, "space-7.block-3.hood-north.city-oakland")?;
    assert_eq!(rt; space.as_slice().first(), Some(&label("city", "oakland")?));
    assert_eq!(rt;
        name_text(alloc, &space)?.as_str(),
        "space-7.block-3.hood-north.city-oakland"
    );
    let bad = NameError::BadName { at: 8 };
    assert_eq!(rt; read_name(alloc, "space-7..city-o").err(), Some(bad));
    Ok(())
}
