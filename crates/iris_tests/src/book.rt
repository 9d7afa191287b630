//! The calls of `iris_book`, each once, in a city of one node without attributes.

use iris_book::{Book, Entry};
use iris_tree::{AgentId, Cite, Id, Kind, Label, Local, Name, Sequence, Tree};
use iris_xpath::parse;
use std::alloc::Global;
use std::test::*;

fn label(id: &str) -> Result<Label, Fail> {
    let kind = Kind::new("city")?;
    let id = Id::new(id)?;
    Ok(Label { kind, id })
}

// The name of a top node with that id.
fn name_of(alloc: Global, id: &str) -> Result<Name, Fail> {
    let mut name = Name::document(alloc);
    name.push(label(id)?)?;
    Ok(name)
}

// The start of the city, whose node has the id `o`.
fn start(alloc: Global) -> Result<Tree, Fail> {
    Ok(Tree::new(alloc, label("o")?, Local::new(alloc)))
}

#[test]
fn a_book_with_no_entries(rt: HostRuntime) -> Result<(), Fail> {
    let alloc = rt.alloc();
    let book = Book::new(alloc, start(alloc)?)?;
    for (id, version, latest, held) in [
        ("o", 0, Some(0), true),
        ("o", 1, Some(0), false),
        ("p", 0, None, false),
    ] {
        let name = name_of(alloc, id)?;
        let newest = book.newest(&name);
        assert_eq!(rt; newest.is_some(), latest.is_some(), "of {id}");
        assert_eq!(rt; book.latest(&name), latest, "of {id}");
        assert_eq!(rt; book.value(&name, version).is_some(), held, "of {id}");
        assert_eq!(rt; book.held(&name, version, 7), held, "of {id}");
    }
    assert_eq!(rt; book.today()?.children().len(), 0);
    Ok(())
}

#[test]
fn moves_last_and_answers_go(rt: HostRuntime) -> Result<(), Fail> {
    let alloc = rt.alloc();
    let mut book = Book::new(alloc, start(alloc)?)?;
    let name = name_of(alloc, "o")?;
    let to = AgentId::new("b")?;
    let query = parse(alloc, "/city", &[Kind::new("city")?])?;
    let mut cites = Sequence::new(alloc);
    cites.push(Cite {
        name: name.copy()?,
        version: 0,
        stamp: 7,
    })?;
    book.reserve(2)?;
    book.push(Entry::Gave { name, to, epoch: 1 });
    assert_eq!(rt; (book.entries(), book.bytes()), (1, 128));
    let answer = Entry::Answered {
        request: 0,
        query,
        floor: 0,
        cites,
    };
    book.push(answer.copy()?);
    assert_eq!(rt; (book.entries(), book.bytes()), (2, 320));
    book.drop_answers();
    assert_eq!(rt; (book.entries(), book.bytes()), (1, 128));
    Ok(())
}
