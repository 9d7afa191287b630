//! The calls of `iris_keeper`, each once.

use iris_keeper::{Keeper, Kept, MemoryKeeper, NeverFails};
use iris_tree::{AgentId, Fault, Id, Kind, Label, Name, Sequence};
use std::alloc::Global;
use std::test::Fail;

// The row that says that a city's top node was given away.
fn gave(alloc: Global) -> Result<Kept, Fail> {
    let top = Label {
        kind: Kind::new("city")?,
        id: Id::new("o")?,
    };
    Ok(Kept::Gave {
        name: Name::document(alloc).child(top)?,
        to: AgentId::new("b")?,
        epoch: 1,
    })
}

#[test]
fn rows_in_memory(rt: HostRuntime) -> Result<(), Fail> {
    let alloc = rt.alloc();
    let fails = vec![in alloc; 1]?;
    let mut keeper = MemoryKeeper::new(Sequence::new(alloc), fails);
    let row = gave(alloc)?;
    let appended = (keeper.append(&row), keeper.append(&row));
    assert!(rt; appended == (Ok(()), Err(Fault::Failed)));
    assert_eq!(rt; keeper.rows().len(), 1);
    let Ok(rows) = keeper.load() else {
        return Err(Fail::new("the rows"));
    };
    assert_eq!(rt; rows.len(), 1);
    Ok(())
}

#[test]
fn a_keeper_of_nothing(rt: HostRuntime) -> Result<(), Fail> {
    let alloc = rt.alloc();
    let mut keeper = NeverFails::new(alloc);
    let appended = keeper.append(&gave(alloc)?.copy()?);
    assert!(rt; appended == Ok(()));
    let Ok(rows) = keeper.load() else {
        return Err(Fail::new("no rows"));
    };
    assert_eq!(rt; rows.len(), 0);
    Ok(())
}
