//! Titles of an agent that owns the top node, and to which the hood is under way.

use crate::samples::name;
use iris_migrate::{Direct, Handover, Message, TakeError, Titles};
use iris_tree::{AgentId, Name, Sequence};
use std::alloc::Global;
use std::test::Fail;

fn update(alloc: Global, name: &Name, request: u64) -> Result<Message, Fail> {
    Ok(Message::Update {
        request,
        name: name.copy()?,
        epoch: 1,
        no: 4,
        changes: Sequence::new(alloc),
    })
}

// Parks a message. Answers false where it is parked already.
fn park(titles: &mut Titles, message: Message) -> Result<bool, Fail> {
    if message.key().is_none() {
        return Err(Fail::new("it wants nothing of a node's holder"));
    }
    Ok(titles.park(message)?)
}

// What becomes of a message whose sender read that epoch.
fn directed(alloc: Global, titles: &Titles, name: &Name, epoch: u64) -> Result<String, Fail> {
    Ok(match titles.direct(name, epoch) {
        Direct::Serve => format!(in alloc; "serve")?,
        Direct::Forward { to, epoch } => format!(in alloc; "to {} by {epoch}", to.as_str())?,
        Direct::Park => format!(in alloc; "park")?,
    })
}

#[test]
fn a_node_is_served_and_then_sent_on(rt: HostRuntime) -> Result<(), Fail> {
    let alloc = rt.alloc();
    let top = name(alloc, "city-o")?;
    let mut titles = Titles::new(alloc, &[top.copy()?])?;
    assert_eq!(rt; directed(alloc, &titles, &top, 0)?.as_str(), "serve");
    assert_eq!(rt; titles.last(&top), Some(0));
    let to = AgentId::new("b")?;
    if titles.last(&top).is_some() {
        titles.set_last(&top, 5);
        assert_eq!(rt; titles.give(&top, to, 2), 5);
    }
    for (epoch, told) in [(0, "to b by 2"), (1, "to b by 2"), (2, "park"), (3, "park")] {
        assert_eq!(rt;
            directed(alloc, &titles, &top, epoch)?.as_str(),
            told,
            "of {epoch}"
        );
    }
    assert_eq!(rt; titles.last(&top), None);
    Ok(())
}

#[test]
fn a_request_is_parked_once_for_its_node(rt: HostRuntime) -> Result<(), Fail> {
    let alloc = rt.alloc();
    let hood = name(alloc, "hood-n.city-o")?;
    let mut titles = Titles::new(alloc, &[])?;
    for (request, parked, count) in [(3, true, 1), (3, false, 1), (4, true, 2)] {
        let message = update(alloc, &hood, request)?.copy()?;
        assert_eq!(rt; park(&mut titles, message)?, parked, "of {request}");
        assert_eq!(rt; titles.parked(&hood).len(), count);
    }
    assert!(rt; !titles.is_asked(3));
    titles.keeps_parked();
    Ok(())
}

// Takes a handover of that epoch. Answers how many messages were parked, or the epoch taken before.
fn take(titles: &mut Titles, handover: &Handover) -> Result<Result<usize, u64>, Fail> {
    titles.ready(&handover.name)?;
    match titles.take(handover) {
        Ok(parked) => Ok(Ok(parked.len())),
        Err(TakeError::Stale { taken }) => Ok(Err(taken)),
    }
}

#[test]
fn a_handover_is_taken_once(rt: HostRuntime) -> Result<(), Fail> {
    let alloc = rt.alloc();
    let hood = name(alloc, "hood-n.city-o")?;
    let mut titles = Titles::new(alloc, &[])?;
    park(&mut titles, update(alloc, &hood, 3)?)?;
    for (epoch, told) in [(2, Ok(1)), (2, Err(2)), (1, Err(2)), (4, Ok(0))] {
        let handover = Handover {
            name: hood.copy()?,
            epoch,
            last: 8,
            pieces: Sequence::new(alloc),
        };
        assert!(rt; take(&mut titles, &handover)? == told, "of {epoch}");
    }
    let taken = titles.taken(&hood);
    assert_eq!(rt; (titles.last(&hood), taken), (Some(8), 4));
    Ok(())
}
