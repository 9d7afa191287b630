//! The open gathers of an agent.

use crate::samples::label;
use iris_gather::{Gather, Gathers, Parent};
use iris_need::Start;
use iris_tree::Kind;
use iris_xpath::parse;
use std::test::Fail;

#[test]
fn the_lowest_that_is_due(rt: HostRuntime) -> Result<(), Fail> {
    let alloc = rt.alloc();
    let mut gathers = Gathers::new(alloc);
    let start = Start::from_document(alloc, label(alloc, "city-o")?)?;
    let query = parse(alloc, "/city", &[Kind::new("city")?])?;
    let parent = Parent::Client { request: 3 };
    gathers.open(Gather::open(alloc, 7, query, 0, start, None, parent)?)?;
    assert_eq!(rt; gathers.due(), Some(7));
    assert!(rt; gathers.serves(3) && !gathers.serves(4) && !gathers.names(3));
    if gathers.is_due(7) {
        gathers.lend(7);
    }
    assert!(rt; gathers.is_lent(7) && gathers.due().is_none());
    gathers.give_back(7);
    assert_eq!(rt; gathers.due(), Some(7));
    gathers.close(7);
    assert!(rt; gathers.get(7).is_none() && gathers.awaiting(0).is_none());
    Ok(())
}
