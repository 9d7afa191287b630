//! A cache of two copies.

use crate::samples::{label, name, piece};
use iris_cache::Cached;
use iris_fragment::{EvictError, Status};
use std::alloc::Global;
use std::test::Fail;

const HOOD: &str = "hood-n.city-o";

const FIRST: &str = "block-1.hood-n.city-o";

const SECOND: &str = "block-2.hood-n.city-o";

// What happens to a node.
#[derive(Clone, Copy)]
enum Use<'a> {
    TakeIn(&'a str),
    Touch(&'a str),
    Evict(&'a str),
}

// It owns the top node.
fn cache(alloc: Global) -> Result<Cached, Fail> {
    let mut cache = Cached::new(alloc, 2, label(alloc, "city-o")?)?;
    let top = piece(alloc, "city-o", &["hood-n"], "", 0)?;
    if top.full.is_some() && cache.fragment().has_place(&top.name) {
        cache.own(top)?;
    }
    Ok(cache)
}

// Takes a copy of a node in, whose children are two blocks.
fn take_in(alloc: Global, cache: &mut Cached, text: &str) -> Result<(), Fail> {
    let piece = piece(alloc, text, &["block-1", "block-2"], "", 7)?;
    Ok(cache.take_in(piece)?)
}

fn happen(alloc: Global, cache: &mut Cached, what: Use<'_>) -> Result<(), Fail> {
    match what {
        Use::TakeIn(text) => take_in(alloc, cache, text)?,
        Use::Touch(text) => cache.touch(&name(alloc, text)?),
        Use::Evict(text) => {
            if cache.evict(&name(alloc, text)?).is_err() {
                return Err(Fail::new("not evicted"));
            }
        }
    }
    Ok(())
}

// The ids of the copies, the one used last in front.
fn order(alloc: Global, cache: &Cached) -> Result<String, Fail> {
    let mut text = String::new(alloc);
    for copy in &cache.order()? {
        if let Some(label) = copy.as_slice().last() {
            text.push_str(label.id.as_str())?;
        }
    }
    Ok(text)
}

#[test]
fn the_copy_used_last_stays(rt: HostRuntime) -> Result<(), Fail> {
    let alloc = rt.alloc();
    let mut cache = cache(alloc)?;
    for (what, left) in [
        (Use::TakeIn(HOOD), "n"),
        (Use::TakeIn(FIRST), "1n"),
        (Use::Touch(HOOD), "n1"),
        (Use::Touch(SECOND), "n1"),
        (Use::TakeIn(SECOND), "2n"),
        // The same copy again, of the same stamp and version, is not used by that.
        (Use::TakeIn(HOOD), "2n"),
        (Use::Evict(HOOD), "2"),
    ] {
        happen(alloc, &mut cache, what)?;
        assert_eq!(rt; order(alloc, &cache)?.as_str(), left);
    }
    assert_eq!(rt; cache.capacity(), 2);
    Ok(())
}

#[test]
fn what_is_evicted_is_no_copy(rt: HostRuntime) -> Result<(), Fail> {
    let alloc = rt.alloc();
    let mut cache = cache(alloc)?;
    take_in(alloc, &mut cache, HOOD)?;
    take_in(alloc, &mut cache, FIRST)?;
    let status = Some(Status::IdComplete);
    for (text, left) in [
        (HOOD, Ok(Status::IdComplete)),
        (HOOD, Err(EvictError::NotHeld { status })),
        (FIRST, Ok(Status::Incomplete)),
        ("city-o", Err(EvictError::IsOwned)),
    ] {
        assert!(rt; cache.evict(&name(alloc, text)?) == left, "of {text}");
    }
    Ok(())
}

#[test]
fn what_is_given_away_is_a_copy(rt: HostRuntime) -> Result<(), Fail> {
    let alloc = rt.alloc();
    let mut cache = cache(alloc)?;
    cache.take_all(&[piece(alloc, HOOD, &["block-1"], "", 7)?])?;
    let top = name(alloc, "city-o")?;
    cache.ready(&top)?;
    if let Some(Status::Owned) = cache.fragment().status(&top) {
        cache.release(&top, 9)?;
    }
    assert!(rt; cache.fragment().status(&top) == Some(Status::Complete));
    assert_eq!(rt; order(alloc, &cache)?.as_str(), "on");
    cache.keeps_order();
    Ok(())
}
