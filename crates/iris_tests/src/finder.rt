//! The calls of `iris_finder`, each once: prices of stays, the offers of two blocks, and the text of a query.

use iris_finder::{OfferError, Tariff, offers, price, query_of};
use iris_json::{Arrival, Find};
use iris_tree::{
    Attrs, Element, Id, Item, Kind, Label, Local, MAX_STAY, MINUTES_A_DAY, Tag, Text, Tree,
    name_text, read_name,
};
use std::alloc::Global;
use std::test::Fail;

fn attributes(alloc: Global, pairs: &[(&str, &str)]) -> Result<Attrs, Fail> {
    let mut attrs = Attrs::new(alloc);
    for (name, value) in pairs {
        attrs.insert(Tag::new(name)?, Text::new(alloc, value)?)?;
    }
    Ok(attrs)
}

// What a stay costs, as a text; `-` where it is too long.
fn cost(
    alloc: Global,
    tariff: &Tariff,
    weekday: u8,
    minute: u32,
    stay: u32,
) -> Result<String, Fail> {
    if weekday > 6 || minute >= MINUTES_A_DAY || stay == 0 || stay > MAX_STAY {
        return Ok(format!(in alloc; "?")?);
    }
    match price(tariff, &Arrival { weekday, minute }, stay) {
        Ok(price) => Ok(format!(in alloc; "{price}")?),
        Err(_) => Ok(format!(in alloc; "-")?),
    }
}

#[test]
fn prices_of_stays(rt: HostRuntime) -> Result<(), Fail> {
    let alloc = rt.alloc();
    let hourly: &[(&str, &str)] = &[
        ("rate", "150"),
        ("free", "15"),
        ("cap", "900"),
        ("most", "480"),
        ("from", "540"),
        ("to", "1080"),
        ("days", "1111110"),
    ];
    let nightly: &[(&str, &str)] = &[
        ("rate", "100"),
        ("unit", "30"),
        ("to", "60"),
        ("days", "1000000"),
    ];
    // The attributes of the tariff, the weekday and the minute of the arrival, the stay, and its price.
    let cases: &[(&[(&str, &str)], u8, u32, u32, &str)] = &[
        (hourly, 1, 510, 90, "150"),
        (hourly, 1, 510, 91, "300"),
        (hourly, 1, 510, 480, "900"),
        (hourly, 1, 510, 481, "-"),
        (hourly, 6, 510, 90, "0"),
        (nightly, 6, 1_430, 100, "200"),
    ];
    for (pairs, weekday, minute, stay, expected) in cases {
        let tariff = Tariff::read(&attributes(alloc, pairs)?);
        assert!(rt; tariff.is_some());
        if let Some(tariff) = tariff {
            let cost = cost(alloc, &tariff, *weekday, *minute, *stay)?;
            assert_eq!(rt; cost.as_str(), *expected);
        }
    }
    Ok(())
}

fn node(alloc: Global, kind: &str, id: &str, name: &str, value: &str) -> Result<Tree, Fail> {
    let mut local = Local::new(alloc);
    local.attrs = attributes(alloc, &[(name, value)])?;
    let label = Label {
        kind: Kind::new(kind)?,
        id: Id::new(id)?,
    };
    Ok(Tree::new(alloc, label, local))
}

// A block of a hood with a space that is free.
fn block(alloc: Global, id: &str, rate: &str, free: &str) -> Result<Item, Fail> {
    let mut block = node(alloc, "block", id, "rate", rate)?;
    block.insert(node(alloc, "space", "0", "free", "no")?)?;
    block.insert(node(alloc, "space", free, "free", "yes")?)?;
    let mut at = read_name(alloc, "hood-n.city-o")?;
    at.push(*block.label())?;
    Ok(Item {
        at,
        is: Element::Node(block),
    })
}

// The offers of items for a stay of 90 minutes, as a text.
fn offered(alloc: Global, items: &[Item], top: u32) -> Result<String, Fail> {
    let mut told = String::new(alloc);
    if top == 0 || top > 100 {
        return Ok(told);
    }
    let find = Find {
        hood: Id::new("n")?,
        arrive: 0,
        stay: 90,
        top,
        bound: None,
    };
    let arrival = Arrival {
        weekday: 1,
        minute: 510,
    };
    match offers(alloc, items, &find, &arrival) {
        Ok(offers) => {
            for offer in offers.as_slice() {
                let name = name_text(alloc, &offer.name)?;
                told.push_str(name.as_str())?;
                told.push_str(format!(in alloc; " {}; ", offer.price)?.as_str())?;
            }
        }
        Err(OfferError::BadTariff { name }) => {
            told.push_str(name_text(alloc, &name)?.as_str())?;
        }
        Err(OfferError::Memory) => told.push_str("out of memory")?,
    }
    Ok(told)
}

#[test]
fn offers_of_two_blocks(rt: HostRuntime) -> Result<(), Fail> {
    let alloc = rt.alloc();
    let items = [
        block(alloc, "1", "200", "2")?,
        block(alloc, "2", "100", "1")?,
    ];
    assert_eq!(rt;
        offered(alloc, &items, 5)?.as_str(),
        "space-1.block-2.hood-n.city-o 200; space-2.block-1.hood-n.city-o 400; "
    );
    assert_eq!(rt;
        offered(alloc, &items, 1)?.as_str(),
        "space-1.block-2.hood-n.city-o 200; "
    );
    let items = [block(alloc, "1", "x", "2")?, block(alloc, "2", "y", "1")?];
    assert_eq!(rt;
        offered(alloc, &items, 5)?.as_str(),
        "block-1.hood-n.city-o"
    );
    Ok(())
}

#[test]
fn the_query_for_a_hood(rt: HostRuntime) -> Result<(), Fail> {
    let find = Find {
        hood: Id::new("n")?,
        arrive: 0,
        stay: 90,
        top: 5,
        bound: None,
    };
    let top = Label {
        kind: Kind::new("city")?,
        id: Id::new("o")?,
    };
    assert_eq!(rt;
        query_of(rt.alloc(), &find, &top)?.as_str(),
        "/city[@id='o']/hood[@id='n']/block[space[@free='yes']]"
    );
    Ok(())
}
