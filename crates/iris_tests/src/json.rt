//! The calls of `iris_json` on cities, nodes and answers, each once.

use iris_json::{
    CityError, CityWhy, Element, Item, Line, LineError, LineWhy, Out, Which, read_city, read_line,
    write_city, write_items, write_out, write_tree,
};
use iris_tree::{Attrs, Change, Cite, Name, Plain, Sequence, Tag, Text, name_text};
use std::alloc::Global;
use std::str;
use std::test::Fail;

const CITY: &str =
    r#"{ "place":[["hood-10.city-o","b1"],["city-o","a"]],"kinds":["hood","city"],"agents":["a","b1","c"],"show":"summary","zone":"CET-1CEST,M3.5.0,M10.5.0/3","tree":{"kind":"city","id":"o","attrs":{"plain":"\u00e4\u0001","b-2":""},"nodes":[{"kind":"hood","id":"10"},{"kind":"city","id":"9"}],"plain":[{"tag":"a","kids":[{"tag":"c"},{"tag":"b","attrs":{"z":"1"}}]},{"tag":"note","text":"x"}]} }"#;

const TREE: &str =
    r#"{"attrs":{"b-2":"","plain":"ä\u0001"},"id":"o","kind":"city","nodes":[{"attrs":{},"id":"9","kind":"city","nodes":[],"plain":[]},{"attrs":{},"id":"10","kind":"hood","nodes":[],"plain":[]}],"plain":[{"attrs":{},"kids":[],"tag":"note","text":"x"},{"attrs":{},"kids":[{"attrs":{"z":"1"},"kids":[],"tag":"b","text":""},{"attrs":{},"kids":[],"tag":"c","text":""}],"tag":"a","text":""}]}"#;

#[test]
fn a_city(rt: HostRuntime) -> Result<(), Fail> {
    let alloc = rt.alloc();
    let city = read_city(alloc, CITY.as_bytes())?;
    let expected = format!(in alloc;
        "{{\"agents\":[\"a\",\"b1\",\"c\"],\"caps\":[500,500,500],\"kinds\":[\"hood\",\"city\"],\"place\":[[\"hood-10.city-o\",\"b1\"],[\"city-o\",\"a\"]],\"show\":\"summary\",\"tree\":{TREE},\"zone\":\"CET-1CEST,M3.5.0,M10.5.0/3\"}}"
    )?;
    assert_eq!(rt;
        str::from_utf8(&write_city(alloc, &city)?)?,
        expected.as_str()
    );
    assert_eq!(rt; str::from_utf8(&write_tree(alloc, &city.tree)?)?, TREE);
    Ok(())
}

const TWO: &str =
    r#"{"id":"o","kind":"city","nodes":[{"id":"n","kind":"hood"},{"id":"n","kind":"hood"}]}"#;

// A city line whose keys have these values.
fn line_of(
    alloc: Global,
    kinds: &str,
    agents: &str,
    more: &str,
    place: &str,
    tree: &str,
) -> Result<String, Fail> {
    Ok(format!(in alloc;
        "{{\"kinds\":{kinds},\"agents\":{agents}{more},\"place\":{place},\"tree\":{tree}}}"
    )?)
}

#[test]
fn faults_of_cities(rt: HostRuntime) -> Result<(), Fail> {
    let alloc = rt.alloc();
    let kinds = r#"["city","hood"]"#;
    let agents = r#"["a"]"#;
    let place = r#"[["city-o","a"]]"#;
    let node = r#"{"id":"o","kind":"city"}"#;
    let hood =
        r#"{"id":"o","kind":"city","nodes":[{"id":"n","kind":"hood"},{"id":"m","kind":"block"}]}"#;
    let attr =
        r#"{"id":"o","kind":"city","nodes":[{"id":"n","kind":"hood","plain":[{"tag":"x","attrs":{"id":""}}]}]}"#;
    let tag =
        r#"{"id":"o","kind":"city","nodes":[{"id":"n","kind":"hood","plain":[{"tag":"x","kids":[{"tag":"hood"}]}]}]}"#;
    let both = r#"{"id":"o","kind":"city","plain":[{"tag":"x","text":"y","kids":[{"tag":"z"}]}]}"#;
    let number = r#"{"id":"o","kind":"city","plain":[{"tag":"x","text":1}]}"#;
    let table = [
        (
            kinds,
            agents,
            r#","show":"none""#,
            place,
            node,
            0,
            CityWhy::Shape,
        ),
        (kinds, agents, "", place, number, 0, CityWhy::Shape),
        (
            r#"["city","city"]"#,
            agents,
            "",
            place,
            node,
            0,
            CityWhy::Kinds,
        ),
        (kinds, "[]", "", place, node, 0, CityWhy::Agents),
        (
            kinds,
            agents,
            r#","caps":[0]"#,
            place,
            node,
            0,
            CityWhy::Capacities,
        ),
        (kinds, agents, "", place, hood, 2, CityWhy::Label),
        (kinds, agents, "", place, TWO, 2, CityWhy::Twin),
        (kinds, agents, "", place, attr, 1, CityWhy::Attribute),
        (kinds, agents, "", place, tag, 1, CityWhy::Plain),
        (kinds, agents, "", place, both, 0, CityWhy::Plain),
        (
            kinds,
            agents,
            "",
            r#"[["city-o","b"]]"#,
            node,
            0,
            CityWhy::Place,
        ),
        (
            kinds,
            agents,
            r#","zone":"UTC""#,
            place,
            node,
            0,
            CityWhy::Zone,
        ),
    ];
    for (kinds, agents, more, place, tree, node, why) in table {
        let line = line_of(alloc, kinds, agents, more, place, tree)?;
        let told = read_city(alloc, line.as_bytes()).err();
        assert!(rt; told == Some(CityError::BadCity { node, why }));
    }
    Ok(())
}

#[test]
fn a_line(rt: HostRuntime) -> Result<(), Fail> {
    let alloc = rt.alloc();
    let line = r#"{"do":"update","name":"space-1.city-o","no":3,"change":[["attr","free","\"x"]]}"#;
    let Line::Update { name, no, changes } = read_line(alloc, line.as_bytes())? else {
        assert!(rt; false);
        return Ok(());
    };
    assert_eq!(rt; name_text(alloc, &name)?.as_str(), "space-1.city-o");
    assert_eq!(rt; no, 3);
    assert_eq!(rt; changes.len(), 1);
    for change in changes.as_slice() {
        match change {
            Change::Attr { name, value } => {
                assert_eq!(rt; name.as_str(), "free");
                assert_eq!(rt; value.as_str(), "\"x");
            }
            Change::Drop { .. } | Change::Put { .. } => assert!(rt; false),
        }
    }
    Ok(())
}

// A note at the document.
fn note(alloc: Global) -> Result<Item, Fail> {
    let note = Plain {
        tag: Tag::new("note")?,
        attrs: Attrs::new(alloc),
        text: Text::of(alloc, "x")?,
        kids: Sequence::new(alloc),
    };
    Ok(Item {
        at: Name::document(alloc),
        is: Element::Plain(note),
    })
}

const ITEMS: &str = r#"[{"at":"","is":{"attrs":{},"kids":[],"tag":"note","text":"x"}}]"#;

#[test]
fn an_answer(rt: HostRuntime) -> Result<(), Fail> {
    let alloc = rt.alloc();
    let mut answer = Sequence::new(alloc);
    answer.push(note(alloc)?)?;
    assert_eq!(rt;
        str::from_utf8(&write_items(alloc, answer.as_slice())?)?,
        ITEMS
    );
    let mut cites = Sequence::new(alloc);
    cites.push(Cite {
        name: Name::document(alloc),
        version: 2,
        stamp: 1500,
    })?;
    let out = Out::Answer {
        answer,
        cites,
        newest: false,
        request: 0,
    };
    let expected = format!(in alloc;
        "{{\"answer\":{ITEMS},\"cites\":[[\"\",2,1500]],\"newest\":false,\"request\":0}}"
    )?;
    assert_eq!(rt;
        str::from_utf8(&write_out(alloc, &out)?)?,
        expected.as_str()
    );
    Ok(())
}

#[test]
fn texts_of_errors(rt: HostRuntime) -> Result<(), Fail> {
    let alloc = rt.alloc();
    let lines = [
        (LineError::NotJson, "the line is no JSON"),
        (
            LineError::BadLine {
                why: LineWhy::Number,
            },
            "a number in the line is not whole or not in its range",
        ),
        (LineError::Memory, "out of memory"),
    ];
    for (error, text) in lines {
        assert_eq!(rt; format!(in alloc; "{error}")?.as_str(), text);
    }
    let cities = [
        (
            CityError::BadCity {
                node: 2,
                why: CityWhy::Twin,
            },
            "a node of the city has the label of an earlier sibling",
        ),
        (
            CityError::CityLimit {
                which: Which::Line,
                count: 1,
            },
            "the city is past a limit",
        ),
    ];
    for (error, text) in cities {
        assert_eq!(rt; format!(in alloc; "{error}")?.as_str(), text);
    }
    Ok(())
}
