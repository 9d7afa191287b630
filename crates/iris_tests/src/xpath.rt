//! The calls of `iris_xpath`, each once.

use iris_tree::{Kind, Text, name_text};
use iris_xpath::{OutsidePart, Query, QueryError, depth, lca, lca_name, parse, print};
use std::alloc::Global;
use std::test::Fail;

// Texts that are no query, where they stop being one, and what stands there.
const REFUSED: [(&str, usize, &str); 16] = [
    ("", 0, "syntax"),
    ("/city/..", 6, "main path"),
    ("/city | /city", 6, "union"),
    ("/city[$x]", 6, "variable"),
    ("/city[.5=a]", 7, "decimal"),
    ("/city[a -1]", 8, "arithmetic"),
    ("/city[a::b]", 7, "axis"),
    ("/city[(a)=b]", 9, "truth value"),
    ("/city[count (hood)=1]", 12, "function"),
    ("/city[1 and a]", 8, "position"),
    ("/city['x']", 9, "literal"),
    ("/city[not(/a)]", 10, "absolute"),
    ("/city[.//..]", 9, "dots"),
    ("/city[@id/a]", 9, "attribute"),
    ("/city[aand b]", 11, "syntax"),
    ("/cité", 4, "syntax"),
];

// Queries, their printed forms, their depths, and the names under which all that they select lies.
const READ: [(&str, &str, u32, &str); 8] = [
    (" / city ", "/city", 0, ""),
    ("//*[ a>=-  7][not (b)]", "//*[a>=-7][not(b)]", 0, ""),
    ("/city[a='é'and b]", "/city[a='é' and b]", 0, ""),
    (
        "/city[(a or b) and (c and\"'\"!=d)]",
        "/city[(a or b) and c and \"'\"!=d]",
        0,
        "",
    ),
    (
        "/city[.//@id and or or not]",
        "/city[.//@id and or or not]",
        1,
        "",
    ),
    ("/city[hood[../..]]", "/city[hood[../..]]", 2, ""),
    (
        "/city[@id='o']/hood['n'=@id]/*",
        "/city[@id='o']/hood['n'=@id]/*",
        0,
        "hood-n.city-o",
    ),
    ("/city[@id='O!']", "/city[@id='O!']", 0, ""),
];

fn kinds() -> Result<[Kind; 2], Fail> {
    Ok([Kind::new("city")?, Kind::new("hood")?])
}

// The offset that an error tells, and a word for it.
fn told(error: QueryError) -> (usize, &'static str) {
    match error {
        QueryError::Syntax { at } => (at, "syntax"),
        QueryError::Outside { at, what } => (at, what.word()),
        QueryError::TooLarge { which } => (0, which.word()),
        QueryError::Memory => (0, "memory"),
    }
}

// Whether the text is refused there, for that reason.
fn is_refused(alloc: Global, kinds: &[Kind], text: &str, at: usize, word: &str) -> bool {
    match parse(alloc, text, kinds) {
        Ok(_) => false,
        Err(error) => told(error) == (at, word),
    }
}

#[test]
fn refuses(rt: HostRuntime) -> Result<(), Fail> {
    let kinds = kinds()?;
    for (text, at, word) in REFUSED {
        assert!(rt; is_refused(rt.alloc(), &kinds, text, at, word), "at {text}");
    }
    Ok(())
}

// A copy of the query that the text is.
fn copied(alloc: Global, kinds: &[Kind], text: &str) -> Option<Query> {
    parse(alloc, text, kinds).ok()?.copy().ok()
}

// The name under which all that the query selects lies.
fn under(alloc: Global, query: &Query) -> Option<Text> {
    let name = lca_name(alloc, query).ok()?;
    if name.len() != lca(query) {
        return None;
    }
    name_text(alloc, &name).ok()
}

// Whether the query has that printed form, that depth and that name.
fn is_shown(alloc: Global, query: &Query, text: &str, nested: u32, name: &str) -> bool {
    depth(query) == nested
        && print(alloc, query).is_ok_and(|printed| printed.as_str() == text)
        && under(alloc, query).is_some_and(|text| text.as_str() == name)
}

#[test]
fn reads_copies_and_prints(rt: HostRuntime) -> Result<(), Fail> {
    let kinds = kinds()?;
    let alloc = rt.alloc();
    for (text, printed, nested, name) in READ {
        let read = copied(alloc, &kinds, text);
        assert!(rt;
            read.is_some_and(|q| is_shown(alloc, &q, printed, nested, name)),
            "at {text}"
        );
    }
    Ok(())
}

#[test]
fn says_why(rt: HostRuntime) -> Result<(), Fail> {
    let outside = QueryError::Outside {
        at: 5,
        what: OutsidePart::Dots,
    };
    let text = format!(in rt.alloc(); "{outside}")?;
    assert_eq!(rt;
        text.as_str(),
        "byte 5 begins a part of XPath 1.0 that queries do not have"
    );
    Ok(())
}
