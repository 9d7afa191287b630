//! Owners and routes in a city of three agents.

use iris_json::read_city;
use iris_route::{Registry, route};
use iris_tree::{AgentId, name_text, read_name};
use iris_xpath::parse;
use std::alloc::Global;
use std::test::Fail;

const CITY: &str =
    r#"{"kinds":["city","hood","block","space"],"agents":["a","b","c"],"place":[["city-o","a"],["block-2.hood-n.city-o","b"],["hood-s.city-o","c"]],"tree":{"kind":"city","id":"o","nodes":[{"kind":"hood","id":"n","nodes":[{"kind":"block","id":"1"},{"kind":"block","id":"2","nodes":[{"kind":"space","id":"1"}]}]},{"kind":"hood","id":"s","nodes":[{"kind":"block","id":"1"}]}]}}"#;

// Who owns a node, its epoch, and how long the nearest name is, as a text.
fn told(alloc: Global, registry: &Registry, text: &str) -> Result<String, Fail> {
    let name = read_name(alloc, text)?;
    let nearest = registry.nearest(&name);
    match registry.owner(&name) {
        Some((agent, epoch)) => { Ok(format!(in alloc; "{} {epoch} {nearest}", agent.as_str())?) }
        None => Ok(format!(in alloc; "- {nearest}")?),
    }
}

#[test]
fn owners_of_nodes(rt: HostRuntime) -> Result<(), Fail> {
    let alloc = rt.alloc();
    let mut registry = Registry::new(alloc, &read_city(alloc, CITY.as_bytes())?)?;
    let cases = [
        ("city-o", "a 0 1"),
        ("block-1.hood-n.city-o", "a 0 3"),
        ("space-1.block-2.hood-n.city-o", "b 0 4"),
        ("block-1.hood-s.city-o", "c 0 3"),
        ("space-9.block-2.hood-n.city-o", "- 3"),
        ("hood-x.city-p", "- 1"),
    ];
    for (name, expected) in &cases {
        assert_eq!(rt; told(alloc, &registry, name)?.as_str(), *expected);
    }
    let name = read_name(alloc, "block-2.hood-n.city-o")?;
    assert!(rt; !registry.newer(&name, 0));
    if registry.newer(&name, 1) {
        registry.set(&name, AgentId::new("c")?, 1);
    }
    assert_eq!(rt;
        told(alloc, &registry, "block-2.hood-n.city-o")?.as_str(),
        "c 1 3"
    );
    assert_eq!(rt;
        told(alloc, &registry, "space-1.block-2.hood-n.city-o")?.as_str(),
        "b 0 4"
    );
    Ok(())
}

#[test]
fn routes_of_queries(rt: HostRuntime) -> Result<(), Fail> {
    let alloc = rt.alloc();
    let city = read_city(alloc, CITY.as_bytes())?;
    let registry = Registry::new(alloc, &city)?;
    let cases = [
        ("/city[@id='o']/hood[@id='x']/block", "city-o"),
        ("/city[@id='o']/hood[@id='n']/block/space", "hood-n.city-o"),
        (
            "/city[@id='o']/hood[@id='n']/block[@id='2']",
            "block-2.hood-n.city-o",
        ),
        ("//hood", "city-o"),
        ("/city[@id='p']", "city-o"),
    ];
    for (text, expected) in &cases {
        let query = parse(alloc, text, city.kinds.as_slice())?;
        let name = route(alloc, &query, &registry)?;
        assert_eq!(rt; name_text(alloc, &name)?.as_str(), *expected);
    }
    Ok(())
}
