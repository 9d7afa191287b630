//! Evaluations of queries over a whole document.
ghost use Rattle.std.specs.Prelude.{◌≡◌, map, IfOk};
ghost use Rattle.std.specs.List.{filter_map};
ghost use Rattle.std.specs.List.Sorted.{IsStrictlySortedBy};
ghost use Rattle.iris_tree.specs.Items.{items_at};
ghost use Rattle.iris_xpath.specs.Meaning.{selected};
ghost use Rattle.iris_xpath.specs.Looks.{full_names};
ghost use Rattle.iris_xpath.specs.PlaceOrder.{place_cmp};
ghost use Rattle.iris_select.specs.Places.{edges_of};
ghost use Rattle.iris_select.specs.Selected.{place_of_selected, selected_item};

use crate::place::Place;
use crate::spot::Spot;
use crate::walk::{Selected, walk};
use iris_tree::{Element, Item, Mem, Name, Tree};
use iris_xpath::Query;
use std::alloc::Global;

/// What an evaluation found, and what it looked at.
#[derive(Debug, Drop)]
pub struct Evaluation {
    /// The selected places, in the order of places, each once.
    pub places: Vec<Place>,
    /// The names of the nodes whose own attributes or plain elements it looked at, in the order of
    /// names, each once.
    pub full: Vec<Name>,
}

/// What an evaluation found, as items, and what it looked at.
#[derive(Debug, Drop)]
pub struct ItemEvaluation {
    /// The items at the selected places, in the order of places.
    pub items: Vec<Item>,
    /// The names of the nodes that it looked at, as those of an `Evaluation`.
    pub full: Vec<Name>,
}

// The selected places.
fn places_of(alloc: Global, all: Vec<Selected>) -> Mem<Vec<Place>>
    ensures { IfOk result (λ places. places.items ≡ map place_of_selected all.entry.items) }
{
    let mut places = Vec::with_capacity(alloc, all.len())?;
    for selected in all {
        places.push(selected.place)?;
    }
    Ok(places)
}

// What stands at the selected places, as items, of which each is a copy.
fn items_of(alloc: Global, all: Vec<Selected>) -> Mem<Vec<Item>>
    ensures { IfOk result (λ items. items.items ≡ filter_map selected_item all.entry.items) }
{
    let mut items = Vec::with_capacity(alloc, all.len())?;
    for selected in all {
        let Selected { place, spot } = selected;
        let element = match spot {
            Spot::Document => continue,
            Spot::Node(node) => Element::Node(node.copy()?),
            Spot::Plain(plain) => Element::Plain(plain.copy()?),
        };
        items.push(Item {
            at: place.name,
            is: element,
        })?;
    }
    Ok(items)
}

/// Evaluates a query from the document on, whose one child is the top node.
pub fn evaluate(alloc: Global, tree: &Tree, query: &Query) -> Mem<Evaluation>
    ensures places { IfOk result (λ found. map edges_of found.places.items ≡ selected tree.now query.now) }
    ensures ordered { IfOk result (λ found. IsStrictlySortedBy place_cmp (map edges_of found.places.items)) }
    ensures full { IfOk result (λ found. found.full.items ≡ full_names tree.now query.now) }
{
    let found = walk(alloc, tree, query)?;
    Ok(Evaluation {
        places: places_of(alloc, found.selected)?,
        full: found.full,
    })
}

/// The places that a query selects, in the order of places, each once (XPath 1.0, 2 and 3.3).
pub fn select(alloc: Global, tree: &Tree, query: &Query) -> Mem<Vec<Place>>
    ensures value { IfOk result (λ places. map edges_of places.items ≡ selected tree.now query.now) }
    ensures ordered { IfOk result (λ places. IsStrictlySortedBy place_cmp (map edges_of places.items)) }
{
    Ok(evaluate(alloc, tree, query)?.places)
}

/// Evaluates a query as `evaluate` does, and copies what stands at the selected places. No place is
/// sought a second time.
pub fn evaluate_items(alloc: Global, tree: &Tree, query: &Query) -> Mem<ItemEvaluation>
    ensures items { IfOk result (λ found. found.items.items ≡ items_at tree.now (selected tree.now query.now)) }
    ensures full { IfOk result (λ found. found.full.items ≡ full_names tree.now query.now) }
{
    let found = walk(alloc, tree, query)?;
    Ok(ItemEvaluation {
        items: items_of(alloc, found.selected)?,
        full: found.full,
    })
}
