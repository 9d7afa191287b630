//! The items at places, and the answer of a query as JSON.
ghost use Rattle.std.specs.Prelude.{◌≡◌, map, IfOk, option_copied, slice_get};
ghost use Rattle.iris_tree.specs.Items.{item_at, items_at};
ghost use Rattle.iris_json.specs.Render.{rendered};
ghost use Rattle.iris_xpath.specs.Meaning.{selected};
ghost use Rattle.iris_select.specs.Places.{edges_of, element_at};

use crate::evaluation::evaluate_items;
use crate::place::Place;
use iris_json::write_items;
use iris_tree::{Element, Item, Local, Mem, Plain, Tree};
use iris_xpath::Query;
use std::alloc::Global;

// The plain element at a position among its siblings.
fn sibling_at(siblings: &[Plain], position: u32) -> Option<&Plain>
    ensures { option_copied result ≡ slice_get siblings.now position }
{
    siblings.get(position as usize)
}

// The plain element at the end of a path from a node.
fn plain_at<'a>(local: &'a Local, path: &[u32]) -> Option<&'a Plain>
    ensures { option_copied result ≡ element_at local.now.plain path.now }
{
    let (first, below) = path.split_first()?;
    let mut plain = sibling_at(local.plain.as_slice(), *first)?;
    for position in below {
        plain = sibling_at(plain.kids.as_slice(), *position)?;
    }
    Some(plain)
}

// The item at a place; none where nothing is there.
fn item_at(tree: &Tree, place: &Place) -> Mem<Option<Item>>
    ensures { IfOk result (λ item. item ≡ item_at tree.now (edges_of place.now)) }
{
    let Some(node) = tree.find(&place.name) else {
        return Ok(None);
    };
    if place.path.is_empty() {
        return Ok(Some(Item {
            at: place.name.copy()?,
            is: Element::Node(node.copy()?),
        }));
    }
    match plain_at(node.local(), place.path.as_slice()) {
        Some(plain) => Ok(Some(Item {
            at: place.name.copy()?,
            is: Element::Plain(plain.copy()?),
        })),
        None => Ok(None),
    }
}

/// The items at these places, in their order. A place at which nothing is gives none.
pub fn items_at(alloc: Global, tree: &Tree, places: &[Place]) -> Mem<Vec<Item>>
    ensures { IfOk result (λ items. items.items ≡ items_at tree.now (map edges_of places.now)) }
{
    let mut items = Vec::with_capacity(alloc, places.len())?;
    for place in places {
        if let Some(item) = item_at(tree, place)? {
            items.push(item)?;
        }
    }
    Ok(items)
}

/// The compact JSON of the items that a query selects, in the order of their places.
pub fn answer(alloc: Global, tree: &Tree, query: &Query) -> Mem<Vec<u8>>
    ensures { IfOk result (λ text. text.items ≡ rendered tree.now (selected tree.now query.now)) }
{
    write_items(alloc, &evaluate_items(alloc, tree, query)?.items)
}
