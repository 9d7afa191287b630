//! Nodes and the items of an answer, written as JSON.
ghost use Rattle.std.specs.Prelude.{◌≡◌, ◌++◌, OnOk, IfOk};
ghost use Rattle.serde_json.specs.Written.{compact_text};
ghost use Rattle.iris_tree.specs.LocalText.{value_tokens};
ghost use Rattle.iris_tree.specs.Universe.{IsOrdered};
ghost use Rattle.iris_json.specs.Render.{node_data, node_front, element_data, item_data, items_data};

use iris_tree::{Element, Item, JsonText, Mem, Tree, name_text};
use std::alloc::Global;

/// Writes the front of a node: the keys `attrs`, `id`, `kind`, and the beginning of the list at `nodes`.
pub fn begin_node(tree: &Tree, out: &mut JsonText) -> Mem<()>
    ensures { OnOk result (out.new ≡ out.old ++ node_front tree.now) }
{
    out.begin_object()?;
    out.key("attrs")?;
    tree.local().attrs.write(out)?;
    out.key("id")?;
    out.string(tree.label().id.as_str())?;
    out.key("kind")?;
    out.string(tree.label().kind.as_str())?;
    out.key("nodes")?;
    out.begin_array()?;
    Ok(())
}

/// Writes a node with all below it: the keys `attrs`, `id`, `kind`, `nodes`, `plain`, the nodes in the
/// order of their labels.
pub fn put_tree(tree: &Tree, out: &mut JsonText) -> Mem<()>
    ensures ordered { OnOk result (IsOrdered tree.now) }
    ensures text { OnOk result (out.new ≡ out.old ++ value_tokens (node_data tree.now)) }
{
    begin_node(tree, out)?;
    for node in tree.children() {
        put_tree(node, out)?;
    }
    out.end_array()?;
    out.key("plain")?;
    out.begin_array()?;
    for element in tree.local().plain.as_slice() {
        element.write(out)?;
    }
    out.end_array()?;
    out.end_object()?;
    Ok(())
}

// Writes a node or a plain element, as each is written.
#[tactic(auto, unfolding(iris_tree::specs::LocalText::value_tokens))]
fn put_element(element: &Element, out: &mut JsonText) -> Mem<()>
    ensures { OnOk result (out.new ≡ out.old ++ value_tokens (element_data element.now)) }
{
    match element {
        Element::Node(tree) => put_tree(tree, out),
        Element::Plain(plain) => plain.write(out),
    }
}

// Writes an item: the keys `at` and `is`.
#[tactic(auto, using(crate::proofs::Written::item_written, std::proofs::lemmas::List::append_assoc))]
fn put_item(alloc: Global, item: &Item, out: &mut JsonText) -> Mem<()>
    ensures { OnOk result (out.new ≡ out.old ++ value_tokens (item_data item.now)) }
{
    let at = name_text(alloc, &item.at)?;
    out.begin_object()?;
    out.key("at")?;
    out.string(at.as_str())?;
    out.key("is")?;
    put_element(&item.is, out)?;
    out.end_object()?;
    Ok(())
}

/// Writes a list of items.
pub fn put_items(alloc: Global, items: &[Item], out: &mut JsonText) -> Mem<()>
    ensures { OnOk result (out.new ≡ out.old ++ value_tokens (items_data items.now)) }
{
    out.begin_array()?;
    for item in items {
        put_item(alloc, item, out)?;
    }
    out.end_array()?;
    Ok(())
}

/// The compact text of a node with all below it, as `{"attrs":{},"id":"1","kind":"space","nodes":[],
/// "plain":[]}`.
#[tactic(auto, using(iris_tree::proofs::ValueTokens::printed))]
pub fn write_tree(alloc: Global, tree: &Tree) -> Mem<Vec<u8>>
    ensures { IfOk result (λ text. text.items ≡ compact_text (node_data tree.now)) }
{
    let mut out = JsonText::new(alloc);
    put_tree(tree, &mut out)?;
    Ok(out.into_bytes())
}

/// The compact text of a list of items, each `{"at":NAME,"is":ELEMENT}`.
#[tactic(auto, using(iris_tree::proofs::ValueTokens::printed))]
pub fn write_items(alloc: Global, items: &[Item]) -> Mem<Vec<u8>>
    ensures { IfOk result (λ text. text.items ≡ compact_text (items_data items.now)) }
{
    let mut out = JsonText::new(alloc);
    put_items(alloc, items, &mut out)?;
    Ok(out.into_bytes())
}
