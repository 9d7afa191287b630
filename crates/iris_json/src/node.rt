//! The nodes of a city line.
ghost use Rattle.std.specs.Prelude.{◌≡◌, ◌<◌, length, IfOk, IfErr};
ghost use Rattle.std.specs.List.{find};
ghost use Rattle.std.specs.Str.{bytes_eq};
ghost use Rattle.serde_json.specs.Data.{object};
ghost use Rattle.serde_json.specs.View.{view, members_view};
ghost use Rattle.iris_base.specs.declared.name.Label.{Label};
ghost use Rattle.iris_tree.specs.declared.local.Local.{Local};
ghost use Rattle.iris_json.specs.declared.city.FormError.{FormError};
ghost use Rattle.iris_tree.specs.Universe.{Node};
ghost use Rattle.iris_json.specs.CityForm.{IsLocalForm, EachLocalForm};
ghost use Rattle.iris_json.specs.CityKeys.{LocalAt, LabelAt, OwnAt, IsNode, GivesCityPart};

use crate::city::FormError;
use crate::keys::{Members, has_only, text_at};
use crate::plain::{items_at, read_attrs, read_plains};
use iris_tree::{Id, Kind, Label, Local, Tree};
use serde_json::Value;
use std::alloc::Global;

// The one of these kinds that is the word.
fn kind_of(kinds: &[Kind], word: &str) -> Option<Kind>
    ensures { result ≡ find (λ kind. bytes_eq kind word.now) kinds.now }
{
    kinds.iter().copied().find(|kind| kind.as_str() == word)
}

/// The label at the keys `kind` and `id`.
pub fn read_label(kinds: &[Kind], members: &Members) -> Result<Label, FormError>
    ensures found { IfOk result (λ label. LabelAt kinds.now (object (members_view members.now.entries)) label) }
    ensures free { IfErr result (λ e. e ≡ FormError.Shape) }
    ensures only { (label : Label) → LabelAt kinds.now (object (members_view members.now.entries)) label → GivesCityPart result label }
{
    let Some(word) = text_at(members, "kind") else {
        return Err(FormError::Shape);
    };
    let Some(id) = text_at(members, "id") else {
        return Err(FormError::Shape);
    };
    let Some(kind) = kind_of(kinds, word) else {
        return Err(FormError::Shape);
    };
    match Id::new(id) {
        Ok(id) => Ok(Label { kind, id }),
        Err(_) => Err(FormError::Shape),
    }
}

// What a node holds itself.
fn read_local(alloc: Global, kinds: &[Kind], members: &Members) -> Result<Local, FormError>
    ensures found { IfOk result (λ local. LocalAt kinds.now (object (members_view members.now.entries)) local) }
    ensures form { IfOk result IsLocalForm }
    ensures only { (local : Local) → LocalAt kinds.now (object (members_view members.now.entries)) local → GivesCityPart result local }
{
    let attrs = read_attrs(alloc, members)?;
    let plain = read_plains(alloc, members)?;
    let local = Local { attrs, plain };
    if local.names_id() || local.names_kind(kinds) {
        return Err(FormError::Shape);
    }
    Ok(local)
}

// What a node is called, and what it holds itself.
fn read_own(alloc: Global, kinds: &[Kind], members: &Members) -> Result<(Label, Local), FormError>
    ensures found { IfOk result (λ own. OwnAt kinds.now (object (members_view members.now.entries)) own.0 own.1) }
    ensures form { IfOk result (λ own. IsLocalForm own.1) }
    ensures only { (label : Label) (local : Local) → OwnAt kinds.now (object (members_view members.now.entries)) label local → GivesCityPart result (label, local) }
{
    if !has_only(members, &["kind", "id", "attrs", "plain", "nodes"]) {
        return Err(FormError::Shape);
    }
    let label = read_label(kinds, members)?;
    let local = read_local(alloc, kinds, members)?;
    Ok((label, local))
}

/// The node that a value is, with all nodes below it. As `serde_json` reads no text that
/// nests deeper than 127, no more than 64 levels of nodes are read.
pub fn read_node(alloc: Global, kinds: &[Kind], value: &Value) -> Result<Tree, FormError>
    requires kinds { 0 < length kinds.now }
    ensures found { IfOk result (λ tree. IsNode kinds.now (view value.now) tree) }
    ensures form { IfOk result EachLocalForm }
    ensures only { (tree : Node) → IsNode kinds.now (view value.now) tree → GivesCityPart result tree }
{
    let Some(members) = value.as_object() else {
        return Err(FormError::Shape);
    };
    let (label, local) = read_own(alloc, kinds, members)?;
    let nodes = items_at(members, "nodes")?;
    let mut children = Vec::with_capacity(alloc, nodes.len())?;
    for node in nodes {
        children.push(read_node(alloc, kinds, node)?)?;
    }
    match Tree::with_children(label, local, children) {
        Some(tree) => Ok(tree),
        None => Err(FormError::Shape),
    }
}
