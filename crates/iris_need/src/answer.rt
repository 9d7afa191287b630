//! What an evaluation answers where nothing is missing.
ghost use Rattle.std.specs.Prelude.{◌≡◌, [], IfOk};
ghost use Rattle.iris_tree.specs.Universe.{Node, label_of};
ghost use Rattle.iris_tree.specs.Items.{items_at};
ghost use Rattle.iris_xpath.specs.Meaning.{selected};
ghost use Rattle.iris_need.specs.Documents.{IsDocument, HasIdsAtNodesAlone};
ghost use Rattle.iris_need.specs.Decided.{pieces_for};
ghost use Rattle.iris_need.specs.Pieces.{AgreesWith};
ghost use Rattle.iris_need.specs.Needs.{missing_of, support_of, from_document};

use crate::evaluate::support;
use crate::held::Held;
use crate::need::Start;
use crate::view::View;
use crate::walk::room;
use iris_select::evaluate_items;
use iris_tree::{Item, Label, Mem, Name};
use iris_xpath::Query;
use std::alloc::Global;

/// The items of the places that a query selects, in the order of places, each once: in every document that
/// agrees with what the view has of what the evaluation rests on, and in which nodes alone have ids, since
/// nothing is missing from the document on. `top` is the label of its top node.
///
/// What the evaluation rests on is a document of its own: the part of the whole that it looked at. The query
/// selects there what it selects in the whole, and that is read off the part.
pub fn answer_of(alloc: Global, query: &Query, top: &Label, view: &View) -> Mem<Vec<Item>>
    requires whole { missing_of query.now (from_document top.now) view.now ≡ [] }
    ensures determined { IfOk result (λ items. (document : Node) → IsDocument document → HasIdsAtNodesAlone document → label_of document ≡ top.now → AgreesWith document (pieces_for view.now (support_of query.now (from_document top.now) view.now)) → items.items ≡ items_at document (selected document query.now)) }
{
    let needs = support(alloc, query, &Start::from_document(alloc, *top)?, view)?;
    let held = Held {
        view,
        needs: needs.as_slice(),
    };
    view.keeps_shape();
    let mut name = Name::document(alloc);
    name.push(*top)?;
    let part = held.tree_at(alloc, room(&name), *top, &mut name)?;
    Ok(evaluate_items(alloc, &part, query)?.items)
}
