//! Nodes among their siblings, which stand in the order of their labels.
ghost use Rattle.std.specs.Prelude.{◌≡◌, ◌<◌, length, slice_index_or, None, Some, IfOk, IfErr, MatchOption};
ghost use Rattle.std.specs.List.Sorted.{IsStrictlySortedBy};
ghost use Rattle.iris_base.specs.NameOrder.{label_cmp};
ghost use Rattle.iris_tree.specs.Universe.{Node, labels_of, child_of};

use iris_tree::{Label, Tree};

/// Where the node with that label stands among siblings.
pub fn search(siblings: &[Tree], label: &Label) -> Result<usize, usize>
    requires { IsStrictlySortedBy label_cmp (labels_of siblings.now) }
    ensures found { IfOk result (λ at. (at < length siblings.now) × ((d : Node) → child_of label.now siblings.now ≡ Some (slice_index_or siblings.now at d))) }
    ensures absent { IfErr result (λ at. child_of label.now siblings.now ≡ None) }
{
    siblings.binary_search_by(|node| node.label().cmp(label))
}

/// Where the node with that label stands among siblings. It is sought at the position `likely` first.
pub fn position(siblings: &[Tree], label: &Label, likely: usize) -> Option<usize>
    requires { IsStrictlySortedBy label_cmp (labels_of siblings.now) }
    ensures { MatchOption result (child_of label.now siblings.now ≡ None) (λ at. (at < length siblings.now) × ((d : Node) → child_of label.now siblings.now ≡ Some (slice_index_or siblings.now at d))) }
{
    if likely < siblings.len() && siblings[likely].label() == label {
        return Some(likely);
    }
    match search(siblings, label) {
        Ok(at) => Some(at),
        Err(_) => None,
    }
}
