//! What the changes of a fragment come to.
ghost use Rattle.std.specs.Prelude.{◌≡◌, ℕ, true, false, List, Some, None, option_map, if◌then◌else◌};
ghost use Rattle.std.specs.Cmp.Lexicographic.{pointwise};
ghost use Rattle.iris_base.specs.declared.name.Label.{Label};
ghost use Rattle.iris_base.specs.NameOrder.{label_eq};
ghost use Rattle.iris_fragment.specs.declared.held.HeldNode.{HeldNode};
ghost use Rattle.iris_fragment.specs.declared.held.Part.{Part};
ghost use Rattle.iris_fragment.specs.declared.piece.Piece.{Piece};
ghost use Rattle.iris_fragment.specs.declared.status.Status.TheVariants as standing;
ghost use Rattle.iris_fragment.specs.Contents.{Nodes, Contents, held_at, is_held, has_place, status};
ghost use Rattle.iris_fragment.specs.Usable.{full_held};
ghost use Rattle.iris_fragment.specs.Changes.{with_node, without_node, with_part, part_in, after_taking, places_piece};
ghost use Rattle.iris_fragment.specs.Shape.{HaveRisingNames};

/// All changes of a fragment are made of three: a node put under a name, a node left out, and another part
/// put beside the ids of a held node. Each of them changes what is held under that name, as these laws say,
/// and nothing under any other. This call does nothing.
pub fn look_ups()
    ensures put { (nodes : Nodes) (name other : List Label) (node : HeldNode)
        → held_at (with_node nodes name node) other ≡ (if pointwise label_eq name other then Some node else held_at nodes other) }
    ensures left_out { (nodes : Nodes) (name other : List Label)
        → HaveRisingNames nodes
        → held_at (without_node nodes name) other ≡ (if pointwise label_eq name other then None else held_at nodes other) }
    ensures replaced { (nodes : Nodes) (name other : List Label) (part : Part)
        → held_at (with_part nodes name part) other ≡ (if pointwise label_eq name other then option_map (λ node. record { ids = node.ids; part = part }) (held_at nodes name) else held_at nodes other) }
{}

/// What `take_in` comes to. A piece whose parent is neither held nor the document changes nothing; of every
/// other the node is held then. An owned node stays as it is, whatever piece is taken in. Where a full part
/// is placed, it is the one that is held then, and where none is placed, a fragment that holds the node
/// stays as it is. This call does nothing.
pub fn taking_in()
    ensures skipped { (f : Contents) (piece : Piece)
        → has_place f.nodes piece.name ≡ false
        → after_taking f piece ≡ f }
    ensures held { (f : Contents) (piece : Piece)
        → has_place f.nodes piece.name ≡ true
        → is_held (after_taking f piece).nodes piece.name ≡ true }
    ensures owned { (f : Contents) (piece : Piece) (name : List Label)
        → status f name ≡ Some standing.Owned
        → held_at (after_taking f piece).nodes name ≡ held_at f.nodes name }
    ensures placed { (f : Contents) (piece : Piece) (now : ℕ)
        → places_piece f piece ≡ true
        → full_held (part_in (held_at (after_taking f piece).nodes piece.name)) now ≡ piece.full }
    ensures stays { (f : Contents) (piece : Piece)
        → is_held f.nodes piece.name ≡ true
        → places_piece f piece ≡ false
        → after_taking f piece ≡ f }
{}
