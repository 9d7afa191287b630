//! Laws of the definitions. Each function does nothing, and its clauses are the laws.
ghost use Rattle.std.specs.Prelude.{◌≡◌, List, [], ◌∷◌, is_some, true};
ghost use Rattle.std.specs.List.{All, list_any};
ghost use Rattle.std.specs.Map.{keys_of};
ghost use Rattle.std.specs.Cmp.Lexicographic.{pointwise};
ghost use Rattle.iris_base.specs.declared.name.Label.{Label};
ghost use Rattle.iris_base.specs.NameOrder.{label_eq};
ghost use Rattle.iris_base.specs.Under.{Under};
ghost use Rattle.iris_tree.specs.Universe.{Node, label_of, node_at};
ghost use Rattle.iris_tree.specs.Document.{name_of};
ghost use Rattle.iris_xpath.specs.Syntax.{Syntax};
ghost use Rattle.iris_xpath.specs.Anchor.{LcaName};
ghost use Rattle.iris_xpath.specs.Meaning.{selected};
ghost use Rattle.iris_route.specs.Titles.{Titles, top_name};
ghost use Rattle.iris_route.specs.Start.{Places, start_owner, IsNearestPlaced};
ghost use Rattle.iris_route.specs.Routes.{nearest_name};

/// Where the top node is placed, the owner of each node at the start is the agent of the nearest placed
/// name at or above it.
pub fn owner_is_nearest_placed()
    ensures { (place : Places) (top : Label) (below : List Label) → list_any (pointwise label_eq (top ∷ [])) (keys_of place) ≡ true → IsNearestPlaced place (top ∷ below) (start_owner place (top ∷ below)) }
{}

/// Each node that a query selects, and the node of each plain element that it selects, lies at or below the
/// query's route.
pub fn selected_lies_under_route()
    ensures { (document : Node) (query : Syntax) (name : List Label) (titles : Titles)
        → LcaName query name
        → top_name titles ≡ label_of document ∷ []
        → All (λ place. is_some (node_at document (name_of place)) ≡ true → Under (name_of place) (nearest_name titles name)) (selected document query) }
{}
