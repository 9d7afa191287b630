//! What is so of the program of every query, over all of a document in which nodes alone have ids.
ghost use Rattle.std.specs.Prelude.{◌≡◌, ◌&&◌, List, [], Some, is_some, map};
ghost use Rattle.std.specs.List.{list_any};
ghost use Rattle.std.specs.List.Sorted.{IsStrictlySortedBy};
ghost use Rattle.iris_base.specs.declared.name.Label.{Label};
ghost use Rattle.iris_tree.specs.Universe.{Node, label_of, node_at};
ghost use Rattle.iris_tree.specs.Document.{Place};
ghost use Rattle.iris_tree.specs.Items.{items_at};
ghost use Rattle.iris_xpath.specs.Syntax.{Syntax, Condition, Conditions, Steps};
ghost use Rattle.iris_xpath.specs.Meaning as meaning;
ghost use Rattle.iris_xpath.specs.Looks.{Looks, query_looks};
ghost use Rattle.iris_xpath.specs.Looks as told;
ghost use Rattle.iris_xpath.specs.PlaceOrder.{place_cmp, in_place_order};
ghost use Rattle.iris_xpath.specs.Same.{HaveSame};
ghost use Rattle.iris_need.specs.Documents.{IsDocument, HasIdsAtNodesAlone};
ghost use Rattle.iris_need.specs.Found.{reached_places};
ghost use Rattle.iris_need.specs.Needs.{evaluation, looks, missing_of, full_names, from_document, extent_of_level};
ghost use Rattle.iris_need.specs.Pieces.{Pieces, view_of, Agrees};
ghost use Rattle.iris_need.specs.Placed.{placed_program, answer_of_found};
ghost use Rattle.iris_need.specs.Program.{Spot, Marks, program};
ghost use Rattle.iris_need.specs.Program as programs;
ghost use Rattle.iris_need.specs.Run.{View, run, all_of, eval};
ghost use Rattle.iris_need.specs.Spots.{place_at, IsSpot};

/// At each place, what a program tells of a condition and of the predicates of a step is what they mean
/// there, and what it finds by a path are the ends of the path. This call does nothing.
pub fn predicates_are_meant()
    ensures condition { (document : Node) (marks : Marks) → IsDocument document → HasIdsAtNodesAlone document
        → (c : Condition) (spot : Spot) → IsSpot document spot
        → eval document (programs.holds (label_of document) marks c spot) ≡ meaning.holds document c (place_at spot) }
    ensures all { (document : Node) (marks : Marks) → IsDocument document → HasIdsAtNodesAlone document
        → (cs : Conditions) (spot : Spot) → IsSpot document spot
        → eval document (programs.all_hold (label_of document) marks cs spot) ≡ meaning.all_hold document cs (place_at spot) }
    ensures ends { (document : Node) (marks : Marks) → IsDocument document → HasIdsAtNodesAlone document
        → (steps : Steps) (spot : Spot) → IsSpot document spot
        → HaveSame (eval document (programs.ends (label_of document) marks steps spot)) (meaning.ends document steps (place_at spot)) }
{}

/// The program gives the items of the places that it reaches, one after another. These are the places that
/// the query selects, though some may come several times, and not in place order. This call does nothing.
pub fn program_is_meant()
    ensures items { (document : Node) (query : Syntax) → IsDocument document
        → eval document (program query (from_document (label_of document))) ≡ items_at document (reached_places document query) }
    ensures selected { (document : Node) (query : Syntax) → IsDocument document → HasIdsAtNodesAlone document
        → in_place_order (reached_places document query) ≡ meaning.selected document query }
    ensures alone { (document : Node) (query : Syntax) (places : List Place) → IsDocument document → HasIdsAtNodesAlone document
        → IsStrictlySortedBy place_cmp places → HaveSame places (reached_places document query)
        → places ≡ meaning.selected document query }
    ensures same { (document : Node) (query : Syntax) → IsDocument document → HasIdsAtNodesAlone document
        → HaveSame (eval document (program query (from_document (label_of document)))) (items_at document (meaning.selected document query)) }
{}

/// The program that tells each item with its place gives the same items, and put in the order of the places,
/// each once, these are the items of the places that the query selects. Over every view it makes the same
/// looks, with the same states. This call does nothing.
pub fn places_are_told()
    ensures looks { (query : Syntax) (top : Label) (w : View)
        → (run w (placed_program query top)).log ≡ (run w (program query (from_document top))).log }
    ensures same { (document : Node) (query : Syntax) → IsDocument document
        → map (λ x. x.item) (eval document (placed_program query (label_of document))) ≡ eval document (program query (from_document (label_of document))) }
    ensures selected { (document : Node) (query : Syntax) → IsDocument document → HasIdsAtNodesAlone document
        → answer_of_found (eval document (placed_program query (label_of document))) ≡ items_at document (meaning.selected document query) }
{}

/// Where nothing is missing from the document on, an evaluation gives the items of the places that the
/// program reaches in each document that agrees with the view, and these places in order are what the query
/// selects there. This call does nothing.
pub fn answer_is_meant()
    ensures { (query : Syntax) (view : Pieces) (document : Node) → IsDocument document → HasIdsAtNodesAlone document → Agrees document view
        → missing_of query (from_document (label_of document)) view ≡ []
        → ((evaluation query (from_document (label_of document)) (view_of view)).value ≡ Some (items_at document (reached_places document query)))
        × (in_place_order (reached_places document query) ≡ meaning.selected document query) }
{}

/// Over all of a document an evaluation looks just where its query does: whatever looks are told by their
/// names and levels, one of them is made where the query makes one, by its steps, its predicates and the
/// places that it selects. It looks at nodes of the document alone. This call does nothing.
pub fn looks_are_meant()
    ensures looks { (document : Node) (query : Syntax) (test : Looks) → IsDocument document → HasIdsAtNodesAlone document
        → list_any (λ need. test need.name (extent_of_level need.level)) (looks query (from_document (label_of document)) (all_of document)) ≡ query_looks document test query }
    ensures nodes { (document : Node) (query : Syntax) (test : Looks) → IsDocument document → HasIdsAtNodesAlone document
        → list_any (λ need. test need.name (extent_of_level need.level)) (looks query (from_document (label_of document)) (all_of document))
        ≡ list_any (λ need. is_some (node_at document need.name) && test need.name (extent_of_level need.level)) (looks query (from_document (label_of document)) (all_of document)) }
{}

/// The names that an evaluation looks at with level Full, over all of a document, are those that its query
/// means. This call does nothing.
pub fn full_names_are_meant()
    ensures { (document : Node) (query : Syntax) → IsDocument document → HasIdsAtNodesAlone document
        → full_names query document ≡ told.full_names document query }
{}
