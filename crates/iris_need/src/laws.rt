//! What is so of needs and of evaluations, for every query and every view.
ghost use Rattle.std.specs.Prelude.{◌≡◌, true, false, [], Some, Contains};
ghost use Rattle.iris_tree.specs.Universe.{Node, label_of};
ghost use Rattle.iris_xpath.specs.Syntax.{Syntax};
ghost use Rattle.iris_need.specs.declared.need.Need.{Need};
ghost use Rattle.iris_need.specs.declared.need.Start.{Start};
ghost use Rattle.iris_need.specs.Run.{all_of, eval, meets};
ghost use Rattle.iris_need.specs.Program.{program};
ghost use Rattle.iris_need.specs.Pieces.{Pieces, view_of, Agrees};
ghost use Rattle.iris_need.specs.Needs.{is_under, evaluation, looks, missing_of, support_of, full_part, full_names, from_document};
ghost use Rattle.iris_need.specs.Laws.{AreOrderedNeeds, HasLook, IsOpenAtStart};

/// What is missing, and what an evaluation rests on, stand in the order of names, each name once. This call
/// does nothing.
pub fn needs_are_ordered()
    ensures missing { (query : Syntax) (start : Start) (view : Pieces) → AreOrderedNeeds (missing_of query start view) }
    ensures support { (query : Syntax) (start : Start) (view : Pieces) → AreOrderedNeeds (support_of query start view) }
{}

/// What is missing is needed whatever the rest of the document is: over all of every document that agrees
/// with the view, an evaluation from the same start looks at that node, at that level. This call does
/// nothing.
pub fn undecided_is_real_work()
    ensures { (query : Syntax) (start : Start) (view : Pieces) (document : Node)
        → Agrees document view
        → (need : Need) → Contains (missing_of query start view) need
        → HasLook (looks query start (all_of document)) need.name need.level }
{}

/// Where it lies. What is missing is not met by the view, and is at or under the start's name. At that name
/// itself it is what the start's own look leaves open. This call does nothing.
pub fn missing_lies()
    ensures unmet { (query : Syntax) (start : Start) (view : Pieces) (need : Need)
        → Contains (missing_of query start view) need
        → meets (view_of view) need ≡ false }
    ensures under { (query : Syntax) (start : Start) (view : Pieces) (need : Need)
        → Contains (missing_of query start view) need
        → is_under need.name start.name ≡ true }
    ensures here { (query : Syntax) (start : Start) (view : Pieces) (need : Need)
        → Contains (missing_of query start view) need
        → need.name ≡ start.name
        → IsOpenAtStart start view need }
{}

/// Where nothing is missing from the document on, the evaluation is the same over the view as over all of
/// every document that agrees with it: it looks at the same nodes, and it gives what the query's program
/// gives where nothing lacks. This call does nothing.
pub fn answer_is_determined()
    ensures same { (query : Syntax) (view : Pieces) (document : Node)
        → Agrees document view
        → missing_of query (from_document (label_of document)) view ≡ []
        → evaluation query (from_document (label_of document)) (view_of view) ≡ evaluation query (from_document (label_of document)) (all_of document) }
    ensures decided { (query : Syntax) (view : Pieces) (document : Node)
        → Agrees document view
        → missing_of query (from_document (label_of document)) view ≡ []
        → (evaluation query (from_document (label_of document)) (view_of view)).value ≡ Some (eval document (program query (from_document (label_of document)))) }
{}

/// Where nothing is missing from the document on, the names that the evaluation rests on at level Full are
/// those that the query looks into over all of every document that agrees with the view. This call does
/// nothing.
pub fn support_has_full_names()
    ensures { (query : Syntax) (view : Pieces) (document : Node)
        → Agrees document view
        → missing_of query (from_document (label_of document)) view ≡ []
        → full_part (support_of query (from_document (label_of document)) view) ≡ full_names query document }
{}
