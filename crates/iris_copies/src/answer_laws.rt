//! Answers that rest on fresh copies are allowed.
ghost use Rattle.std.specs.Prelude.{◌≡◌, ℕ, ◌≤◌, List, [], map};
ghost use Rattle.std.specs.Cmp.Lexicographic.{slice_cmp};
ghost use Rattle.std.specs.List.Sorted.{IsStrictlySortedBy};
ghost use Rattle.iris_base.specs.NameOrder.{label_cmp};
ghost use Rattle.iris_tree.specs.Universe.{label_of};
ghost use Rattle.iris_tree.specs.declared.item.Item.{Item};
ghost use Rattle.iris_fragment.specs.Contents.{Contents};
ghost use Rattle.iris_xpath.specs.Syntax.{Syntax};
ghost use Rattle.iris_book.specs.Book.{History};
ghost use Rattle.iris_need.specs.Decided.{pieces_for};
ghost use Rattle.iris_need.specs.Needs.{evaluation, missing_of, support_of, from_document};
ghost use Rattle.iris_need.specs.Pieces.{Pieces, view_of};
ghost use Rattle.iris_need.specs.Run.{all_of};
ghost use Rattle.iris_need.specs.declared.need.Need.{Need};
ghost use Rattle.iris_gather.specs.Basis.{cites_of};
ghost use Rattle.iris_gather.specs.Laid.{laid};
ghost use Rattle.iris_gather.specs.Verdicts.{AreDetermined, IsDone};
ghost use Rattle.iris_copies.specs.Allowed.{AreCites, IsAllowed};
ghost use Rattle.iris_copies.specs.Cited.{document_of_cites};
ghost use Rattle.iris_copies.specs.Copies.{IsPresent, HoldsCopies};
ghost use Rattle.iris_copies.specs.Views.{IsView};

/// Where nothing is missing from the document on over a view of fresh copies, the items that are determined
/// by what the evaluation rests on are, with the cites of that, an allowed answer. So it is for every query.
/// This call does nothing.
pub fn answers_are_allowed()
    ensures { (h : History) (now floor : ℕ) (query : Syntax) (view : Pieces) (items : List Item)
        → IsPresent h now
        → IsView h now floor view
        → missing_of query (from_document (label_of h.start)) view ≡ []
        → AreDetermined query (label_of h.start) (pieces_for view (support_of query (from_document (label_of h.start)) view)) items
        → IsAllowed h now floor query items (cites_of query (from_document (label_of h.start)) view) }
{}

/// What is done from the document on over a view of fresh copies, laid over a fragment of copies, is an allowed
/// answer. This call does nothing.
pub fn decisions_are_allowed()
    ensures { (h : History) (now floor : ℕ) (f : Contents) (query : Syntax) (view : Pieces) (support : List Need) (items : List Item)
        → floor ≤ now
        → IsPresent h now
        → HoldsCopies h now f
        → IsView h now floor view
        → IsDone query (from_document (label_of h.start)) (laid f floor now view) support items
        → IsAllowed h now floor query items (cites_of query (from_document (label_of h.start)) (laid f floor now view)) }
{}

/// Where nothing is missing from the document on over a view of fresh copies, the cites are in order, whatever
/// the items: they rise by their names, so each node is cited once; and the evaluation is the same over all of
/// the document of the cites. This call does nothing.
pub fn cites_are_in_order()
    ensures cites { (h : History) (now floor : ℕ) (query : Syntax) (view : Pieces)
        → IsPresent h now
        → IsView h now floor view
        → missing_of query (from_document (label_of h.start)) view ≡ []
        → AreCites h now floor query (cites_of query (from_document (label_of h.start)) view) }
    ensures names { (h : History) (now floor : ℕ) (query : Syntax) (view : Pieces)
        → IsPresent h now
        → IsView h now floor view
        → missing_of query (from_document (label_of h.start)) view ≡ []
        → IsStrictlySortedBy (slice_cmp label_cmp) (map (λ c. c.name) (cites_of query (from_document (label_of h.start)) view)) }
    ensures same { (h : History) (now floor : ℕ) (query : Syntax) (view : Pieces)
        → IsPresent h now
        → IsView h now floor view
        → missing_of query (from_document (label_of h.start)) view ≡ []
        → evaluation query (from_document (label_of h.start)) (all_of (document_of_cites h (cites_of query (from_document (label_of h.start)) view))) ≡ evaluation query (from_document (label_of h.start)) (view_of view) }
{}
