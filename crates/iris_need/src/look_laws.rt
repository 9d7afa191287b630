//! What an evaluation depends on, and where it looks, for every query, every start and every view.
ghost use Rattle.std.specs.Prelude.{◌≡◌, ◌≢◌, ◌⊎◌, true, List, [], All, Contains, IsSome};
ghost use Rattle.iris_base.specs.declared.name.Label.{Label};
ghost use Rattle.iris_tree.specs.Universe.{Node, node_at};
ghost use Rattle.iris_fragment.specs.declared.piece.Level.{Level};
ghost use Rattle.iris_fragment.specs.declared.piece.Level.TheVariants.{Ids, Full};
ghost use Rattle.iris_fragment.specs.declared.piece.Piece.{Piece};
ghost use Rattle.iris_fragment.specs.Shape.{IsPieceOf};
ghost use Rattle.iris_xpath.specs.Syntax.{Syntax};
ghost use Rattle.iris_need.specs.declared.need.Need.{Need};
ghost use Rattle.iris_need.specs.declared.need.Start.{Start};
ghost use Rattle.iris_need.specs.Alike.{AreAlike, Reaches, IsCoveredBy};
ghost use Rattle.iris_need.specs.Decided.{IsAtLevel, decided, full_part_at, IsPartOfView};
ghost use Rattle.iris_need.specs.Descents.{IsAtStart, IsBelowMet, HasAbove, IsStartIn};
ghost use Rattle.iris_need.specs.Laws.{look_at_start};
ghost use Rattle.iris_need.specs.Needs.{seen_from, evaluation, looks, is_missing, missing_in, support_in, missing_of, support_of};
ghost use Rattle.iris_need.specs.Pieces.{Pieces, AreNamed, Agrees, piece_at, view_of, laid_over};
ghost use Rattle.iris_need.specs.Run.{View, Below, meets_known, meets};

/// An evaluation depends on nothing but what it looks at: over a view that is alike there it is the same,
/// and so are what is missing and what it rests on. Where nothing is missing, what it rests on alone decides.
/// This call does nothing.
pub fn looks_decide()
    ensures evaluation { (query : Syntax) (start : Start) (w v : View)
        → AreAlike w v (looks query start w)
        → evaluation query start v ≡ evaluation query start w }
    ensures missing { (query : Syntax) (start : Start) (w v : View)
        → AreAlike w v (looks query start w)
        → missing_in query start v ≡ missing_in query start w }
    ensures support { (query : Syntax) (start : Start) (w v : View)
        → AreAlike w v (looks query start w)
        → support_in query start v ≡ support_in query start w }
    ensures by_support { (query : Syntax) (start : Start) (w v : View)
        → missing_in query start w ≡ []
        → AreAlike w v (support_in query start w)
        → evaluation query start v ≡ evaluation query start w }
{}

/// No look is lost where looks are merged by name: one that is met is covered by what the evaluation rests
/// on, and one that is not, at or under the start's name, by what is missing. This call does nothing.
pub fn looks_are_covered()
    ensures met { (query : Syntax) (start : Start) (w : View) (look : Need)
        → Contains (looks query start w) look
        → meets (seen_from start.name w) look ≡ true
        → IsCoveredBy (support_in query start w) look }
    ensures unmet { (query : Syntax) (start : Start) (w : View) (look : Need)
        → Contains (looks query start w) look
        → is_missing start w look ≡ true
        → IsCoveredBy (missing_in query start w) look }
{}

/// Each look is at the start's name, above it, at the top node, or right below a node at which a look is
/// met. None is at the document. This call does nothing.
pub fn looks_descend()
    ensures from_start { (query : Syntax) (start : Start) (w : View) (look : Need)
        → Contains (looks query start w) look
        → IsAtStart start look.name ⊎ IsBelowMet (seen_from start.name w) (looks query start w) look.name }
    ensures never_the_document { (query : Syntax) (start : Start) (w : View) (look : Need)
        → Contains (looks query start w) look
        → look.name ≢ [] }
{}

/// What is missing are nodes of each document that has the start, and the ids of all pieces: nothing is
/// asked for that isn't there. This call does nothing.
pub fn missing_exists()
    ensures pieces { (document : Node) (query : Syntax) (start : Start) (view : Pieces)
        → IsStartIn document start
        → AreNamed view
        → All (λ entry. IsPieceOf document entry.1) view
        → All (λ need. IsSome (node_at document need.name)) (missing_of query start view) }
    ensures agreed { (document : Node) (query : Syntax) (start : Start) (view : Pieces)
        → IsStartIn document start
        → Agrees document view
        → All (λ need. IsSome (node_at document need.name)) (missing_of query start view) }
{}

/// What is missing over a view. As soon as another view took what the evaluation rests on, each missing need
/// is for the start's own name, for the top node, or for a child of a node that this view has. At the start's
/// own name only the full part is ever missing, and only where the start itself looks at the ids, if part of
/// the view meets the start's look. What part of the view meets is not missing. This call does nothing.
pub fn missing_descends()
    ensures above { (query : Syntax) (start : Start) (view over : Pieces) (need : Need)
        → AreNamed over
        → Contains (missing_of query start over) need
        → HasAbove (decided query start over view) start need.name }
    ensures own { (query : Syntax) (start : Start) (view over : Pieces) (need : Need)
        → (start.name ≢ [] → meets (view_of view) (look_at_start start) ≡ true)
        → Below (view_of view) (view_of over)
        → Contains (missing_of query start over) need
        → need.name ≡ start.name
        → (need.level ≡ Full) × (start.level ≡ Ids) }
    ensures once { (query : Syntax) (start : Start) (view over : Pieces) (asked need : Need)
        → Below (view_of view) (view_of over)
        → meets (view_of view) asked ≡ true
        → Contains (missing_of query start over) need
        → need.name ≡ asked.name
        → Reaches asked.level need.level
        → ⊥ }
{}

/// What a view has stays, whatever pieces are added; an added piece is met; and what is there was there
/// before, or was added. This call does nothing.
pub fn views_grow()
    ensures stays { (view : Pieces) (pieces : List Piece) → Below (view_of view) (view_of (laid_over pieces view)) }
    ensures met { (view : Pieces) (pieces : List Piece) (piece : Piece) (level : Level)
        → Contains pieces piece
        → IsAtLevel level piece
        → meets_known level (view_of (laid_over pieces view) piece.name) ≡ true }
    ensures came { (view : Pieces) (pieces : List Piece) (name : List Label)
        → IsSome (piece_at (laid_over pieces view) name)
        → IsSome (piece_at view name) ⊎ ((piece : Piece) × Contains pieces piece × (piece.name ≡ name)) }
{}

/// A view that took what an evaluation over another one rests on tells the same as that one, of which it is
/// part: the evaluation, what is missing, what it rests on, and the version and the stamp of each node that it
/// rests on in full. This call does nothing.
pub fn views_are_enough()
    ensures part { (view : Pieces) (pieces : List Piece) → IsPartOfView view (laid_over pieces view) }
    ensures evaluation { (query : Syntax) (start : Start) (view over : Pieces)
        → AreNamed over
        → IsPartOfView view over
        → evaluation query start (view_of (decided query start over view)) ≡ evaluation query start (view_of over) }
    ensures missing { (query : Syntax) (start : Start) (view over : Pieces)
        → AreNamed over
        → IsPartOfView view over
        → missing_of query start (decided query start over view) ≡ missing_of query start over }
    ensures support { (query : Syntax) (start : Start) (view over : Pieces)
        → AreNamed over
        → IsPartOfView view over
        → support_of query start (decided query start over view) ≡ support_of query start over }
    ensures full { (query : Syntax) (start : Start) (view over : Pieces) (need : Need)
        → AreNamed over
        → IsPartOfView view over
        → Contains (support_of query start over) need
        → need.level ≡ Full
        → full_part_at (decided query start over view) need.name ≡ full_part_at over need.name }
{}
