//! What an evaluation asks for lies deeper than its start.
ghost use Rattle.std.specs.Prelude.{◌≡◌, ◌≢◌, true, [], map, All};
ghost use Rattle.iris_fragment.specs.Shape.{IsPieceOf};
ghost use Rattle.iris_need.specs.declared.need.Start.{Start};
ghost use Rattle.iris_need.specs.Descents.{IsStartIn};
ghost use Rattle.iris_need.specs.Laws.{look_at_start};
ghost use Rattle.iris_need.specs.Needs.{missing_of};
ghost use Rattle.iris_need.specs.Pieces.{Pieces, AreNamed, view_of};
ghost use Rattle.iris_need.specs.Run.{meets};
ghost use Rattle.iris_protocol.specs.Good.{Fits};
ghost use Rattle.iris_runs.specs.Depths.{AreWithinLabels};
ghost use Rattle.iris_runs.specs.Letters.{need_of, rank_of};
ghost use Rattle.iris_tree.specs.Universe.{Node};
ghost use Rattle.iris_xpath.specs.Syntax.{Syntax};

/// What an evaluation misses lies below its start, each node once. This call does nothing.
pub fn what_is_missing_lies_deeper()
    ensures { (document : Node) (query : Syntax) (start : Start) (view : Pieces)
        → AreWithinLabels document
        → IsStartIn document start
        → AreNamed view
        → All (λ entry. IsPieceOf document entry.1) view
        → (start.name ≢ [] → meets (view_of view) (look_at_start start) ≡ true)
        → Fits (rank_of start) (map need_of (missing_of query start view)) }
{}
