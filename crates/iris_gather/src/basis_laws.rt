//! Once a gather took what its decision rests on, its own view tells the same.
ghost use Rattle.std.specs.Prelude.{◌≡◌, ℕ};
ghost use Rattle.iris_fragment.specs.Contents.{Contents};
ghost use Rattle.iris_xpath.specs.Syntax.{Syntax};
ghost use Rattle.iris_need.specs.declared.need.Start.{Start};
ghost use Rattle.iris_need.specs.Decided.{decided};
ghost use Rattle.iris_need.specs.Needs.{missing_of, support_of};
ghost use Rattle.iris_need.specs.Pieces.{Pieces, AreNamed};
ghost use Rattle.iris_gather.specs.Basis.{cites_of};
ghost use Rattle.iris_gather.specs.Laid.{laid};

/// A gather's view, once it took the pieces of its decision over the laid view, tells the same as that one,
/// without the fragment: what is missing, what the decision rests on, and its cites, with the versions and
/// the stamps of the moment of the decision. So it may decide and answer again whatever becomes of the
/// fragment. This call does nothing.
pub fn decisions_stand()
    ensures missing { (query : Syntax) (start : Start) (f : Contents) (floor now : ℕ) (view : Pieces)
        → AreNamed view
        → missing_of query start (decided query start (laid f floor now view) view) ≡ missing_of query start (laid f floor now view) }
    ensures support { (query : Syntax) (start : Start) (f : Contents) (floor now : ℕ) (view : Pieces)
        → AreNamed view
        → support_of query start (decided query start (laid f floor now view) view) ≡ support_of query start (laid f floor now view) }
    ensures cites { (query : Syntax) (start : Start) (f : Contents) (floor now : ℕ) (view : Pieces)
        → AreNamed view
        → cites_of query start (decided query start (laid f floor now view) view) ≡ cites_of query start (laid f floor now view) }
{}
