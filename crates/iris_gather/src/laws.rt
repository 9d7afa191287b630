//! What is so of gathers over their lives, for every query. Each function does nothing, and its clauses are
//! the laws.
ghost use Rattle.std.specs.Prelude.{◌≡◌, ◌≢◌, true, ℕ, List, [], ◌++◌, Contains, Option, Some, None};
ghost use Rattle.iris_base.specs.declared.name.Label.{Label};
ghost use Rattle.iris_fragment.specs.declared.piece.Piece.{Piece};
ghost use Rattle.iris_xpath.specs.Syntax.{Syntax};
ghost use Rattle.iris_need.specs.Decided.{IsAtLevel, pieces_for};
ghost use Rattle.iris_need.specs.Needs.{from_document, support_of};
ghost use Rattle.iris_need.specs.Pieces.{Pieces, AreNamed, pieces_in, view_of};
ghost use Rattle.iris_need.specs.Run.{Below, meets};
ghost use Rattle.iris_need.specs.declared.need.Need.{Need};
ghost use Rattle.iris_need.specs.declared.need.Start.{Start};
ghost use Rattle.iris_gather.specs.Gathers.{Gathering, need_at, opened, settled, replied, IsReplyTo, IsSoundGather, AskedOnce};
ghost use Rattle.iris_gather.specs.Verdicts.{IsVerdict, asks_of};
ghost use Rattle.iris_gather.specs.declared.parent.Parent.{Parent};
ghost use Rattle.iris_gather.specs.declared.verdict.Verdict.{Verdict};

/// A gather is opened for a client at the document, with no piece, and for an ask with the piece of the
/// start's own node, at the level that the start looks at. So it is as it is to be.
pub fn gathers_are_opened()
    ensures client { (id floor : ℕ) (query : Syntax) (top : Label) (parent : Parent)
        → IsSoundGather (opened id query floor (from_document top) None parent) }
    ensures ask { (id floor : ℕ) (query : Syntax) (start : Start) (first : Piece) (parent : Parent)
        → first.name ≡ start.name
        → IsAtLevel start.level first
        → IsSoundGather (opened id query floor start (Some first) parent) }
{}

/// A gather stays as it is to be: as it takes what a decision over a view with more than its own rests on,
/// and as it takes a reply that tells what a pending ask asked for.
pub fn gathers_go_on()
    ensures settled { (g : Gathering) (over : Pieces) (verdict : Verdict) (first : ℕ)
        → AreNamed over
        → Below (view_of g.view) (view_of over)
        → IsVerdict g.query g.start over verdict
        → IsSoundGather g
        → IsSoundGather (settled g verdict (pieces_for over (support_of g.query g.start over)) first) }
    ensures replied { (g : Gathering) (ask : ℕ) (need : Need) (pieces : List Piece)
        → need_at g.pending ask ≡ Some need
        → IsReplyTo need.name need.level pieces
        → IsSoundGather g
        → IsSoundGather (replied g ask pieces) }
{}

/// A gather asks for each name at each level at most once in its life, whatever it is laid over at its
/// decisions: `asked` is all that it asked for so far.
pub fn asks_are_made_once()
    ensures opened { (id floor : ℕ) (query : Syntax) (start : Start) (first : Option Piece) (parent : Parent)
        → AskedOnce (opened id query floor start first parent) [] }
    ensures settled { (g : Gathering) (asked : List Need) (over : Pieces) (verdict : Verdict) (pieces : List Piece) (first : ℕ)
        → g.pending ≡ []
        → Below (view_of g.view) (view_of over)
        → IsVerdict g.query g.start over verdict
        → AskedOnce g asked
        → AskedOnce (settled g verdict pieces first) (asked ++ asks_of verdict) }
    ensures replied { (g : Gathering) (asked : List Need) (ask : ℕ) (need : Need) (pieces : List Piece)
        → need_at g.pending ask ≡ Some need
        → IsReplyTo need.name need.level pieces
        → AskedOnce g asked
        → AskedOnce (replied g ask pieces) asked }
{}

/// A gather that takes a reply meets what was asked. All pieces of its view together reply to the ask that it
/// was opened for.
pub fn replies_tell_what_was_asked()
    ensures met { (g : Gathering) (ask : ℕ) (need : Need) (pieces : List Piece)
        → IsReplyTo need.name need.level pieces
        → meets (view_of (replied g ask pieces).view) need ≡ true }
    ensures replies { (g : Gathering)
        → g.start.name ≢ []
        → IsSoundGather g
        → IsReplyTo g.start.name g.start.level (pieces_in g.view) }
{}
