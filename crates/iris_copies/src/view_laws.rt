//! Views of fresh copies.
ghost use Rattle.std.specs.Prelude.{ℕ, ◌≤◌, List, []};
ghost use Rattle.iris_fragment.specs.Contents.{Contents};
ghost use Rattle.iris_fragment.specs.declared.piece.Piece.{Piece};
ghost use Rattle.iris_xpath.specs.Syntax.{Syntax};
ghost use Rattle.iris_book.specs.Book.{History};
ghost use Rattle.iris_need.specs.Decided.{pieces_for, decided};
ghost use Rattle.iris_need.specs.Pieces.{Pieces, pieces_in, with_piece, laid_over};
ghost use Rattle.iris_need.specs.declared.need.Need.{Need};
ghost use Rattle.iris_need.specs.declared.need.Start.{Start};
ghost use Rattle.iris_gather.specs.Laid.{laid};
ghost use Rattle.iris_copies.specs.Copies.{IsPresent, GoesOn, IsCopy, IsFresh, AreCopies, AreFresh, HoldsCopies};
ghost use Rattle.iris_copies.specs.Views.{IsView};

/// The empty view is one of fresh copies. Such a view takes further fresh copies, and stays one: those of a
/// reply, what a fragment has that is usable, and what an evaluation over another such view rests on. This
/// call does nothing.
pub fn views_take_copies()
    ensures nothing { (h : History) (now floor : ℕ) → IsView h now floor [] }
    ensures piece { (h : History) (now floor : ℕ) (view : Pieces) (piece : Piece)
        → IsCopy h now piece
        → IsFresh floor piece
        → IsView h now floor view
        → IsView h now floor (with_piece view piece) }
    ensures pieces { (h : History) (now floor : ℕ) (view : Pieces) (pieces : List Piece)
        → AreCopies h now pieces
        → AreFresh floor pieces
        → IsView h now floor view
        → IsView h now floor (laid_over pieces view) }
    ensures laid { (h : History) (now floor : ℕ) (f : Contents) (view : Pieces)
        → floor ≤ now
        → IsPresent h now
        → HoldsCopies h now f
        → IsView h now floor view
        → IsView h now floor (laid f floor now view) }
    ensures decided { (h : History) (now floor : ℕ) (query : Syntax) (start : Start) (over view : Pieces)
        → IsView h now floor over
        → IsView h now floor view
        → IsView h now floor (decided query start over view) }
{}

/// What a view of fresh copies has are fresh copies: all its pieces, and those of some needs. This call does
/// nothing.
pub fn views_are_copies()
    ensures copies { (h : History) (now floor : ℕ) (view : Pieces) → IsView h now floor view → AreCopies h now (pieces_in view) }
    ensures fresh { (h : History) (now floor : ℕ) (view : Pieces) → IsView h now floor view → AreFresh floor (pieces_in view) }
    ensures copies_for { (h : History) (now floor : ℕ) (view : Pieces) (needs : List Need) → IsView h now floor view → AreCopies h now (pieces_for view needs) }
    ensures fresh_for { (h : History) (now floor : ℕ) (view : Pieces) (needs : List Need) → IsView h now floor view → AreFresh floor (pieces_for view needs) }
{}

/// A view of fresh copies stays one as the book and the moment go on, and copies stay copies. This call does
/// nothing.
pub fn views_stay()
    ensures view { (h : History) (now : ℕ) (next : History) (at floor : ℕ) (view : Pieces)
        → GoesOn h now next at
        → IsView h now floor view
        → IsView next at floor view }
    ensures copies { (h : History) (now : ℕ) (next : History) (at : ℕ) (pieces : List Piece)
        → GoesOn h now next at
        → AreCopies h now pieces
        → AreCopies next at pieces }
{}
