//! Fragments and caches hold copies.
ghost use Rattle.std.specs.Prelude.{◌≡◌, ℕ, ◌≤◌, List, [], Some, IsSome, IfSome};
ghost use Rattle.iris_base.specs.declared.name.Label.{Label};
ghost use Rattle.iris_tree.specs.Universe.{label_of};
ghost use Rattle.iris_tree.specs.declared.change.Change.{Change};
ghost use Rattle.iris_tree.specs.declared.local.Local.{Local};
ghost use Rattle.iris_fragment.specs.Changes.{version_at, after_taking, evicted, owned, renewed, released};
ghost use Rattle.iris_fragment.specs.Contents.{Contents};
ghost use Rattle.iris_fragment.specs.Shape.{IsPieceOf};
ghost use Rattle.iris_fragment.specs.Usable.{held_piece, usable_pieces};
ghost use Rattle.iris_fragment.specs.declared.piece.Level.{Level};
ghost use Rattle.iris_fragment.specs.declared.piece.Piece.{Piece};
ghost use Rattle.iris_book.specs.Book.{History, with_entry, MayBeEntered};
ghost use Rattle.iris_book.specs.Entering.{without_answers};
ghost use Rattle.iris_book.specs.declared.entry.Entry.{Entry};
ghost use Rattle.iris_book.specs.declared.entry.Entry.TheVariants.{Updated};
ghost use Rattle.iris_cache.specs.Recency.{Cache, evicted_from, last_evicted, trimmed, taken_all, touched, owned_in, released_in};
ghost use Rattle.iris_copies.specs.Copies.{IsPresent, ComesAt, IsCopy, AreCopies, AreFresh, IsNewest, HoldsCopies, IsElsewhere};

/// What a fragment holds stays so, whatever is done to it. A node is owned with its newest value, and as it
/// is released a copy stays that is stamped with the present moment. This call does nothing.
pub fn fragments_hold_copies()
    ensures nothing { (h : History) (now : ℕ) → HoldsCopies h now (record { top = label_of h.start; nodes = [] }) }
    ensures taken { (h : History) (now : ℕ) (f : Contents) (piece : Piece)
        → IsCopy h now piece
        → HoldsCopies h now f
        → HoldsCopies h now (after_taking f piece) }
    ensures evicted { (h : History) (now : ℕ) (f : Contents) (name : List Label)
        → HoldsCopies h now f
        → HoldsCopies h now (evicted f name) }
    ensures owned { (h : History) (now : ℕ) (f : Contents) (piece : Piece)
        → IsPieceOf h.start piece
        → IfSome piece.full (λ full. IsNewest h piece.name full.local full.version)
        → HoldsCopies h now f
        → HoldsCopies h now (owned f piece) }
    ensures released { (h : History) (now : ℕ) (f : Contents) (name : List Label)
        → IsPresent h now
        → HoldsCopies h now f
        → HoldsCopies h now (released f name now) }
{}

/// The same with the order of use, in which copies are evicted where there are too many. This call does
/// nothing.
pub fn caches_hold_copies()
    ensures taken { (h : History) (now : ℕ) (c : Cache) (pieces : List Piece)
        → AreCopies h now pieces
        → HoldsCopies h now c.contents
        → HoldsCopies h now (taken_all c pieces).contents }
    ensures touched { (h : History) (now : ℕ) (c : Cache) (name : List Label)
        → HoldsCopies h now c.contents
        → HoldsCopies h now (touched c name).contents }
    ensures evicted { (h : History) (now : ℕ) (c : Cache) (name : List Label)
        → HoldsCopies h now c.contents
        → HoldsCopies h now (evicted_from c name).contents }
    ensures last_evicted { (h : History) (now : ℕ) (c : Cache)
        → HoldsCopies h now c.contents
        → HoldsCopies h now (last_evicted c).contents }
    ensures trimmed { (h : History) (now : ℕ) (c : Cache)
        → HoldsCopies h now c.contents
        → HoldsCopies h now (trimmed c).contents }
    ensures owned { (h : History) (now : ℕ) (c : Cache) (piece : Piece)
        → IsPieceOf h.start piece
        → IfSome piece.full (λ full. IsNewest h piece.name full.local full.version)
        → HoldsCopies h now c.contents
        → HoldsCopies h now (owned_in c piece).contents }
    ensures released { (h : History) (now : ℕ) (c : Cache) (name : List Label)
        → IsPresent h now
        → HoldsCopies h now c.contents
        → HoldsCopies h now (released_in c name now).contents }
{}

/// What a fragment holds stays so as time passes and as the book grows. An update that is entered is one of a
/// node that the fragment does not own, or the fragment gets its value. This call does nothing.
pub fn fragments_stay()
    ensures later { (h : History) (now at : ℕ) (f : Contents)
        → now ≤ at
        → HoldsCopies h now f
        → HoldsCopies h at f }
    ensures entry { (h : History) (now : ℕ) (e : Entry) (f : Contents)
        → ComesAt now e
        → IsElsewhere f e
        → HoldsCopies h now f
        → HoldsCopies (with_entry h e) now f }
    ensures renewed { (h : History) (now : ℕ) (name : List Label) (number : ℕ) (changes : List Change) (local : Local) (f : Contents)
        → IsPresent h now
        → MayBeEntered h (Updated name number changes local now)
        → HoldsCopies h now f
        → HoldsCopies (with_entry h (Updated name number changes local now)) now (renewed f name local) }
    ensures forgotten { (h : History) (now : ℕ) (f : Contents)
        → HoldsCopies h now f
        → HoldsCopies (without_answers h) now f }
{}

/// The usable pieces of a fragment are copies, with stamps at or after the floor. This call does nothing.
pub fn usable_pieces_are_copies()
    ensures copies { (h : History) (now floor : ℕ) (f : Contents)
        → floor ≤ now
        → IsPresent h now
        → HoldsCopies h now f
        → AreCopies h now (usable_pieces f floor now) }
    ensures fresh { (h : History) (now floor : ℕ) (f : Contents)
        → floor ≤ now
        → IsPresent h now
        → HoldsCopies h now f
        → AreFresh floor (usable_pieces f floor now) }
{}

/// A piece of a held node is a copy. That of an owned one has the newest value, stamped with the present
/// moment. This call does nothing.
pub fn held_pieces_are_copies()
    ensures copy { (h : History) (now : ℕ) (f : Contents) (name : List Label) (level : Level) (piece : Piece)
        → IsPresent h now
        → HoldsCopies h now f
        → held_piece f name level now ≡ Some piece
        → IsCopy h now piece }
    ensures newest { (h : History) (now : ℕ) (f : Contents) (name : List Label) (level : Level) (piece : Piece)
        → HoldsCopies h now f
        → IsSome (version_at f name)
        → held_piece f name level now ≡ Some piece
        → IfSome piece.full (λ full. IsNewest h piece.name full.local full.version) }
    ensures present { (h : History) (now : ℕ) (f : Contents) (name : List Label) (level : Level) (piece : Piece)
        → HoldsCopies h now f
        → IsSome (version_at f name)
        → held_piece f name level now ≡ Some piece
        → IfSome piece.full (λ full. full.stamp ≡ now) }
{}
