//! As the book grows and as time passes.
ghost use Rattle.std.specs.Prelude.{◌≡◌, ℕ, ◌+◌, ◌≤◌, List, []};
ghost use Rattle.iris_base.specs.declared.name.Label.{Label};
ghost use Rattle.iris_tree.specs.NamesId.{NamesNoIdAnywhere};
ghost use Rattle.iris_tree.specs.Universe.{Node};
ghost use Rattle.iris_tree.specs.declared.change.Change.{Change};
ghost use Rattle.iris_tree.specs.declared.local.Local.{Local};
ghost use Rattle.iris_book.specs.Book.{History, with_entry, MayBeEntered};
ghost use Rattle.iris_book.specs.Entering.{updates_by, without_answers};
ghost use Rattle.iris_book.specs.declared.entry.Entry.{Entry};
ghost use Rattle.iris_book.specs.declared.entry.Entry.TheVariants.{Updated};
ghost use Rattle.iris_need.specs.Documents.{IsDocument};
ghost use Rattle.iris_copies.specs.Copies.{IsPresent, ComesAt, WasHeld, GoesOn, IsNewest};

/// A book in which nothing was entered yet is one at every moment. It and the moment go on in three ways:
/// time passes, an entry comes at the present moment, and answers are forgotten. In each what was held still
/// was, and the book stays one at its moment. These steps follow one another. This call does nothing.
pub fn books_go_on()
    ensures begins { (start : Node) (now : ℕ) → IsDocument start → NamesNoIdAnywhere start → IsPresent (record { start = start; entries = [] }) now }
    ensures time { (h : History) (now at : ℕ) → now ≤ at → GoesOn h now h at }
    ensures entry { (h : History) (now : ℕ) (e : Entry) → ComesAt now e → GoesOn h now (with_entry h e) now }
    ensures forgotten { (h : History) (now : ℕ) → GoesOn h now (without_answers h) now }
    ensures present_time { (h : History) (now at : ℕ) → now ≤ at → IsPresent h now → IsPresent h at }
    ensures present_entry { (h : History) (now : ℕ) (e : Entry) → MayBeEntered h e → ComesAt now e → IsPresent h now → IsPresent (with_entry h e) now }
    ensures present_forgotten { (h : History) (now : ℕ) → IsPresent h now → IsPresent (without_answers h) now }
    ensures onward { (h : History) (now : ℕ) (next : History) (at : ℕ) (last : History) (later : ℕ)
        → GoesOn h now next at
        → GoesOn next at last later
        → GoesOn h now last later }
{}

/// What is newest of a node is held at the present moment, and it stays newest while no update of the node is
/// entered, and as answers are forgotten. After an update what the update left is newest. This call does
/// nothing.
pub fn newest_values_stay()
    ensures held { (h : History) (now : ℕ) (name : List Label) (local : Local) (version : ℕ)
        → IsPresent h now
        → IsNewest h name local version
        → WasHeld h now name (record { local = local; version = version; stamp = now }) }
    ensures entry { (h : History) (e : Entry) (name : List Label) (local : Local) (version : ℕ)
        → updates_by e name ≡ 0
        → IsNewest h name local version
        → IsNewest (with_entry h e) name local version }
    ensures update { (h : History) (now : ℕ) (name : List Label) (number : ℕ) (changes : List Change) (local old : Local) (version : ℕ)
        → IsPresent h now
        → MayBeEntered h (Updated name number changes local now)
        → IsNewest h name old version
        → IsNewest (with_entry h (Updated name number changes local now)) name local (version + 1) }
    ensures forgotten { (h : History) (name : List Label) (local : Local) (version : ℕ)
        → IsNewest h name local version
        → IsNewest (without_answers h) name local version }
{}
