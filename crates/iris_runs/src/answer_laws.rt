//! Each answer in a book is allowed by what was entered before it.
ghost use Rattle.std.specs.Prelude.{◌≡◌, ℕ, ◌≤◌, true, []};
ghost use Rattle.iris_book.specs.Book.{History, with_entry};
ghost use Rattle.iris_book.specs.Entering.{is_lasting, without_answers};
ghost use Rattle.iris_book.specs.declared.entry.Entry.{Entry};
ghost use Rattle.iris_runs.specs.Answers.{IsAllowedEntry, AreAnswersAllowed};

/// The answers in a book stay allowed as time passes, as an update, a move or an allowed answer is entered,
/// and as answers are forgotten. This call does nothing.
pub fn answers_stay_allowed()
    ensures nothing { (h : History) (now : ℕ) → h.entries ≡ [] → AreAnswersAllowed h now }
    ensures time { (h : History) (now at : ℕ) → now ≤ at → AreAnswersAllowed h now → AreAnswersAllowed h at }
    ensures entry { (h : History) (now : ℕ) (entry : Entry) → is_lasting entry ≡ true → AreAnswersAllowed h now → AreAnswersAllowed (with_entry h entry) now }
    ensures answer { (h : History) (now : ℕ) (entry : Entry) → IsAllowedEntry h now entry → AreAnswersAllowed h now → AreAnswersAllowed (with_entry h entry) now }
    ensures forgotten { (h : History) (now : ℕ) → AreAnswersAllowed (without_answers h) now }
{}
