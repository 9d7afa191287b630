//! Words that a program has in its own text.
ghost use Rattle.std.specs.Prelude.{◌≡◌};

use std::marker::Model;

/// A word of a program, as `"position"`, seen as its bytes. It takes no memory.
#[derive(Debug, Drop)]
pub struct Word {
    text: &'static str,
}

impl Model for Word {
    ghost use Rattle.std.specs.Prelude.{ℕ, List};

    ghost Value = { List ℕ };

    ghost view = { λ word. word.text.now };
}

impl Word {
    /// The word as it stands.
    pub fn new(text: &'static str) -> Word
        ensures { result ≡ text.now }
    {
        Word { text }
    }

    /// Its text.
    #[inline]
    pub fn as_str(&self) -> &'static str
        ensures { result.now ≡ self.now }
    {
        self.text
    }
}
