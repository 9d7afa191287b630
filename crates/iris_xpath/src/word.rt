//! ASCII texts that grow byte by byte.
ghost use Rattle.std.specs.Prelude.{string_bytes, ◌≡◌, ◌≢◌, ◌<◌, ℕ, List, [], ◌∷◌, ◌++◌, IfOk, OnOk, MatchOption};
ghost use Rattle.iris_xpath.specs.Reading.{Lengthens};

use crate::bytes::is_word_byte;
use iris_tree::{Mem, Text};
use std::alloc::Global;
use std::marker::Model;

/// A text that is read byte by byte.
#[derive(Debug, Drop)]
pub struct Word {
    text: String,
}

impl Model for Word {
    ghost use Rattle.std.specs.Prelude.{ℕ, List, string_bytes};

    ghost Value = { List ℕ };

    ghost view = { λ w. string_bytes w.text };
}

// Adds a byte at the end.
fn push_byte(text: &mut String, byte: u8) -> Mem<()>
    requires ascii { byte < 128 }
    ensures { OnOk result (string_bytes text.new ≡ string_bytes text.old ++ byte ∷ []) }
{
    text.push(byte as char)?;
    Ok(())
}

impl Word {
    /// The text of one byte.
    pub fn new(alloc: Global, byte: u8) -> Mem<Word>
        requires ascii { byte < 128 }
        ensures { IfOk result (λ word. word ≡ byte ∷ []) }
    {
        let mut text = String::new(alloc);
        push_byte(&mut text, byte)?;
        Ok(Word { text })
    }

    /// Adds a byte at the end.
    pub fn push(self, byte: u8) -> Mem<Word>
        requires ascii { byte < 128 }
        ensures { IfOk result (λ word. word ≡ self ++ byte ∷ []) }
    {
        let mut text = self.text;
        push_byte(&mut text, byte)?;
        Ok(Word { text })
    }

    /// Adds all bytes at the front of the text that may stand in a word, and gives what follows them.
    pub fn take<'a>(&mut self, text: &'a str) -> Mem<&'a str>
        ensures { IfOk result (λ rest. Lengthens self.old text.now self.new rest.now) }
    {
        let mut rest = text;
        'bytes: while let Some((byte, after)) = split_byte(rest) {
            if !is_word_byte(byte) {
                return Ok(rest);
            }
            push_byte(&mut self.text, byte)?;
            rest = after;
        }
        Ok(rest)
    }

    /// The text.
    pub fn as_str(&self) -> &str
        ensures { result.now ≡ self.now }
    {
        self.text.as_str()
    }

    /// The text, for a syntax tree. It takes no memory.
    pub fn into_text(self) -> Text
        ensures { result ≡ self }
    {
        Text::from_string(self.text)
    }
}

/// The byte at the front, where it is ASCII, and what follows it.
#[inline(always)]
pub fn split_byte(text: &str) -> Option<(u8, &str)>
    ensures { MatchOption result ((b : ℕ) (z : List ℕ) → b < 128 → text.now ≢ b ∷ z) (λ r. (text.now ≡ r.0 ∷ r.1.now) × (r.0 < 128)) }
{
    match text.as_bytes() {
        [byte, ..] if *byte < 128 => Some((*byte, &text[1..])),
        _ => None,
    }
}
