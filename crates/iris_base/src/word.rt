//! ASCII texts of bounded length that lie in the value itself, with no allocation.
ghost use Rattle.std.specs.Prelude.{◌≡◌, ◌<◌, ◌≤◌, length, IfOk, OnOk, IfErr};
ghost use Rattle.std.specs.Str.{IsAscii};
ghost use Rattle.iris_base.specs.Forms.{IsWord};
ghost use Rattle.iris_base.specs.Refuses.{Refuses};

use crate::error::TextError;
use crate::letters::Form;
use std::marker::Model;
use std::str;

// An ASCII text of at most `N` bytes, seen as the list of its bytes. Behind them stand zeros.
#[derive(Clone, Copy)]
pub struct Word<const N: usize> {
    bytes: [u8; N],
    len: u8,
}

impl<const N: usize> Model for Word<N> {
    ghost use Rattle.std.specs.Prelude.{ℕ, List, length, take};
    ghost use Rattle.iris_base.specs.Padded.{Padded, padded, length-padded, padded-same};

    ghost Value = { List ℕ };

    ghost view = { λ w. take w.len w.bytes };

    ghost invariant = { λ w. Padded N w.bytes w.len };

    ghost inverse = { λ text. record { bytes = padded N text; len = length text } };

    ghost inverse_ok = { λ w h. Prim.rw (padded-same N w.bytes w.len h, length-padded N w.bytes w.len h) };
}

impl<const N: usize> Word<N> {
    // The text, where it is of the form.
    pub fn new(form: Form, text: &str) -> Result<Word<N>, TextError>
        requires some { 0 < form.most }
        requires fits { form.most ≤ N }
        requires small { N < 256 }
        ensures ok { IfOk result (λ word. word ≡ text.now) }
        ensures form { OnOk result (IsWord form.first form.later form.most text.now) }
        ensures err { IfErr result (Refuses (IsWord form.first form.later form.most) text.now) }
    {
        match form.bad_at(text.as_bytes()) {
            Some(at) => Err(TextError::BadText { at }),
            None => Ok(Word::from_bytes(form, text.as_bytes())),
        }
    }

    // The text of these bytes, which are of the form.
    pub fn from_bytes(form: Form, text: &[u8]) -> Word<N>
        requires form { IsWord form.first form.later form.most text.now }
        requires fits { form.most ≤ N }
        requires small { N < 256 }
        ensures { result ≡ text.now }
    {
        let mut bytes = [0; N];
        bytes[..text.len()].copy_from_slice(text);
        Word {
            bytes,
            len: text.len() as u8,
        }
    }

    #[inline]
    pub fn as_bytes(&self) -> &[u8]
        ensures value { result.now ≡ self.now }
        ensures ascii { IsAscii result.now }
        ensures fits { length result.now ≤ N }
    {
        &self.bytes[..self.len as usize]
    }

    #[inline]
    pub fn as_str(&self) -> &str
        ensures { result.now ≡ self.now }
    {
        unsafe { str::from_utf8_unchecked(self.as_bytes()) }
    }
}
