//! Why a text, or the text of a name, was refused.

use crate::memory::Memory;
use thiserror::Error;

/// Why no text was made.
#[derive(Clone, Copy, Debug, PartialEq, Eq, PartialOrd, Ord, Hash, Error)]
pub enum TextError {
    /// The text goes off its form at byte `at`, counted from 0: the bytes before it begin some text of
    /// the form, and with this byte they begin none. Where the text ends too early, `at` is its length.
    #[error("the text goes off its form at byte {at}")]
    BadText { at: usize },
    /// There was no memory.
    #[error("out of memory")]
    Memory,
}

impl From<Memory> for TextError {
    ghost use Rattle.std.specs.Prelude.{◌≡◌};
    ghost use Rattle.iris_base.specs.declared.error.TextError.TheVariants.{Memory};

    ghost from_gives = { λ _ e. e ≡ Memory };

    fn from(_error: Memory) -> TextError {
        TextError::Memory
    }
}

/// Why no name was read.
#[derive(Clone, Copy, Debug, PartialEq, Eq, PartialOrd, Ord, Hash, Error)]
pub enum NameError {
    /// The text goes off the form of names at byte `at`, counted from 0: the bytes before it begin the
    /// text of some name of 1 to 16 labels, and with this byte they begin none. Where the text ends too
    /// early, `at` is its length.
    #[error("no name goes on at byte {at}")]
    BadName { at: usize },
    /// There was no memory.
    #[error("out of memory")]
    Memory,
}

impl From<Memory> for NameError {
    ghost use Rattle.std.specs.Prelude.{◌≡◌};
    ghost use Rattle.iris_base.specs.declared.error.NameError.TheVariants.{Memory};

    ghost from_gives = { λ _ e. e ≡ Memory };

    fn from(_error: Memory) -> NameError {
        NameError::Memory
    }
}
