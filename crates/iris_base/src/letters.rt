//! Sets of ASCII letters, and the forms of short texts.
ghost use Rattle.std.specs.Prelude.{◌≡◌, ◌<◌, MatchOption};
ghost use Rattle.iris_base.specs.Letters.{has, allows};
ghost use Rattle.iris_base.specs.Forms.{IsWord};
ghost use Rattle.iris_base.specs.Stops.{StopsAt};

use crate::limits::{MAX_AGENT_BYTES, MAX_ID_BYTES, MAX_KIND_BYTES, MAX_TAG_BYTES};

/// What stands between the kind and the id of a label, in its text.
pub const DASH: u8 = b'-';

/// What stands between two labels of a name, in its text.
pub const DOT: u8 = b'.';

/// What may stand in ids and tags beside letters and digits.
pub const UNDERSCORE: u8 = b'_';

/// A set of ASCII characters.
#[derive(Clone, Copy, Debug, PartialEq, Eq, Hash)]
pub enum Letters {
    /// `a` to `z`
    Lower,
    /// `a` to `z`, `0` to `9`
    LowerOrDigit,
    /// `a` to `z`, `A` to `Z`, `0` to `9`, `_`
    Word,
    /// `a` to `z`, `A` to `Z`
    Letter,
    /// `a` to `z`, `A` to `Z`, `0` to `9`, `_`, `-`
    WordOrDash,
}

/// A form of short texts. A text of the form has at least one byte.
#[derive(Clone, Copy, Debug, PartialEq, Eq, Hash)]
pub struct Form {
    /// What may stand first.
    pub first: Letters,
    /// What may stand behind the first.
    pub later: Letters,
    /// How many bytes there are at most.
    pub most: usize,
}

impl Letters {
    /// Whether the set has this byte.
    pub fn has(self, byte: u8) -> bool
        ensures { result ≡ has self byte }
    {
        match self {
            Letters::Lower => byte.is_ascii_lowercase(),
            Letters::LowerOrDigit => byte.is_ascii_lowercase() || byte.is_ascii_digit(),
            Letters::Word => byte.is_ascii_alphanumeric() || byte == UNDERSCORE,
            Letters::Letter => byte.is_ascii_alphabetic(),
            Letters::WordOrDash => byte.is_ascii_alphanumeric()
                || byte == UNDERSCORE
                || byte == DASH,
        }
    }
}

impl Form {
    /// Kinds of nodes, as `hood`: 1 to 16 lower-case letters.
    pub const KIND: Form = Form {
        first: Letters::Lower,
        later: Letters::Lower,
        most: MAX_KIND_BYTES,
    };

    /// Ids of nodes, as `north`: 1 to 24 letters, digits and `_`.
    pub const ID: Form = Form {
        first: Letters::Word,
        later: Letters::Word,
        most: MAX_ID_BYTES,
    };

    /// Names of attributes and elements: 1 to 24 letters, digits, `_` and `-`, the first a letter.
    pub const TAG: Form = Form {
        first: Letters::Letter,
        later: Letters::WordOrDash,
        most: MAX_TAG_BYTES,
    };

    /// Ids of agents: 1 to 16 lower-case letters and digits.
    pub const AGENT: Form = Form {
        first: Letters::LowerOrDigit,
        later: Letters::LowerOrDigit,
        most: MAX_AGENT_BYTES,
    };

    /// Whether this byte may stand at index `i`, however long a text may be.
    #[tactic(auto, unfolding(crate::specs::Letters::allows))]
    pub fn allows(self, i: usize, byte: u8) -> bool
        ensures { result ≡ allows self.first self.later i byte }
    {
        if i == 0 {
            self.first.has(byte)
        } else {
            self.later.has(byte)
        }
    }

    /// The byte at which `bytes` goes off the form, and nothing if it is of the form.
    pub fn bad_at(self, bytes: &[u8]) -> Option<usize>
        requires { 0 < self.most }
        ensures { MatchOption result (IsWord self.first self.later self.most bytes.now) (StopsAt (IsWord self.first self.later self.most) bytes.now) }
    {
        for (i, byte) in bytes.iter().enumerate() {
            if i == self.most || !self.allows(i, *byte) {
                return Some(i);
            }
        }
        if bytes.is_empty() { Some(0) } else { None }
    }
}
