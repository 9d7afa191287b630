//! Kinds, ids, tags and agents' ids: short texts, each of a form of its own.
ghost use Rattle.std.specs.Prelude.{◌≡◌, ◌<◌, ◌≤◌, IfOk, OnOk, IfErr, Ok, Some, refl, nat_eq};
ghost use Rattle.std.specs.Ordering.{nat_cmp};
ghost use Rattle.std.specs.Cmp.Lexicographic.{pointwise, slice_cmp, nat_list_eq_equiv, nat_list_cmp_total, texts_ties, texts_po};
ghost use Rattle.std.specs.Cmp.{partial_equiv_from_equiv};
ghost use Rattle.std.specs.Cmp.Rules.{hashing};
ghost use Rattle.std.specs.Hash as fed;
ghost use Rattle.std.proofs.Common.{rules};
ghost use Rattle.iris_base.specs.Forms.{IsWord};
ghost use Rattle.iris_base.specs.Refuses.{Refuses};

use crate::error::TextError;
use crate::letters::Form;
use crate::limits::{MAX_AGENT_BYTES, MAX_ID_BYTES, MAX_KIND_BYTES, MAX_TAG_BYTES};
use crate::memory::Mem;
use crate::word::Word;
use std::cmp::Ordering;
use std::fmt;
use std::hash::{Hash, Hasher};
use std::marker::{Model, PhantomData};

/// A type that stands for a form of short texts.
pub trait Spelled: Copy {
    ghost use Rattle.iris_base.specs.declared.letters.Form.{Form};

    ghost form: { Form };

    ghost some: { 0 < form.most };

    /// The form.
    fn form() -> Form
        ensures { result ≡ form };
}

/// A text of the form `F`, of at most `N` bytes, seen as the list of its bytes. It is compared byte by
/// byte.
#[derive(Clone, Copy)]
pub struct Short<F: Spelled, const N: usize> {
    word: Word<N>,
    form: PhantomData<F>,
}

impl<F: Spelled, const N: usize> Model for Short<F, N> {
    ghost use Rattle.std.specs.Prelude.{ℕ, List};
    ghost use Rattle.iris_base.specs.Forms.{IsWord};

    ghost Value = { List ℕ };

    ghost view = { λ k. k.word };

    ghost invariant = { λ k. IsWord F.form.first F.form.later F.form.most k.word };

    ghost inverse = { λ bytes. record { word = bytes; form = record {} } };
}

impl<F: Spelled, const N: usize> Short<F, N> {
    /// The text, where it is of the form. It takes no memory.
    pub fn new(text: &str) -> Result<Short<F, N>, TextError>
        requires fits { F.form.most ≤ N }
        requires small { N < 256 }
        ensures ok { IfOk result (λ short. short ≡ text.now) }
        ensures form { OnOk result (IsWord F.form.first F.form.later F.form.most text.now) }
        ensures err { IfErr result (Refuses (IsWord F.form.first F.form.later F.form.most) text.now) }
    {
        let word = Word::new(F::form(), text)?;
        Ok(Short {
            word,
            form: PhantomData,
        })
    }

    /// The text of these bytes, which are of the form.
    pub fn from_bytes(bytes: &[u8]) -> Short<F, N>
        requires form { IsWord F.form.first F.form.later F.form.most bytes.now }
        requires fits { F.form.most ≤ N }
        requires small { N < 256 }
        ensures { result ≡ bytes.now }
    {
        Short {
            word: Word::from_bytes(F::form(), bytes),
            form: PhantomData,
        }
    }

    /// Its bytes, which are ASCII.
    #[inline]
    pub fn as_bytes(&self) -> &[u8]
        ensures value { result.now ≡ self.now }
        ensures form { IsWord F.form.first F.form.later F.form.most self.now }
    {
        self.word.as_bytes()
    }

    /// The text.
    #[inline]
    pub fn as_str(&self) -> &str
        ensures value { result.now ≡ self.now }
        ensures form { IsWord F.form.first F.form.later F.form.most self.now }
    {
        self.word.as_str()
    }

    /// A copy. It takes no memory.
    pub fn copy(&self) -> Mem<Short<F, N>>
        ensures { result ≡ Ok self.now }
    {
        Ok(*self)
    }
}

impl<F: Spelled, const N: usize> fmt::Display for Short<F, N> {
    ghost output = { λ short. Some short };

    fn fmt<W: fmt::Write>(&self, f: &mut fmt::Formatter<W>) -> fmt::Result {
        f.pad(self.as_str())
    }
}

impl<F: Spelled, const N: usize> fmt::Debug for Short<F, N> {
    fn fmt<W: fmt::Write>(&self, f: &mut fmt::Formatter<W>) -> fmt::Result {
        fmt::Debug::fmt(self.as_str(), f)
    }
}

impl<F: Spelled, const N: usize> PartialEq for Short<F, N> {
    ghost eq = { pointwise nat_eq };

    ghost laws = { partial_equiv_from_equiv nat_list_eq_equiv };

    #[inline]
    fn eq(&self, other: &Short<F, N>) -> bool {
        self.as_str() == other.as_str()
    }
}

impl<F: Spelled, const N: usize> Eq for Short<F, N> {
    ghost laws = { nat_list_eq_equiv };
}

impl<F: Spelled, const N: usize> PartialOrd for Short<F, N> {
    ghost partial_cmp = { λ x y. Some (slice_cmp nat_cmp x y) };

    ghost laws = { texts_po };

    #[inline]
    fn partial_cmp(&self, other: &Short<F, N>) -> Option<Ordering> {
        Some(self.cmp(other))
    }
}

impl<F: Spelled, const N: usize> Ord for Short<F, N> {
    ghost cmp = { slice_cmp nat_cmp };

    ghost total = { nat_list_cmp_total };

    ghost matches_partial_cmp = { λ x y. refl };

    ghost matches_eq = { texts_ties };

    #[inline]
    fn cmp(&self, other: &Short<F, N>) -> Ordering {
        self.as_str().cmp(other.as_str())
    }
}

impl<F: Spelled, const N: usize> Hash for Short<F, N> {
    ghost hash_input = { fed.str };

    ghost respects_eq = { Prim.search (hashing, rules) };

    #[inline]
    fn hash<H: Hasher>(&self, state: &mut H) {
        self.as_str().hash(state);
    }
}

/// The form of kinds.
#[derive(Clone, Copy, Debug)]
pub struct KindForm;

impl Spelled for KindForm {
    ghost use Rattle.std.proofs.Common.{arith};
    ghost use Rattle.iris_base.specs.declared.limits.TheConstants.{MAX_KIND_BYTES};
    ghost use Rattle.iris_base.specs.declared.letters.Letters.TheVariants.{Lower};

    ghost form = { record { first = Lower; later = Lower; most = MAX_KIND_BYTES } };

    ghost some = { Prim.omega arith };

    fn form() -> Form {
        Form::KIND
    }
}

/// A kind of nodes, as `hood`: 1 to 16 lower-case letters.
pub type Kind = Short<KindForm, MAX_KIND_BYTES>;

/// The form of ids.
#[derive(Clone, Copy, Debug)]
pub struct IdForm;

impl Spelled for IdForm {
    ghost use Rattle.std.proofs.Common.{arith};
    ghost use Rattle.iris_base.specs.declared.limits.TheConstants.{MAX_ID_BYTES};
    ghost use Rattle.iris_base.specs.declared.letters.Letters.TheVariants.{Word};

    ghost form = { record { first = Word; later = Word; most = MAX_ID_BYTES } };

    ghost some = { Prim.omega arith };

    fn form() -> Form {
        Form::ID
    }
}

/// A node's id among its siblings of one kind: 1 to 24 ASCII letters, digits and `_`.
pub type Id = Short<IdForm, MAX_ID_BYTES>;

/// The form of tags.
#[derive(Clone, Copy, Debug)]
pub struct TagForm;

impl Spelled for TagForm {
    ghost use Rattle.std.proofs.Common.{arith};
    ghost use Rattle.iris_base.specs.declared.limits.TheConstants.{MAX_TAG_BYTES};
    ghost use Rattle.iris_base.specs.declared.letters.Letters.TheVariants.{Letter, WordOrDash};

    ghost form = { record { first = Letter; later = WordOrDash; most = MAX_TAG_BYTES } };

    ghost some = { Prim.omega arith };

    fn form() -> Form {
        Form::TAG
    }
}

/// The name of an attribute or of an element: 1 to 24 ASCII letters, digits, `_` and `-`, the first a
/// letter.
pub type Tag = Short<TagForm, MAX_TAG_BYTES>;

/// The form of agents' ids.
#[derive(Clone, Copy, Debug)]
pub struct AgentForm;

impl Spelled for AgentForm {
    ghost use Rattle.std.proofs.Common.{arith};
    ghost use Rattle.iris_base.specs.declared.limits.TheConstants.{MAX_AGENT_BYTES};
    ghost use Rattle.iris_base.specs.declared.letters.Letters.TheVariants.{LowerOrDigit};

    ghost form = { record { first = LowerOrDigit; later = LowerOrDigit; most = MAX_AGENT_BYTES } };

    ghost some = { Prim.omega arith };

    fn form() -> Form {
        Form::AGENT
    }
}

/// An agent's id: 1 to 16 lower-case letters and digits.
pub type AgentId = Short<AgentForm, MAX_AGENT_BYTES>;
