//! Labels of nodes, and the names that lists of labels are.
ghost use Rattle.std.specs.Prelude.{◌≡◌, ◌+◌, ◌↔◌, ◌++◌, ◌∷◌, [], length, IfOk, Ok, OnOk, OnErr, IsTrue, MatchOption, Some, refl};
ghost use Rattle.std.specs.Cmp.Lexicographic.{pointwise, slice_cmp};
ghost use Rattle.std.specs.Cmp.Rules.{hashing};
ghost use Rattle.std.specs.Hash as fed;
ghost use Rattle.std.proofs.Common.{rules};
ghost use Rattle.iris_base.specs.Under.{Under};
ghost use Rattle.iris_base.specs.NameOrder.{label_eq, label_cmp, label_fed, names_alike, names_per, names_equiv, names_po, names_total, names_ties};

use crate::memory::Mem;
use crate::short::{Id, Kind};
use std::alloc::{AllocError, Global};
use std::cmp::Ordering;
use std::hash::{Hash, Hasher};
use std::marker::Model;

/// What a node is called among its siblings. Labels are ordered by kind and then by id.
#[derive(Clone, Copy, Debug, PartialEq, Eq, PartialOrd, Ord, Hash)]
pub struct Label {
    pub kind: Kind,
    pub id: Id,
}

/// A node's labels from the top node down, seen as their list. The document's name has none. Names are
/// ordered label by label, a name before those under it.
#[derive(Debug, Drop)]
pub struct Name {
    labels: Vec<Label>,
}

impl Model for Name {
    ghost use Rattle.std.specs.Prelude.{List};
    ghost use Rattle.iris_base.specs.declared.name.Label.{Label};

    ghost Value = { List Label };

    ghost view = { λ n. n.labels.items };
}

impl Label {
    /// A copy. It takes no memory.
    pub fn copy(&self) -> Mem<Label>
        ensures { result ≡ Ok self.now }
    {
        Ok(*self)
    }
}

impl Name {
    /// The document's name, which has no label. It takes no memory.
    pub fn document(alloc: Global) -> Name
        ensures { result ≡ [] }
    {
        Name {
            labels: Vec::new(alloc),
        }
    }

    /// The name of these labels, from the top node down.
    pub fn from_vec(labels: Vec<Label>) -> Name
        ensures { result ≡ labels.items }
    {
        Name { labels }
    }

    /// Its labels, from the top node down.
    #[inline]
    pub fn as_slice(&self) -> &[Label]
        ensures { result.now ≡ self.now }
    {
        self.labels.as_slice()
    }

    /// The number of its labels.
    pub fn len(&self) -> usize
        ensures { result ≡ length self.now }
    {
        self.labels.len()
    }

    /// Whether it is the document's name.
    pub fn is_document(&self) -> bool
        ensures { IsTrue result ↔ (self.now ≡ []) }
    {
        self.labels.is_empty()
    }

    /// Adds a label at the bottom. Where there is no memory the name stays as it was.
    pub fn push(&mut self, label: Label) -> Mem<()>
        ensures ok { OnOk result (self.new ≡ self.old ++ label ∷ []) }
        ensures err { OnErr result (self.new ≡ self.old) }
    {
        self.labels.push(label)?;
        Ok(())
    }

    /// Takes the bottom label away, if there is one. It takes no memory.
    pub fn pop(&mut self) -> Option<Label>
        ensures { MatchOption result ((self.old ≡ []) × (self.new ≡ [])) (λ bottom. self.old ≡ self.new ++ bottom ∷ []) }
    {
        self.labels.pop()
    }

    /// The number of labels of the name above, and nothing for the document's.
    pub fn parent_len(&self) -> Option<usize>
        ensures { MatchOption result (self.now ≡ []) (λ len. len + 1 ≡ length self.now) }
    {
        self.labels.len().checked_sub(1)
    }

    /// The name with one label more at the bottom.
    pub fn child(&self, label: Label) -> Mem<Name>
        ensures { IfOk result (λ child. child ≡ self.now ++ label ∷ []) }
    {
        let room = self.labels.len().saturating_add(1);
        let mut labels = Vec::with_capacity(*self.labels.allocator(), room)?;
        labels.extend_from_slice(&self.labels)?;
        labels.push(label)?;
        Ok(Name { labels })
    }

    /// Whether its labels begin with those of `top`. Each name is under itself and under the document's.
    pub fn is_under(&self, top: &Name) -> bool
        ensures { IsTrue result ↔ Under self.now top.now }
    {
        self.labels.as_slice().starts_with(top.labels.as_slice())
    }

    /// A copy, by the same allocator.
    pub fn copy(&self) -> Mem<Name>
        ensures { IfOk result (λ copy. copy ≡ self.now) }
    {
        Ok(self.clone()?)
    }
}

impl Clone for Name {
    ghost is_clone = { λ name copy. copy ≡ name };

    fn clone(&self) -> Result<Name, AllocError> {
        Ok(Name {
            labels: Vec::from_slice(*self.labels.allocator(), &self.labels)?,
        })
    }
}

impl PartialEq for Name {
    ghost eq = { pointwise label_eq };

    ghost laws = { names_per };

    #[inline]
    fn eq(&self, other: &Name) -> bool {
        self.as_slice() == other.as_slice()
    }
}

impl Eq for Name {
    ghost laws = { names_equiv };
}

impl PartialOrd for Name {
    ghost partial_cmp = { λ x y. Some (slice_cmp label_cmp x y) };

    ghost laws = { names_po };

    #[inline]
    fn partial_cmp(&self, other: &Name) -> Option<Ordering> {
        Some(self.cmp(other))
    }
}

impl Ord for Name {
    ghost cmp = { slice_cmp label_cmp };

    ghost total = { names_total };

    ghost matches_partial_cmp = { λ x y. refl };

    ghost matches_eq = { names_ties };

    #[inline]
    fn cmp(&self, other: &Name) -> Ordering {
        self.as_slice().cmp(other.as_slice())
    }
}

impl Hash for Name {
    ghost hash_input = { fed.slice label_fed };

    ghost respects_eq = { names_alike };

    fn hash<H: Hasher>(&self, state: &mut H) {
        self.as_slice().hash(state);
    }
}
