//! Plain elements.
ghost use Rattle.std.specs.Prelude.{◌≡◌, IfOk};
ghost use Rattle.iris_tree.specs.NamesId.{names_id};
ghost use Rattle.iris_tree.specs.PlainOrder.{IsTextOrder, IsCanonicalPlain, in_text_order, canonical_plain};

use crate::attrs::Attrs;
use crate::written::Written;
use iris_base::{Mem, Sequence, Tag, Text};
use std::alloc::AllocError;

/// A plain element: an element of a node that is no node itself. It has either kids or a text.
#[derive(Debug, Drop)]
pub struct Plain {
    pub tag: Tag,
    pub attrs: Attrs,
    /// Empty where there are kids.
    pub text: Text,
    /// The plain elements right below, in the order in which they are written.
    pub kids: Sequence<Plain>,
}

impl Plain {
    /// Elements as siblings: in the order of the bytes of their JSON texts, and each as often as it was
    /// given. What stands below each of them stays as it is.
    pub fn siblings(elements: Vec<Plain>) -> Mem<Sequence<Plain>>
        ensures order { IfOk result (λ ordered. IsTextOrder elements.items ordered) }
        ensures is { IfOk result (λ ordered. ordered ≡ in_text_order elements.items) }
    {
        let mut written = Written::of_all(elements)?;
        written.sort_by(|a, b| a.text().cmp(b.text()))?;
        Written::into_sequence(written)
    }

    /// The element in canonical form, by the same allocator: at every depth siblings stand in the order
    /// of the bytes of their JSON texts.
    pub fn canonical(&self) -> Mem<Plain>
        ensures is { IfOk result (λ canonical. canonical ≡ canonical_plain self.now) }
        ensures canonical { IfOk result IsCanonicalPlain }
    {
        let mut kids = Vec::with_capacity(self.kids.allocator(), self.kids.len())?;
        for kid in self.kids.as_slice() {
            kids.push(kid.canonical()?)?;
        }
        Ok(Plain {
            tag: self.tag,
            attrs: self.attrs.copy()?,
            text: self.text.copy()?,
            kids: Plain::siblings(kids)?,
        })
    }

    /// Whether it, or an element below it, has an attribute named `id`.
    pub fn names_id(&self) -> bool
        ensures { result ≡ names_id self.now }
    {
        if self.attrs.get("id").is_some() {
            return true;
        }
        for kid in self.kids.as_slice() {
            if kid.names_id() {
                return true;
            }
        }
        false
    }

    /// A copy, by the same allocator.
    pub fn copy(&self) -> Mem<Plain>
        ensures { IfOk result (λ copy. copy ≡ self.now) }
    {
        let mut kids = Sequence::new(self.kids.allocator());
        for kid in self.kids.as_slice() {
            kids.push(kid.copy()?)?;
        }
        Ok(Plain {
            tag: self.tag,
            attrs: self.attrs.copy()?,
            text: self.text.copy()?,
            kids,
        })
    }
}

impl Clone for Plain {
    ghost is_clone = { λ plain copy. copy ≡ plain };

    fn clone(&self) -> Result<Plain, AllocError> {
        match self.copy() {
            Ok(copy) => Ok(copy),
            Err(_) => Err(AllocError),
        }
    }
}
