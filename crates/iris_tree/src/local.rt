//! What a node holds itself.
ghost use Rattle.std.specs.Prelude.{◌≡◌, [], IfOk};
ghost use Rattle.iris_tree.specs.NamesId.{local_names_id};

use crate::attrs::Attrs;
use crate::plain::Plain;
use iris_base::{Mem, Sequence};
use std::alloc::Global;

/// A node's local information: its attributes and its plain elements. The labels of its children
/// belong to it too and are told by the tree.
#[derive(Debug, Drop)]
pub struct Local {
    pub attrs: Attrs,
    /// The plain elements right below the node, in the order in which they are written.
    pub plain: Sequence<Plain>,
}

impl Local {
    /// No attributes and no plain elements. It takes no memory.
    pub fn new(alloc: Global) -> Local
        ensures attrs { result.attrs ≡ [] }
        ensures plain { result.plain ≡ [] }
    {
        Local {
            attrs: Attrs::new(alloc),
            plain: Sequence::new(alloc),
        }
    }

    /// Whether the node, or one of its plain elements at any depth, has an attribute named `id`.
    pub fn names_id(&self) -> bool
        ensures { result ≡ local_names_id self.now }
    {
        if self.attrs.get("id").is_some() {
            return true;
        }
        for element in self.plain.as_slice() {
            if element.names_id() {
                return true;
            }
        }
        false
    }

    /// A copy, by the same allocator.
    pub fn copy(&self) -> Mem<Local>
        ensures { IfOk result (λ copy. copy ≡ self.now) }
    {
        let mut plain = Sequence::new(self.plain.allocator());
        for element in self.plain.as_slice() {
            plain.push(element.copy()?)?;
        }
        Ok(Local {
            attrs: self.attrs.copy()?,
            plain,
        })
    }
}
