//! The items of an answer.
ghost use Rattle.std.specs.Prelude.{◌≡◌, IfOk};

use crate::plain::Plain;
use crate::tree::Tree;
use iris_base::{Mem, Name};

/// An element of a document: a node or a plain element, each with all below it.
#[derive(Debug, Drop)]
pub enum Element {
    Node(Tree),
    Plain(Plain),
}

impl Element {
    /// A copy, by the same allocator.
    pub fn copy(&self) -> Mem<Element>
        ensures { IfOk result (λ copy. copy ≡ self.now) }
    {
        Ok(match self {
            Element::Node(tree) => Element::Node(tree.copy()?),
            Element::Plain(plain) => Element::Plain(plain.copy()?),
        })
    }
}

/// An item of an answer.
#[derive(Debug, Drop)]
pub struct Item {
    /// The name of the node at or above the element.
    pub at: Name,
    /// The element.
    pub is: Element,
}

impl Item {
    /// A copy, by the same allocator.
    pub fn copy(&self) -> Mem<Item>
        ensures { IfOk result (λ copy. copy ≡ self.now) }
    {
        Ok(Item {
            at: self.at.copy()?,
            is: self.is.copy()?,
        })
    }
}
