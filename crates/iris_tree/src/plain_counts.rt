//! How many plain elements there are, how deep they are nested, and how many attributes they have.
ghost use Rattle.std.specs.Prelude.{◌≡◌};
ghost use Rattle.iris_tree.specs.PlainCounts.{plain_count, plains_count, plain_depth, plains_depth, plain_attributes, plains_attributes};
ghost use Rattle.iris_tree.specs.TextLen.{saturated};

use crate::local::Local;
use crate::plain::Plain;

impl Plain {
    /// How many elements it is with all below it, or `u64::MAX` where these are more.
    pub fn plain_count(&self) -> u64
        ensures { result ≡ saturated (plain_count self.now) }
    {
        let mut count: u64 = 1;
        for kid in self.kids.as_slice() {
            count = count.saturating_add(kid.plain_count());
        }
        count
    }

    /// How deep it is nested, 1 where it has no kids, or `u64::MAX` where it is deeper.
    pub fn plain_depth(&self) -> u64
        ensures { result ≡ saturated (plain_depth self.now) }
    {
        let mut deepest: u64 = 0;
        for kid in self.kids.as_slice() {
            deepest = deepest.max(kid.plain_depth());
        }
        deepest.saturating_add(1)
    }

    /// The most attributes that it has, or an element below it.
    pub fn plain_attributes(&self) -> u64
        ensures { result ≡ saturated (plain_attributes self.now) }
    {
        let mut most = self.attrs.len() as u64;
        for kid in self.kids.as_slice() {
            most = most.max(kid.plain_attributes());
        }
        most
    }
}

impl Local {
    /// How many plain elements the node has at any depth, or `u64::MAX` where they are more.
    pub fn plain_count(&self) -> u64
        ensures { result ≡ saturated (plains_count self.now.plain) }
    {
        let mut count: u64 = 0;
        for element in self.plain.as_slice() {
            count = count.saturating_add(element.plain_count());
        }
        count
    }

    /// How deep its plain elements are nested, 0 where it has none, or `u64::MAX` where they are deeper.
    pub fn plain_depth(&self) -> u64
        ensures { result ≡ saturated (plains_depth self.now.plain) }
    {
        let mut deepest: u64 = 0;
        for element in self.plain.as_slice() {
            deepest = deepest.max(element.plain_depth());
        }
        deepest
    }

    /// The most attributes that a plain element of the node has, at any depth; 0 where it has none.
    pub fn plain_attributes(&self) -> u64
        ensures { result ≡ saturated (plains_attributes self.now.plain) }
    {
        let mut most: u64 = 0;
        for element in self.plain.as_slice() {
            most = most.max(element.plain_attributes());
        }
        most
    }
}
