//! Attributes of nodes and of plain elements.
ghost use Rattle.std.specs.Prelude.{◌≡◌, ◌↔◌, [], length, IfOk, IfErr, OnOk, OnErr, IsTrue, is_some, option_map};
ghost use Rattle.std.specs.Cmp.Lexicographic.{pointwise, lists_equiv};
ghost use Rattle.std.specs.Cmp.{partial_equiv_from_equiv};
ghost use Rattle.iris_tree.specs.Attrs.{pair_eq, pair_equiv, value_of, with_attr, without_attr, AreInNameOrder, StandsAt, WouldStandAt};

use iris_base::{Mem, Tag, Text};
use std::alloc::Global;
use std::marker::Model;

/// The attributes of an element, seen as the list of their names and values in the order of the bytes of
/// the names. They lie in one block.
#[derive(Debug, Drop)]
pub struct Attrs {
    pairs: Vec<(Tag, Text)>,
}

impl Model for Attrs {
    ghost use Rattle.std.specs.Prelude.{ℕ, List};
    ghost use Rattle.iris_tree.specs.Attrs.{AreInNameOrder};

    ghost Value = { List (List ℕ × List ℕ) };

    ghost view = { λ a. a.pairs.items };

    ghost invariant = { λ a. AreInNameOrder a.pairs.items };
}

// The place of the attribute of that name, or the place that one of that name would have, by a binary
// search.
fn place_of(pairs: &[(Tag, Text)], name: &str) -> Result<usize, usize>
    requires { AreInNameOrder pairs.now }
    ensures there { IfOk result (StandsAt pairs.now name.now) }
    ensures absent { IfErr result (WouldStandAt pairs.now name.now) }
{
    pairs.binary_search_by(|pair| pair.0.as_str().cmp(name))
}

impl Attrs {
    /// No attributes. It takes no memory.
    pub fn new(alloc: Global) -> Attrs
        ensures { result ≡ [] }
    {
        Attrs {
            pairs: Vec::new(alloc),
        }
    }

    /// The number of attributes.
    pub fn len(&self) -> usize
        ensures { result ≡ length self.now }
    {
        self.pairs.len()
    }

    /// Returns whether there is none.
    pub fn is_empty(&self) -> bool
        ensures { IsTrue result ↔ (self.now ≡ []) }
    {
        self.pairs.is_empty()
    }

    /// The names and values, in the order of the names.
    pub fn as_slice(&self) -> &[(Tag, Text)]
        ensures value { result.now ≡ self.now }
        ensures ordered { AreInNameOrder self.now }
    {
        self.pairs.as_slice()
    }

    /// The value of the attribute of that name. A name that is no tag has none.
    pub fn get(&self, name: &str) -> Option<&str>
        ensures { option_map (λ value. value.now) result ≡ value_of self.now name.now }
    {
        match place_of(&self.pairs, name) {
            Ok(at) => Some(self.pairs[at].1.as_str()),
            Err(_) => None,
        }
    }

    /// Gives the attribute of that name that value, also where it has another.
    pub fn insert(&mut self, name: Tag, value: Text) -> Mem<()>
        ensures ok { OnOk result (self.new ≡ with_attr self.old name value) }
        ensures err { OnErr result (self.new ≡ self.old) }
    {
        match place_of(&self.pairs, name.as_str()) {
            Ok(at) => self.pairs[at].1 = value,
            Err(at) => self.pairs.insert(at, (name, value))?,
        }
        Ok(())
    }

    /// Takes the attribute of that name away, and returns whether there was one. It takes no memory.
    pub fn remove(&mut self, name: &Tag) -> bool
        ensures was { result ≡ is_some (value_of self.old name.now) }
        ensures attrs { self.new ≡ without_attr self.old name.now }
    {
        let Ok(at) = place_of(&self.pairs, name.as_str()) else {
            return false;
        };
        self.pairs.remove(at);
        true
    }

    /// A copy, by the same allocator. It has room for no more attributes.
    pub fn copy(&self) -> Mem<Attrs>
        ensures { IfOk result (λ copy. copy ≡ self.now) }
    {
        let mut pairs = Vec::with_capacity(*self.pairs.allocator(), self.pairs.len())?;
        for (name, value) in &self.pairs {
            pairs.push((*name, value.copy()?))?;
        }
        Ok(Attrs { pairs })
    }
}

impl PartialEq for Attrs {
    ghost eq = { pointwise pair_eq };

    ghost laws = { partial_equiv_from_equiv (lists_equiv pair_equiv) };

    fn eq(&self, other: &Attrs) -> bool {
        self.pairs == other.pairs
    }
}

impl Eq for Attrs {
    ghost laws = { lists_equiv pair_equiv };
}
