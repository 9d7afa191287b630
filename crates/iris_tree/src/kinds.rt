//! Plain elements whose tags are kinds of a city.
ghost use Rattle.std.specs.Prelude.{◌≡◌};
ghost use Rattle.iris_tree.specs.NamesKind.{is_kind_of, names_kind, plains_name_kind, change_names_kind};

use crate::change::Change;
use crate::local::Local;
use crate::plain::Plain;
use iris_base::{Kind, Tag};

// Whether the tag is one of these kinds.
fn is_kind_of(kinds: &[Kind], tag: &Tag) -> bool
    ensures { result ≡ is_kind_of kinds.now tag.now }
{
    for kind in kinds {
        if kind.as_str() == tag.as_str() {
            return true;
        }
    }
    false
}

impl Plain {
    /// Whether its tag, or that of an element below it, is one of these kinds.
    pub fn names_kind(&self, kinds: &[Kind]) -> bool
        ensures { result ≡ names_kind kinds.now self.now }
    {
        if is_kind_of(kinds, &self.tag) {
            return true;
        }
        for kid in self.kids.as_slice() {
            if kid.names_kind(kinds) {
                return true;
            }
        }
        false
    }
}

impl Local {
    /// Whether the tag of one of its plain elements, at any depth, is one of these kinds.
    pub fn names_kind(&self, kinds: &[Kind]) -> bool
        ensures { result ≡ plains_name_kind kinds.now self.now.plain }
    {
        for element in self.plain.as_slice() {
            if element.names_kind(kinds) {
                return true;
            }
        }
        false
    }
}

impl Change {
    /// Whether it puts an element whose tag, or that of an element below it, is one of these kinds.
    pub fn names_kind(&self, kinds: &[Kind]) -> bool
        ensures { result ≡ change_names_kind kinds.now self.now }
    {
        match self {
            Change::Put { plain } => plain.names_kind(kinds),
            Change::Attr { .. } | Change::Drop { .. } => false,
        }
    }
}
