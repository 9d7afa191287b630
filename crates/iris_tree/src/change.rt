//! Changes of local information.
ghost use Rattle.std.specs.Prelude.{◌≡◌, IfOk, IfErr, OnOk, Some, None, Ok, if◌then◌else◌};
ghost use Rattle.std.specs.List.{filter};
ghost use Rattle.iris_tree.specs.Changes.{fits, plains_fit, has_other_tag, with_plain, apply_change, apply_changes, RefusesChanges};
ghost use Rattle.iris_tree.specs.NamesId.{NamesNoId};
ghost use Rattle.iris_tree.specs.PlainOrder.{IsCanonical};

use crate::local::Local;
use crate::plain::Plain;
use iris_base::{
    MAX_ATTRIBUTES, MAX_LOCAL_BYTES, MAX_PLAIN, MAX_PLAIN_DEPTH, Mem, Memory, Sequence, Tag, Text,
    is_id,
};
use std::alloc::AllocError;
use std::mem;
use thiserror::Error;

/// One change of a node's local information.
#[derive(Debug, Drop)]
pub enum Change {
    /// Gives the attribute that value, also where it has another.
    Attr { name: Tag, value: Text },
    /// Takes the attribute away.
    Drop { name: Tag },
    /// Puts the element, in canonical form, in the place of all plain elements of its tag right below
    /// the node.
    Put { plain: Plain },
}

/// Why no change was made.
#[derive(Clone, Copy, Debug, PartialEq, Eq, PartialOrd, Ord, Hash, Error)]
pub enum ChangeError {
    /// The change at that place of the list, counted from 0, is the first that fails: it names an
    /// attribute `id`, also inside the element that it puts, drops an attribute that is not there, or
    /// leaves more than `MAX_ATTRIBUTES` attributes at the node or at one of its plain elements, more
    /// than `MAX_PLAIN` of these or more than `MAX_PLAIN_DEPTH` levels of them, or a canonical text of
    /// more than `MAX_LOCAL_BYTES` bytes.
    #[error("the change at {at} cannot be made")]
    BadChange { at: usize },
    /// Memory ran out.
    #[error("out of memory")]
    Memory,
}

impl From<Memory> for ChangeError {
    ghost use Rattle.std.specs.Prelude.{◌≡◌};
    ghost use Rattle.iris_tree.specs.declared.change.ChangeError.TheVariants.{Memory};

    ghost from_gives = { λ _ e. e ≡ Memory };

    fn from(_error: Memory) -> ChangeError {
        ChangeError::Memory
    }
}

impl Change {
    /// A copy, by the same allocator.
    pub fn copy(&self) -> Mem<Change>
        ensures { IfOk result (λ copy. copy ≡ self.now) }
    {
        Ok(self.clone()?)
    }
}

impl Clone for Change {
    ghost is_clone = { λ change copy. copy ≡ change };

    fn clone(&self) -> Result<Change, AllocError> {
        Ok(match self {
            Change::Attr { name, value } => Change::Attr {
                name: *name,
                value: value.clone()?,
            },
            Change::Drop { name } => Change::Drop { name: *name },
            Change::Put { plain } => Change::Put {
                plain: plain.clone()?,
            },
        })
    }
}

// Takes the elements of that tag away.
fn drop_tag(elements: &mut Vec<Plain>, tag: &Tag)
    ensures { elements.new.items ≡ filter (has_other_tag tag.now) elements.old.items }
{
    elements.retain(|element| element.tag != *tag);
}

impl Local {
    // Returns whether it is within the limits.
    fn fits(&self) -> bool
        ensures { result ≡ fits self.now }
    {
        self.attrs.len() as u64 <= MAX_ATTRIBUTES
            && self.plains_fit()
            && self.text_len() <= MAX_LOCAL_BYTES
    }

    // The same of its plain elements alone.
    fn plains_fit(&self) -> bool
        ensures { result ≡ plains_fit self.now.plain }
    {
        self.plain_attributes() <= MAX_ATTRIBUTES
            && self.plain_count() <= MAX_PLAIN
            && self.plain_depth() <= MAX_PLAIN_DEPTH
    }

    // Puts an element, in canonical form, in the place of all of its tag. Where there is no memory the
    // plain elements are lost.
    fn put(&mut self, plain: &Plain) -> Mem<()>
        ensures { OnOk result (self.new ≡ record { attrs = self.old.attrs; plain = with_plain self.old.plain plain.now }) }
    {
        let alloc = self.plain.allocator();
        let put = plain.canonical()?;
        let mut siblings = mem::replace(&mut self.plain, Sequence::new(alloc)).into_vec();
        drop_tag(&mut siblings, &plain.tag);
        siblings.insert(0, put)?;
        self.plain = Plain::siblings(siblings)?;
        Ok(())
    }

    // Makes one change, unless it fails.
    fn make(&mut self, change: &Change) -> Mem<bool>
        ensures { IfOk result (λ made. apply_change self.old change.now ≡ (if made then Some self.new else None)) }
    {
        match change {
            Change::Attr { name, value } => {
                if is_id(name.as_str()) {
                    return Ok(false);
                }
                self.attrs.insert(*name, value.copy()?)?;
            }
            Change::Drop { name } => {
                if is_id(name.as_str()) || !self.attrs.remove(name) {
                    return Ok(false);
                }
            }
            Change::Put { plain } => {
                if plain.names_id() {
                    return Ok(false);
                }
                self.put(plain)?;
            }
        }
        Ok(self.fits())
    }

    /// The local information after all these changes, in their order, by the same allocator.
    pub fn change(&self, changes: &[Change]) -> Result<Local, ChangeError>
        ensures ok { IfOk result (λ changed. apply_changes self.now changes.now ≡ Ok changed) }
        ensures canonical { IsCanonical self.now → IfOk result IsCanonical }
        ensures ids { NamesNoId self.now → IfOk result NamesNoId }
        ensures err { IfErr result (RefusesChanges self.now changes.now) }
    {
        let mut local = self.copy()?;
        for (at, change) in changes.iter().enumerate() {
            if !local.make(change)? {
                return Err(ChangeError::BadChange { at });
            }
        }
        Ok(local)
    }
}
