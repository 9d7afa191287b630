//! Local information and changes as JSON.
ghost use Rattle.std.specs.Prelude.{◌≡◌, ◌++◌, flat_map, OnOk, IfOk};
ghost use Rattle.iris_tree.specs.Changes.{change_data, changes_data, changes_text};
ghost use Rattle.iris_tree.specs.LocalText.{attrs_data, plain_data, local_data, local_text, value_tokens, pair_tokens};

use crate::attrs::Attrs;
use crate::change::Change;
use crate::json_text::JsonText;
use crate::local::Local;
use crate::plain::Plain;
use iris_base::Mem;
use std::alloc::Global;

impl Attrs {
    /// Writes an object with a string for each attribute, in the order of the bytes of the names.
    #[tactic(auto, using(crate::proofs::ValueTokens::attrs_written, std::proofs::lemmas::List::append_assoc))]
    pub fn write(&self, out: &mut JsonText) -> Mem<()>
        ensures { OnOk result (out.new ≡ out.old ++ value_tokens (attrs_data self.now)) }
    {
        out.begin_object()?;
        self.write_members(out)?;
        out.end_object()?;
        Ok(())
    }

    fn write_members(&self, out: &mut JsonText) -> Mem<()>
        ensures { OnOk result (out.new ≡ out.old ++ flat_map pair_tokens self.now) }
    {
        for (name, value) in self.as_slice() {
            out.key(name.as_str())?;
            out.string(value.as_str())?;
        }
        Ok(())
    }
}

impl Plain {
    /// Writes an object with the keys `attrs`, `kids` (an array of such objects), `tag` and `text`, in
    /// this order.
    pub fn write(&self, out: &mut JsonText) -> Mem<()>
        ensures { OnOk result (out.new ≡ out.old ++ value_tokens (plain_data self.now)) }
    {
        out.begin_object()?;
        out.key("attrs")?;
        self.attrs.write(out)?;
        out.key("kids")?;
        out.begin_array()?;
        for kid in self.kids.as_slice() {
            kid.write(out)?;
        }
        out.end_array()?;
        out.key("tag")?;
        out.string(self.tag.as_str())?;
        out.key("text")?;
        out.string(self.text.as_str())?;
        out.end_object()?;
        Ok(())
    }
}

impl Local {
    /// Writes an object with the keys `attrs` and `plain` (an array of plain elements), in this order.
    pub fn write(&self, out: &mut JsonText) -> Mem<()>
        ensures { OnOk result (out.new ≡ out.old ++ value_tokens (local_data self.now)) }
    {
        out.begin_object()?;
        out.key("attrs")?;
        self.attrs.write(out)?;
        out.key("plain")?;
        out.begin_array()?;
        for element in self.plain.as_slice() {
            element.write(out)?;
        }
        out.end_array()?;
        out.end_object()?;
        Ok(())
    }

    /// The JSON text, without spaces, by the same allocator. Equal local information has the same text.
    #[tactic(auto, using(crate::proofs::ValueTokens::printed))]
    pub fn text(&self) -> Mem<Vec<u8>>
        ensures { IfOk result (λ text. text.items ≡ local_text self.now) }
    {
        let mut out = JsonText::new(self.plain.allocator());
        self.write(&mut out)?;
        Ok(out.into_bytes())
    }
}

impl Change {
    #[tactic(auto, using(std::proofs::lemmas::List::append_assoc), unfolding(crate::specs::LocalText::value_tokens))]
    fn write(&self, out: &mut JsonText) -> Mem<()>
        ensures { OnOk result (out.new ≡ out.old ++ value_tokens (change_data self.now)) }
    {
        out.begin_array()?;
        match self {
            Change::Attr { name, value } => {
                out.string("attr")?;
                out.string(name.as_str())?;
                out.string(value.as_str())?;
            }
            Change::Drop { name } => {
                out.string("drop")?;
                out.string(name.as_str())?;
            }
            Change::Put { plain } => {
                out.string("put")?;
                plain.write(out)?;
            }
        }
        out.end_array()?;
        Ok(())
    }
}

fn write_changes(changes: &[Change], out: &mut JsonText) -> Mem<()>
    ensures { OnOk result (out.new ≡ out.old ++ value_tokens (changes_data changes.now)) }
{
    out.begin_array()?;
    for change in changes {
        change.write(out)?;
    }
    out.end_array()?;
    Ok(())
}

/// The JSON text of changes, without spaces: an array that has `["attr",name,value]` for an attribute
/// that gets a value, `["drop",name]` for one that is taken away, and `["put",element]` for a plain
/// element that is put, in the order of the changes.
#[tactic(auto, using(crate::proofs::ValueTokens::printed))]
pub fn changes_text(alloc: Global, changes: &[Change]) -> Mem<Vec<u8>>
    ensures { IfOk result (λ text. text.items ≡ changes_text changes.now) }
{
    let mut out = JsonText::new(alloc);
    write_changes(changes, &mut out)?;
    Ok(out.into_bytes())
}
