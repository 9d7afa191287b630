//! Names as texts.
ghost use Rattle.std.specs.Prelude.{◌≡◌, ◌++◌, string_bytes, reverse, IfOk};
ghost use Rattle.iris_base.specs.NameText.{dotted, label_text, name_text};

use crate::memory::Mem;
use crate::name::{Label, Name};
use crate::text::Text;
use std::alloc::Global;

/// The name's labels from the node up to the top, each as `kind-id`, with dots between. The document's
/// text is empty.
pub fn name_text(alloc: Global, name: &Name) -> Mem<Text>
    ensures { IfOk result (λ text. text ≡ name_text name.now) }
{
    let mut text = String::new(alloc);
    if let Some((top, below)) = name.as_slice().split_first() {
        push_below(&mut text, below)?;
        push_label(&mut text, top)?;
    }
    Ok(Text::from_string(text))
}

// Adds the labels from the last one up, with a dot behind each.
fn push_below(text: &mut String, below: &[Label]) -> Mem<()>
    ensures { IfOk result (λ _. string_bytes text.new ≡ string_bytes text.old ++ dotted (reverse below.now)) }
{
    for label in below.iter().rev() {
        push_label(text, label)?;
        text.push_str(".")?;
    }
    Ok(())
}

// Adds `kind-id`.
fn push_label(text: &mut String, label: &Label) -> Mem<()>
    ensures { IfOk result (λ _. string_bytes text.new ≡ string_bytes text.old ++ label_text label.now) }
{
    text.push_str(label.kind.as_str())?;
    text.push_str("-")?;
    text.push_str(label.id.as_str())?;
    Ok(())
}
