//! The query that finds what is to be offered.
ghost use Rattle.std.specs.Prelude.{◌≡◌, IfOk};
ghost use Rattle.iris_finder.specs.Question.{query_text};

use iris_json::Find;
use iris_tree::{Label, Mem, Text};
use std::alloc::Global;

/// The query for the blocks of the hood that have a free space, in a city with that top node:
/// `/K[@id='I']/hood[@id='H']/block[space[@free='yes']]`, where `K` and `I` are the kind and the id of the
/// top node, and `H` is the id of the hood.
pub fn query_of(alloc: Global, find: &Find, top: &Label) -> Mem<Text>
    ensures { IfOk result (λ text. text ≡ query_text top.now find.now.hood) }
{
    let mut text = String::new(alloc);
    text.push_str("/")?;
    text.push_str(top.kind.as_str())?;
    text.push_str("[@id='")?;
    text.push_str(top.id.as_str())?;
    text.push_str("']/hood[@id='")?;
    text.push_str(find.hood.as_str())?;
    text.push_str("']/block[space[@free='yes']]")?;
    Ok(Text::from_string(text))
}
