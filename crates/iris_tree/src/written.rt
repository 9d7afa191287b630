//! Plain elements on their way into the order of their texts.
ghost use Rattle.std.specs.Prelude.{◌≡◌, IfOk};
ghost use Rattle.iris_tree.specs.PlainOrder.{plain_text};

use crate::json_text::JsonText;
use crate::plain::Plain;
use iris_base::{Mem, Sequence};
use std::marker::Model;

/// A plain element with its JSON text, which is made once. Contracts see the element.
#[derive(Drop)]
pub struct Written {
    plain: Plain,
    text: Vec<u8>,
}

impl Model for Written {
    ghost use Rattle.std.specs.Prelude.{◌≡◌};
    ghost use Rattle.iris_tree.specs.contracts.plain.Plain as element;
    ghost use Rattle.iris_tree.specs.declared.plain.Plain.{Plain};
    ghost use Rattle.iris_tree.specs.PlainOrder.{plain_text};

    ghost Value = { Plain };

    ghost coded = { element.the_row.coded };

    ghost view = { λ w. w.plain };

    ghost invariant = { λ w. w.text.items ≡ plain_text w.plain };
}

impl Written {
    #[tactic(auto, using(crate::proofs::ValueTokens::printed))]
    pub fn new(plain: Plain) -> Mem<Written>
        ensures { IfOk result (λ written. written ≡ plain) }
    {
        let mut out = JsonText::new(plain.kids.allocator());
        plain.write(&mut out)?;
        Ok(Written {
            plain,
            text: out.into_bytes(),
        })
    }

    pub fn text(&self) -> &[u8]
        ensures { result.now ≡ plain_text self.now }
    {
        self.text.as_slice()
    }

    pub fn into_plain(self) -> Plain
        ensures { result ≡ self }
    {
        let Written { plain, .. } = self;
        plain
    }

    pub fn of_all(elements: Vec<Plain>) -> Mem<Vec<Written>>
        ensures { IfOk result (λ written. written.items ≡ elements.items) }
    {
        let mut written = Vec::with_capacity(*elements.allocator(), elements.len())?;
        for element in elements {
            written.push(Written::new(element)?)?;
        }
        Ok(written)
    }

    pub fn into_sequence(written: Vec<Written>) -> Mem<Sequence<Plain>>
        ensures { IfOk result (λ elements. elements ≡ written.items) }
    {
        let mut elements = Vec::with_capacity(*written.allocator(), written.len())?;
        for element in written {
            elements.push(element.into_plain())?;
        }
        Ok(Sequence::from_vec(elements))
    }
}
