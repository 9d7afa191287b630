//! JSON text under way.
ghost use Rattle.std.specs.Prelude.{◌≡◌, [], decimal};
ghost use Rattle.json.specs.Token as json;
ghost use Rattle.json.specs.Print.{print};
ghost use Rattle.iris_tree.specs.LocalText.{AppendsWhole};

use iris_base::Mem;
use json::Writer;
use std::alloc::Global;
use std::marker::Model;

/// JSON under way (RFC 8259), seen as its tokens. It writes no space, and places the commas and the
/// colons; brackets and keys are its caller's. A call that runs out of memory leaves it as it was. What
/// writes several tokens may then have written the first of them, and its caller drops the text.
#[derive(Drop)]
pub struct JsonText {
    writer: Writer,
}

impl Model for JsonText {
    ghost use Rattle.std.specs.Prelude.{◌≡◌, List, []};
    ghost use Rattle.json.specs.Token.{Token};

    ghost Value = { List Token };

    ghost view = { λ text. text.writer.tokens };

    ghost invariant = { λ text. text.writer.before ≡ [] };
}

impl JsonText {
    /// No token yet. It takes no memory.
    pub fn new(alloc: Global) -> JsonText
        ensures { result ≡ [] }
    {
        JsonText {
            writer: Writer::new(Vec::new(alloc)),
        }
    }

    /// Writes `{`.
    pub fn begin_object(&mut self) -> Mem<()>
        ensures { AppendsWhole result self.old self.new json.begin_object }
    {
        self.writer.begin_object()?;
        Ok(())
    }

    /// Writes `}`.
    pub fn end_object(&mut self) -> Mem<()>
        ensures { AppendsWhole result self.old self.new json.end_object }
    {
        self.writer.end_object()?;
        Ok(())
    }

    /// Writes `[`.
    pub fn begin_array(&mut self) -> Mem<()>
        ensures { AppendsWhole result self.old self.new json.begin_array }
    {
        self.writer.begin_array()?;
        Ok(())
    }

    /// Writes `]`.
    pub fn end_array(&mut self) -> Mem<()>
        ensures { AppendsWhole result self.old self.new json.end_array }
    {
        self.writer.end_array()?;
        Ok(())
    }

    /// Writes a member's name, escaped, with its colon.
    pub fn key(&mut self, name: &str) -> Mem<()>
        ensures { AppendsWhole result self.old self.new (json.key name.now) }
    {
        self.writer.key(name)?;
        Ok(())
    }

    /// Writes a string, escaped where RFC 8259, section 7, asks for it, by the shortest escape.
    pub fn string(&mut self, text: &str) -> Mem<()>
        ensures { AppendsWhole result self.old self.new (json.string text.now) }
    {
        self.writer.string(text)?;
        Ok(())
    }

    /// Writes a whole number in decimal.
    pub fn number(&mut self, number: u64) -> Mem<()>
        ensures { AppendsWhole result self.old self.new (json.number (decimal number)) }
    {
        self.writer.u64(number)?;
        Ok(())
    }

    /// Writes `true` or `false`.
    pub fn boolean(&mut self, boolean: bool) -> Mem<()>
        ensures { AppendsWhole result self.old self.new (json.boolean boolean) }
    {
        self.writer.boolean(boolean)?;
        Ok(())
    }

    /// The text, which is UTF-8.
    pub fn into_bytes(self) -> Vec<u8>
        ensures { result.items ≡ print self }
    {
        let JsonText { writer } = self;
        writer.into_inner()
    }
}
