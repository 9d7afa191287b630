//! Names read from texts.
ghost use Rattle.std.specs.Prelude.{◌≡◌, IfOk, IfErr, Some, None, if◌then◌else◌, List, MatchResult};
ghost use Rattle.iris_base.specs.declared.error.NameError.TheVariants as errors;
ghost use Rattle.iris_base.specs.declared.name.Label.{Label};
ghost use Rattle.iris_base.specs.NameText.{name_text, IsName};
ghost use Rattle.iris_base.specs.NameReader.{step, IsReading, Finishes, Unfinished};
ghost use Rattle.iris_base.specs.Refuses.{RefusesName};

use crate::error::NameError;
use crate::letters::{DASH, DOT, Form};
use crate::limits::MAX_LABELS;
use crate::memory::{Mem, Memory};
use crate::name::{Label, Name};
use crate::short::{Id, Kind};
use std::alloc::Global;
use std::marker::Model;

// A name whose text is read up to some byte.
#[derive(Drop)]
struct Reader {
    // From the node up.
    labels: Vec<Label>,
    // Of the label under way, once its dash is read.
    kind: Option<Kind>,
    // What is read of the kind, and then of the id.
    part: Vec<u8>,
}

impl Model for Reader {
    ghost use Rattle.iris_base.specs.NameReader.{Reading};

    ghost Value = { Reading };

    ghost view = { λ r. record { done = r.labels.items; kind = r.kind; part = r.part.items } };
}

impl Reader {
    // Takes one more byte, unless no name goes on with it.
    #[tactic(auto, unfolding(crate::specs::NameReader::step, crate::specs::NameReader::takes, crate::specs::NameReader::ends))]
    fn step(&mut self, byte: u8) -> Mem<bool>
        requires { IsReading self.old }
        ensures { IfOk result (λ goes. step self.old byte ≡ (if goes then Some self.new else None)) }
    {
        let form = if self.kind.is_none() {
            Form::KIND
        } else {
            Form::ID
        };
        if self.part.len() < form.most && form.allows(self.part.len(), byte) {
            self.part.push(byte)?;
            return Ok(true);
        }
        if self.part.is_empty() {
            return Ok(false);
        }
        match self.kind.take() {
            None if byte == DASH => {
                self.kind = Some(Kind::from_bytes(&self.part));
            }
            Some(kind) if byte == DOT && self.labels.len() + 1 < MAX_LABELS => {
                let id = Id::from_bytes(&self.part);
                self.labels.push(Label { kind, id })?;
            }
            _ => return Ok(false),
        }
        self.part.clear();
        Ok(true)
    }

    // The name, where a whole label is under way as the text ends.
    fn finish(self, end: usize) -> Result<Name, NameError>
        requires { IsReading self }
        ensures ok { IfOk result (Finishes self) }
        ensures err { IfErr result (Unfinished self end) }
    {
        let Reader {
            mut labels,
            kind,
            part,
        } = self;
        match kind {
            Some(kind) if !part.is_empty() => {
                let id = Id::from_bytes(&part);
                labels.push(Label { kind, id }).map_err(|_| Memory)?;
                labels.reverse();
                Ok(Name::from_vec(labels))
            }
            _ => Err(NameError::BadName { at: end }),
        }
    }
}

/// The name whose text it is, as `name_text` writes it. The name has 1 to 16 labels; the document's name
/// has no text that is read.
#[tactic(auto, using(crate::proofs::NameReading::name_text_once))]
pub fn read_name(alloc: Global, text: &str) -> Result<Name, NameError>
    ensures ok { IfOk result (λ name. text.now ≡ name_text name) }
    ensures form { IfOk result IsName }
    ensures only { (name : List Label) → IsName name → text.now ≡ name_text name → MatchResult result (λ read. read ≡ name) (λ e. e ≡ errors.Memory) }
    ensures once { (m n : List Label) → IsName m → IsName n → name_text m ≡ name_text n → m ≡ n }
    ensures err { IfErr result (RefusesName text.now) }
{
    let bytes = text.as_bytes();
    let mut reader = Reader {
        labels: Vec::new(alloc),
        kind: None,
        part: Vec::new(alloc),
    };
    for (at, byte) in bytes.iter().enumerate() {
        if !reader.step(*byte)? {
            return Err(NameError::BadName { at });
        }
    }
    reader.finish(bytes.len())
}
