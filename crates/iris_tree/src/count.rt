//! The length of the JSON texts of local information and of changes, without memory.
ghost use Rattle.std.specs.Prelude.{◌≡◌, flat_map, length};
ghost use Rattle.iris_tree.specs.Changes.{change_data, changes_data, changes_text};
ghost use Rattle.iris_tree.specs.LocalText.{attrs_data, plain_data, local_data, local_text, value_tokens, pair_tokens};
ghost use Rattle.iris_tree.specs.TextLen.{saturated, counted};

use crate::attrs::Attrs;
use crate::change::Change;
use crate::counter::Counter;
use crate::local::Local;
use crate::plain::Plain;

impl Attrs {
    #[tactic(auto, using(crate::proofs::ValueTokens::attrs_written, crate::proofs::Counted::counted_push))]
    fn count(&self, counter: &mut Counter)
        ensures { counter.new ≡ counted counter.old (value_tokens (attrs_data self.now)) }
    {
        counter.begin_object();
        self.count_members(counter);
        counter.end_object();
    }

    fn count_members(&self, counter: &mut Counter)
        ensures { counter.new ≡ counted counter.old (flat_map pair_tokens self.now) }
    {
        for (name, value) in self.as_slice() {
            counter.key(name.as_str());
            counter.string(value.as_str());
        }
    }
}

impl Plain {
    fn count(&self, counter: &mut Counter)
        ensures { counter.new ≡ counted counter.old (value_tokens (plain_data self.now)) }
    {
        counter.begin_object();
        counter.key("attrs");
        self.attrs.count(counter);
        counter.key("kids");
        counter.begin_array();
        for kid in self.kids.as_slice() {
            kid.count(counter);
        }
        counter.end_array();
        counter.key("tag");
        counter.string(self.tag.as_str());
        counter.key("text");
        counter.string(self.text.as_str());
        counter.end_object();
    }
}

impl Local {
    fn count(&self, counter: &mut Counter)
        ensures { counter.new ≡ counted counter.old (value_tokens (local_data self.now)) }
    {
        counter.begin_object();
        counter.key("attrs");
        self.attrs.count(counter);
        counter.key("plain");
        counter.begin_array();
        for element in self.plain.as_slice() {
            element.count(counter);
        }
        counter.end_array();
        counter.end_object();
    }

    /// The length in bytes of `text`, or `u64::MAX` where it is longer. It takes no memory.
    pub fn text_len(&self) -> u64
        ensures { result ≡ saturated (length (local_text self.now)) }
    {
        let mut counter = Counter {
            len: 0,
            after_value: false,
        };
        self.count(&mut counter);
        counter.len
    }
}

impl Change {
    #[tactic(auto, using(crate::proofs::Counted::counted_push), unfolding(crate::specs::LocalText::value_tokens))]
    fn count(&self, counter: &mut Counter)
        ensures { counter.new ≡ counted counter.old (value_tokens (change_data self.now)) }
    {
        counter.begin_array();
        match self {
            Change::Attr { name, value } => {
                counter.string("attr");
                counter.string(name.as_str());
                counter.string(value.as_str());
            }
            Change::Drop { name } => {
                counter.string("drop");
                counter.string(name.as_str());
            }
            Change::Put { plain } => {
                counter.string("put");
                plain.count(counter);
            }
        }
        counter.end_array();
    }
}

fn count_changes(changes: &[Change], counter: &mut Counter)
    ensures { counter.new ≡ counted counter.old (value_tokens (changes_data changes.now)) }
{
    counter.begin_array();
    for change in changes {
        change.count(counter);
    }
    counter.end_array();
}

/// The length in bytes of `changes_text`, or `u64::MAX` where it is longer. It takes no memory.
pub fn changes_len(changes: &[Change]) -> u64
    ensures { result ≡ saturated (length (changes_text changes.now)) }
{
    let mut counter = Counter {
        len: 0,
        after_value: false,
    };
    count_changes(changes, &mut counter);
    counter.len
}
