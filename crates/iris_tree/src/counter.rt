//! How long JSON text is, counted token by token.
ghost use Rattle.std.specs.Prelude.{◌≡◌, ◌+◌, length, if◌then◌else◌};
ghost use Rattle.json.specs.Token as json;
ghost use Rattle.json.specs.Print.{escape_byte, quoted};
ghost use Rattle.iris_tree.specs.TextLen.{saturated, counted_token};

/// How many bytes JSON under way has, at most `u64::MAX`, and whether a value has just ended.
#[derive(Clone, Copy, Debug)]
pub struct Counter {
    pub len: u64,
    pub after_value: bool,
}

// How many bytes stand in a string for that byte.
#[tactic(auto, unfolding(json::specs::Print::escape_byte))]
fn escaped_len(byte: u8) -> u64
    ensures { result ≡ length (escape_byte byte) }
{
    match byte {
        b'"' | b'\\' | b'\x08' | b'\t' | b'\n' | b'\x0c' | b'\r' => 2,
        b'\0'..b' ' => 6,
        _ => 1,
    }
}

// How many bytes the text has in quotes.
fn quoted_len(text: &str) -> u64
    ensures { result ≡ saturated (length (quoted text.now)) }
{
    let mut len: u64 = 2;
    for byte in text.as_bytes() {
        len = len.saturating_add(escaped_len(*byte));
    }
    len
}

impl Counter {
    #[tactic(auto, unfolding(crate::specs::TextLen::counted_token))]
    pub fn begin_object(&mut self)
        ensures { self.new ≡ counted_token self.old json.begin_object }
    {
        self.begin(1);
        self.after_value = false;
    }

    #[tactic(auto, unfolding(crate::specs::TextLen::counted_token))]
    pub fn end_object(&mut self)
        ensures { self.new ≡ counted_token self.old json.end_object }
    {
        self.len = self.len.saturating_add(1);
        self.after_value = true;
    }

    #[tactic(auto, unfolding(crate::specs::TextLen::counted_token))]
    pub fn begin_array(&mut self)
        ensures { self.new ≡ counted_token self.old json.begin_array }
    {
        self.begin(1);
        self.after_value = false;
    }

    #[tactic(auto, unfolding(crate::specs::TextLen::counted_token))]
    pub fn end_array(&mut self)
        ensures { self.new ≡ counted_token self.old json.end_array }
    {
        self.len = self.len.saturating_add(1);
        self.after_value = true;
    }

    #[tactic(auto, unfolding(crate::specs::TextLen::counted_token))]
    pub fn key(&mut self, name: &str)
        ensures { self.new ≡ counted_token self.old (json.key name.now) }
    {
        self.begin(quoted_len(name).saturating_add(1));
        self.after_value = false;
    }

    #[tactic(auto, unfolding(crate::specs::TextLen::counted_token))]
    pub fn string(&mut self, text: &str)
        ensures { self.new ≡ counted_token self.old (json.string text.now) }
    {
        self.begin(quoted_len(text));
        self.after_value = true;
    }

    // A value or a member of that length begins.
    fn begin(&mut self, len: u64)
        ensures len { self.new.len ≡ saturated (self.old.len + (if self.old.after_value then 1 else 0) + len) }
        ensures after { self.new.after_value ≡ self.old.after_value }
    {
        let comma = if self.after_value { 1 } else { 0 };
        self.len = self.len.saturating_add(comma).saturating_add(len);
    }
}
