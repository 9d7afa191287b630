//! The document of a city: nodes by their labels, each with attributes and plain elements.
#![tactic(auto)]

mod attrs;
mod change;
mod count;
mod counter;
mod item;
mod json_text;
mod kinds;
mod local;
mod plain;
mod plain_counts;
mod tree;
mod write;
mod written;

pub use attrs::Attrs;
pub use change::{Change, ChangeError};
pub use count::changes_len;
pub use iris_base::{
    AgentForm, AgentId, Cite, DASH, DEFAULT_CAPACITY, DOT, Fault, Form, Id, IdForm, Kind, KindForm,
    Label, Letters, MAX_AGENT_BYTES, MAX_AGENTS, MAX_ARRIVAL, MAX_ATTRIBUTES, MAX_CAPACITIES,
    MAX_CAPACITY, MAX_CHANGES, MAX_CHILDREN, MAX_CITY_BYTES, MAX_DIGITS, MAX_ENTRIES,
    MAX_ENTRY_BYTES, MAX_ID_BYTES, MAX_KIND_BYTES, MAX_KINDS, MAX_LABELS, MAX_LINE_BYTES,
    MAX_LINES, MAX_LOCAL_BYTES, MAX_NESTING, MAX_NODES, MAX_NUMBER, MAX_OFFERS, MAX_OPEN,
    MAX_OPERANDS, MAX_PARENTHESES, MAX_PATH_PARTS, MAX_PLAIN, MAX_PLAIN_DEPTH, MAX_POST_BYTES,
    MAX_POSTS, MAX_QUERY_BYTES, MAX_SCRIPT_BYTES, MAX_STAY, MAX_STEPS, MAX_TAG_BYTES, MAX_TRIES,
    MINUTES_A_DAY, Mem, Memory, Name, NameError, Sequence, Short, Spelled, State, Tag, TagForm,
    Text, TextError, UNDERSCORE, count_fault, is_id, name_text, read_name,
};
pub use item::{Element, Item};
pub use json_text::JsonText;
pub use local::Local;
pub use plain::Plain;
pub use tree::{InsertError, Tree};
pub use write::changes_text;
