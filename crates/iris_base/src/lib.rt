//! What every crate of iris shares: running out of memory, lists, texts, labels and names.
#![tactic(auto)]

mod attribute;
mod cite;
mod error;
mod faults;
mod letters;
mod limits;
mod memory;
mod name;
mod reading;
mod sequence;
mod short;
mod spelling;
mod state;
mod text;
mod word;

pub use attribute::is_id;
pub use cite::Cite;
pub use error::{NameError, TextError};
pub use faults::{Fault, count_fault};
pub use letters::{DASH, DOT, Form, Letters, UNDERSCORE};
pub use limits::{
    DEFAULT_CAPACITY, MAX_AGENT_BYTES, MAX_AGENTS, MAX_ARRIVAL, MAX_ATTRIBUTES, MAX_CAPACITIES,
    MAX_CAPACITY, MAX_CHANGES, MAX_CHILDREN, MAX_CITY_BYTES, MAX_DIGITS, MAX_ENTRIES,
    MAX_ENTRY_BYTES, MAX_ID_BYTES, MAX_KIND_BYTES, MAX_KINDS, MAX_LABELS, MAX_LINE_BYTES,
    MAX_LINES, MAX_LOCAL_BYTES, MAX_NESTING, MAX_NODES, MAX_NUMBER, MAX_OFFERS, MAX_OPEN,
    MAX_OPERANDS, MAX_PARENTHESES, MAX_PATH_PARTS, MAX_PLAIN, MAX_PLAIN_DEPTH, MAX_POST_BYTES,
    MAX_POSTS, MAX_QUERY_BYTES, MAX_SCRIPT_BYTES, MAX_STAY, MAX_STEPS, MAX_TAG_BYTES, MAX_TRIES,
    MINUTES_A_DAY,
};
pub use memory::{Mem, Memory};
pub use name::{Label, Name};
pub use reading::read_name;
pub use sequence::Sequence;
pub use short::{AgentForm, AgentId, Id, IdForm, Kind, KindForm, Short, Spelled, Tag, TagForm};
pub use spelling::name_text;
pub use state::State;
pub use text::Text;
