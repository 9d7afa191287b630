//! The lines of a run.
ghost use Rattle.std.specs.Prelude.{◌≡◌};
ghost use Rattle.iris_json.specs.Out.{why_word, which_word};

use crate::find::Offer;
use crate::summary::Summary;
use crate::word::Word;
use iris_fragment::{Level, Status};
use iris_tree::{AgentId, Cite, Item, Name, Sequence, State};

/// What is wrong with a script.
#[derive(Clone, Copy, Debug, PartialEq, Eq)]
pub enum Why {
    /// It has no byte.
    Empty,
    /// Its last line has no LF.
    Truncated,
    /// A line is no JSON.
    NotJson,
    /// A line is not of its form.
    Shape,
    /// The kinds of the city are none, too many or equal, or one is not well formed.
    Kinds,
    /// The agents of the city are none, too many or equal, or one is not well formed.
    Agents,
    /// The capacities of the city are not one an agent, or one of them or their sum is out of range.
    Capacities,
    /// A node is of no kind of the city, or its id is not well formed.
    Label,
    /// A node has the label of an earlier sibling.
    Twin,
    /// A name of an attribute is not well formed, or it is `id`.
    Attribute,
    /// A plain element's tag is not well formed or a kind, or it has both kids and a text.
    Plain,
    /// A placed name is none of a node, stands twice or is placed at no agent, or the top node is not placed.
    Place,
    /// The zone is no POSIX zone.
    Zone,
    /// A name in a line is not well formed.
    Name,
    /// A number in a line is not whole or out of its range.
    Number,
    /// The changes in a line are not well formed.
    Change,
}

impl Why {
    /// The word that the last line has for it.
    pub fn word(self) -> &'static str
        ensures { result.now ≡ why_word self }
    {
        match self {
            Why::Empty => "empty",
            Why::Truncated => "truncated",
            Why::NotJson => "not-json",
            Why::Shape => "shape",
            Why::Kinds => "kinds",
            Why::Agents => "agents",
            Why::Capacities => "caps",
            Why::Label => "label",
            Why::Twin => "twin",
            Why::Attribute => "attr",
            Why::Plain => "plain",
            Why::Place => "place",
            Why::Zone => "zone",
            Why::Name => "name",
            Why::Number => "number",
            Why::Change => "change",
        }
    }
}

/// A limit of a script, of its city or of its run.
#[derive(Clone, Copy, Debug, PartialEq, Eq)]
pub enum Which {
    /// The bytes of a line without its LF, `MAX_CITY_BYTES` for the city line and `MAX_LINE_BYTES` for another.
    Line,
    /// The bytes of the script, `MAX_SCRIPT_BYTES`.
    Script,
    /// The lines of the script, `MAX_LINES`.
    Lines,
    /// The nodes of the city, `MAX_NODES`.
    Nodes,
    /// The labels of a name, `MAX_LABELS`.
    Depth,
    /// The children of a node, `MAX_CHILDREN`.
    Children,
    /// The attributes of a node or of a plain element, `MAX_ATTRIBUTES`.
    Attributes,
    /// The plain elements of a node at any depth, `MAX_PLAIN`.
    Plain,
    /// The levels of plain elements of a node, `MAX_PLAIN_DEPTH`.
    PlainDepth,
    /// The bytes of a node's canonical local information, `MAX_LOCAL_BYTES`.
    Local,
    /// The posts that are kept, `MAX_POSTS`.
    Posts,
    /// The bytes of the posts that are kept, `MAX_POST_BYTES`.
    PostBytes,
    /// The entries of the book, `MAX_ENTRIES`.
    Entries,
    /// The bytes of the book's entries, `MAX_ENTRY_BYTES`.
    EntryBytes,
}

impl Which {
    /// The word that the last line has for it.
    pub fn word(self) -> &'static str
        ensures { result.now ≡ which_word self }
    {
        match self {
            Which::Line => "line",
            Which::Script => "script",
            Which::Lines => "lines",
            Which::Nodes => "nodes",
            Which::Depth => "depth",
            Which::Children => "children",
            Which::Attributes => "attributes",
            Which::Plain => "plain",
            Which::PlainDepth => "plain-depth",
            Which::Local => "local",
            Which::Posts => "posts",
            Which::PostBytes => "post-bytes",
            Which::Entries => "entries",
            Which::EntryBytes => "entry-bytes",
        }
    }
}

/// Why a text is refused as a query.
#[derive(Debug, Drop)]
pub enum QueryFault {
    /// The text is no expression of XPath 1.0: what stands at that byte, from 0, cannot stand there.
    Syntax {
        at: u64,
    },
    /// What stands at that byte, from 0, is outside the part of XPath 1.0 that is answered.
    Outside {
        at: u64,
        /// What it is, as `axis`.
        what: Word,
    },
    /// The query passes a limit.
    TooLarge {
        /// What there is too much of, as `steps`.
        which: Word,
    },
}

/// A line of a run, without its LF. Numbers of posts, requests and asks count from 0.
#[derive(Debug, Drop)]
pub enum Out {
    /// A query, or a question for parking, was posted to an agent.
    Query {
        post: u64,
        request: u64,
        to: AgentId,
    },
    /// An update was posted to an agent.
    Update {
        post: u64,
        request: u64,
        to: AgentId,
    },
    /// An agent asks another one for what it needs of a node.
    Ask {
        ask: u64,
        level: Level,
        name: Name,
        post: u64,
        /// How the evaluation stands at the node, in the order of states.
        states: Sequence<State>,
        to: AgentId,
    },
    /// An ask is answered to the agent that made it.
    Reply {
        ask: u64,
        /// How many names it has pieces of.
        pieces: u64,
        post: u64,
        to: AgentId,
    },
    /// A node is handed over to its new owner.
    Handover {
        /// How often the node had been moved, this move counted.
        epoch: u64,
        name: Name,
        post: u64,
        to: AgentId,
    },
    /// A request was answered.
    Answer {
        /// The items, in the order of their places.
        answer: Sequence<Item>,
        /// What the answer rests on, in the order of names.
        cites: Sequence<Cite>,
        /// Whether each cited version is the newest.
        newest: bool,
        request: u64,
    },
    /// A question for parking was answered.
    Offers {
        /// What the offers rest on, in the order of names.
        cites: Sequence<Cite>,
        /// Whether each cited version is the newest.
        newest: bool,
        /// The offers, the best first.
        offers: Sequence<Offer>,
        request: u64,
    },
    /// An audit was answered.
    Audit {
        /// The items, in the order of their places.
        audit: Sequence<Item>,
        request: u64,
    },
    /// An update was made, and is that version of its node.
    Accepted {
        accepted: u64,
        request: u64,
    },
    /// A move was made.
    Gave {
        /// How often the node has been moved, this move counted.
        gave: u64,
        request: u64,
    },
    /// A copy was dropped.
    Evicted {
        /// What the agent still holds of the node, `IdComplete` or `Incomplete`.
        evicted: Status,
        request: u64,
    },
    /// A settle made so many deliveries.
    Settled {
        settled: u64,
    },
    /// A forget forgot so many posts.
    Forgot {
        forgot: u64,
    },
    /// The owner of a node.
    Owner {
        agent: AgentId,
        /// How often the node has been moved.
        epoch: u64,
        name: Name,
    },
    /// The counts of the world.
    Summary(Summary),
    /// The time was not put back.
    BackInTime {
        /// The present moment, in milliseconds.
        now: u64,
    },
    /// A query was refused.
    BadQuery {
        why: QueryFault,
        request: u64,
    },
    /// No node has the name.
    NoSuchNode {
        /// The number of the request; none where the owner was asked for, which is no request.
        request: Option<u64>,
    },
    /// A request was refused: it names no agent of the city.
    NoSuchAgent {
        request: u64,
    },
    /// A move was refused: the agent owns the node already.
    SameOwner {
        request: u64,
    },
    /// An eviction was refused: the agent owns the node.
    IsOwned {
        request: u64,
    },
    /// An update or a move was refused: it could not be kept.
    Unkept {
        request: u64,
    },
    /// An update was refused: its number is not above the last of its node.
    Old {
        last: u64,
        request: u64,
    },
    /// An update was refused: the change at that place of its list, from 0, cannot be made.
    BadChange {
        at: u64,
        request: u64,
    },
    /// A request was refused: the node is on its way to its new owner.
    InTransit {
        /// How often the node has been moved, the move under way counted.
        epoch: u64,
        request: u64,
    },
    /// A request was refused: too many are open.
    Busy {
        /// The client queries that are open. Its key in the line is `open`.
        opened: u64,
        request: u64,
    },
    /// An eviction was refused: the agent holds no copy of the node.
    NotHeld {
        /// What it holds of the node, `IdComplete` or `Incomplete`; none where it knows nothing of it.
        status: Option<Status>,
        request: u64,
    },
    /// No post has that number.
    NoSuchMessage {
        /// The posts that were made.
        posted: u64,
    },
    /// A question for parking was refused: the tariff of a block cannot be read.
    BadTariff {
        /// The block's name.
        name: Name,
        request: u64,
    },
    /// The last line where a line of the script, counted from 1, is at fault.
    Ended {
        line: u64,
        why: Why,
        /// The number of the node of the city line that is at fault, from 0; none where the fault is of no node.
        node: Option<u32>,
    },
    /// The last line where a limit is passed.
    Limit {
        count: u64,
        which: Which,
    },
}

/// The status of a program that ends at a fault of its script.
pub const BAD_SCRIPT: u64 = 3;

/// The status of a program that ends at a limit.
pub const PAST_LIMIT: u64 = 7;
