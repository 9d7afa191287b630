//! The limits of what iris takes, each said once.

/// The greatest number of bytes of a kind.
pub const MAX_KIND_BYTES: usize = 16;

/// The greatest number of bytes of an id.
pub const MAX_ID_BYTES: usize = 24;

/// The greatest number of bytes of a tag.
pub const MAX_TAG_BYTES: usize = 24;

/// The greatest number of bytes of an agent's id.
pub const MAX_AGENT_BYTES: usize = 16;

/// The greatest number of labels of a name, and so of levels of a city.
pub const MAX_LABELS: usize = 16;

/// The greatest number of kinds of a city.
pub const MAX_KINDS: usize = 16;

/// The greatest number of nodes of a city.
pub const MAX_NODES: u64 = 20_000;

/// The greatest number of children of a node.
pub const MAX_CHILDREN: u64 = 2_000;

/// The greatest number of attributes of a node.
pub const MAX_ATTRIBUTES: u64 = 64;

/// The greatest number of bytes of a node's canonical local information.
pub const MAX_LOCAL_BYTES: u64 = 1_024;

/// The greatest number of changes of an update.
pub const MAX_CHANGES: usize = 64;

/// The greatest number in a line of a script.
pub const MAX_NUMBER: u64 = 1_000_000_000_000_000;

/// The greatest number of bytes of a city line, without its LF.
pub const MAX_CITY_BYTES: usize = 4_194_304;

/// The greatest number of bytes of a line after the city line, without its LF.
pub const MAX_LINE_BYTES: usize = 16_384;

/// The greatest number of bytes of a script.
pub const MAX_SCRIPT_BYTES: usize = 268_435_456;

/// The greatest number of lines of a script.
pub const MAX_LINES: u64 = 1_000_000;

/// The greatest number of bytes of a query.
pub const MAX_QUERY_BYTES: usize = 4_096;

/// The greatest number of main steps of a query.
pub const MAX_STEPS: usize = 32;

/// The greatest number of operands of a query.
pub const MAX_OPERANDS: usize = 64;

/// The greatest number of digits of a number in a query, as they are written.
pub const MAX_DIGITS: usize = 18;

/// The greatest number of parts of a path in a predicate, its attribute counted.
pub const MAX_PATH_PARTS: usize = 16;

/// How deep parentheses, those of `not` among them, may be nested inside one predicate.
pub const MAX_PARENTHESES: usize = 16;

/// How deep predicates with paths may be nested: the greatest nesting depth of a query.
pub const MAX_NESTING: usize = 4;

/// The greatest number of plain elements of a node, at any depth.
pub const MAX_PLAIN: u64 = 64;

/// How deep plain elements may be nested; one that has no kids is nested one deep.
pub const MAX_PLAIN_DEPTH: u64 = 4;

/// The greatest number of agents of a city.
pub const MAX_AGENTS: usize = 64;

/// The greatest capacity of an agent's cache: how many copies of nodes it may hold.
pub const MAX_CAPACITY: u32 = 20_000;

/// The greatest sum of the capacities of a city's agents.
pub const MAX_CAPACITIES: u64 = 60_000;

/// The capacity of each agent's cache, where the city line tells none.
pub const DEFAULT_CAPACITY: u32 = 500;

/// The greatest number of client queries that are open at once.
pub const MAX_OPEN: u64 = 32;

/// How many kept posts stop a call that may post.
pub const MAX_POSTS: u64 = 200_000;

/// How many bytes of kept posts stop a call that may post.
pub const MAX_POST_BYTES: u64 = 536_870_912;

/// How many entries of the book stop a call that may add one.
pub const MAX_ENTRIES: u64 = 4_000_000;

/// How many bytes of the book's entries stop a call that may add one.
pub const MAX_ENTRY_BYTES: u64 = 536_870_912;

/// The latest moment of an arrival, in milliseconds since 1970: the beginning of the year 2100.
pub const MAX_ARRIVAL: u64 = 4_102_444_800_000;

/// The longest stay, in minutes: a week.
pub const MAX_STAY: u32 = 10_080;

/// The greatest number of offers that a line asks for.
pub const MAX_OFFERS: u32 = 100;

/// The minutes of a day.
pub const MINUTES_A_DAY: u32 = 1_440;

/// How often a call that is interrupted is made in all.
pub const MAX_TRIES: u32 = 1_000;
