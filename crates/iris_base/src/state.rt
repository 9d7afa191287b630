//! How an evaluation stands at a node.

/// How an evaluation stands at a node. Steps are numbered from 0. States are ordered as they stand here,
/// and then by their numbers.
#[derive(Clone, Copy, Debug, PartialEq, Eq, PartialOrd, Ord)]
pub enum State {
    /// A step goes on from here.
    At(u32),
    /// A step with `//` goes on from here, after it came from above.
    Seek(u32),
    /// The predicates of a step are to be tested here.
    Test(u32),
    /// The node is selected, with all below it.
    Whole,
}
