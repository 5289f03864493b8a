//! Numbers of functions, and the nodes that they stand for.

/// The number of a function in a table of diagrams: 0 is false, 1 is true, and each other number is
/// that of a node.
#[derive(Clone, Copy, Debug, PartialEq, Eq, Hash)]
pub struct DdId(pub u64);

/// A function by its first variable: where that is true it is `high`, else `low`.
#[derive(Clone, Copy, Debug, PartialEq, Eq, Hash)]
pub struct Node {
    pub var: u32,
    pub low: DdId,
    pub high: DdId,
}
