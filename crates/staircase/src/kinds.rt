//! What goes into a join and comes out of it.

/// A node of a fragment in an iteration: row `pre`, or the attribute of that row with the number `attr`,
/// counted from 1, where this isn't 0.
#[derive(Clone, Copy, Debug, PartialEq, Eq)]
pub struct Ctx {
    pub iter: u64,
    pub pre: u32,
    pub attr: u32,
}

/// What a join counts: the rows of its context, the rows on the axis before the node test, the rows
/// that it read and that are neither, and the rows that it read.
#[derive(Clone, Copy, Debug, PartialEq, Eq)]
pub struct Tally {
    pub context: u64,
    pub result: u64,
    pub skipped: u64,
    pub read: u64,
}
