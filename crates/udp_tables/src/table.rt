//! The table of a primitive, by IEEE 1364-2005, clause 8.
use crate::entries::Entries;
use small_bytes::SmallBytes;
use sqlite_items::Items;

/// A user-defined primitive, by IEEE 1364-2005, clause 8: one output, its inputs in the order of the header, and a
/// table.
#[derive(Drop)]
pub struct Udp {
    /// The primitive's name, in bytes.
    pub name: SmallBytes,
    /// The output's name, in bytes.
    pub output: SmallBytes,
    /// The names of the inputs, in bytes, in the order of the header.
    pub inputs: Items<SmallBytes>,
    /// Whether the primitive has a state. In a combinational one each row's `state` is `Any`, and no `next` is `Keep`.
    pub sequential: bool,
    /// The rows of the table, in order.
    pub rows: Items<UdpRow>,
}

/// A row of a primitive's table.
#[derive(Drop)]
pub struct UdpRow {
    /// An entry for each input.
    pub inputs: Entries,
    /// What the current state has to be.
    pub state: Level,
    /// The output, or the next state.
    pub next: Next,
}

/// A level symbol: which values it matches.
#[derive(Clone, Copy, PartialEq, Eq)]
pub enum Level {
    /// `0`.
    Zero,
    /// `1`.
    One,
    /// `x`.
    Unknown,
    /// `?`: 0, 1 and x.
    Any,
    /// `b`: 0 and 1.
    Binary,
}

/// The entry of one input in a row.
#[derive(Clone, Copy, PartialEq, Eq)]
pub enum Entry {
    /// The input has one of the values of the level.
    Level(Level),
    /// `(vw)`: a change from a value of v to a value of w.
    Pair(Level, Level),
    /// `r`: a change from 0 to 1.
    R,
    /// `f`: a change from 1 to 0.
    F,
    /// `p`: a change from 0 to 1, from 0 to x or from x to 1.
    P,
    /// `n`: a change from 1 to 0, from 1 to x or from x to 0.
    N,
    /// `*`: any change.
    Star,
}

/// What a row gives.
#[derive(Clone, Copy)]
pub enum Next {
    /// `0`.
    Zero,
    /// `1`.
    One,
    /// `x`.
    Unknown,
    /// `-`: the state stays, in a sequential primitive only.
    Keep,
}
