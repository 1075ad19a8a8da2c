//! The pins of a cell.
use sqlite_items::Items;

/// Where the signal of a pin comes from. (Liberty Reference Manual, `direction`.)
#[derive(Clone, Copy, PartialEq, Eq)]
pub enum Direction {
    /// From outside: the pin is a port that the cell reads.
    Input,
    /// From the cell: the pin is a port that the cell drives.
    Output,
    /// Neither: the pin is no port and stands for a node of the cell.
    Internal,
}

/// A pin of a cell. Pins are numbered from 0 in their order in the cell.
#[derive(Drop)]
pub struct Pin {
    /// The name, in bytes.
    pub name: Items<u8>,
    /// Where its signal comes from.
    pub direction: Direction,
}
