//! Timing checks. (Liberty Reference Manual, `timing` group and pin attributes; IEEE 1364-2005, clause 15.)
use bool_functions::Function;

/// The kind of a timing check.
#[derive(Clone, Copy, PartialEq, Eq)]
pub enum CheckKind {
    /// Data has to be stable before a clock edge.
    Setup,
    /// Data has to be stable after a clock edge.
    Hold,
    /// A control has to be gone before a clock edge.
    Recovery,
    /// A control has to stay after a clock edge.
    Removal,
    /// A pulse has a least width.
    Width,
    /// Edges of one kind have a least distance.
    Period,
}

/// Which events of a pin count.
#[derive(Clone, Copy, PartialEq, Eq)]
pub enum Edge {
    /// Each.
    Any,
    /// The possible rises: 0 to 1, 0 to unknown and unknown to 1.
    Rise,
    /// The possible falls: 1 to 0, 1 to unknown and unknown to 0.
    Fall,
}

/// An event of a pin, of one kind.
#[derive(Clone, Copy)]
pub struct Event {
    /// The number of the pin.
    pub pin: usize,
    /// Which events of the pin count.
    pub edge: Edge,
}

/// A timing check: its second event may not come nearer than `limit` after the last first event.
#[derive(Drop)]
pub struct Check {
    /// What is checked.
    pub kind: CheckKind,
    /// The earlier event. Of a `Period` it is, at each second event, the event of the same kind.
    pub first: Event,
    /// The later event, at which the check compares.
    pub second: Event,
    /// The least distance, in picoseconds.
    pub limit: u64,
    /// Where there is one, the check counts only where it is 1 at the second event.
    pub condition: Option<Function>,
}
