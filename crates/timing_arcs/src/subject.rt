//! What the timing of a pin is read from, and what it is.
use bool_functions::Names;
use cell_machine::{Arc, Check, Pin};
use liberty_text::Unit;
use sqlite_items::Items;

/// The pin whose timing is read, in its cell.
#[derive(Drop)]
pub struct Subject {
    /// The pins of the cell.
    pub pins: Items<Pin>,
    /// The names of the pins, in their order.
    pub names: Names,
    /// The number of the pin.
    pub place: usize,
    /// The library's time unit, where it is a known one.
    pub unit: Option<Unit>,
}

/// How much of the timing of a pin is held. What is over a limit refuses a cell, so no more than one over it is wanted.
#[derive(Clone, Copy)]
pub struct Room {
    /// The most checks.
    pub checks: usize,
    /// The most arcs.
    pub arcs: usize,
    /// Whether the left-out timing groups are listed.
    pub left_out: bool,
}

/// For each of some checks or arcs the offset of the timing group or attribute that made it, of an arc that of the first one.
pub type StatementOffsets = Items<usize>;

/// The timing of a pin.
#[derive(Drop)]
pub struct PinTiming {
    /// The checks: of the timing groups in order, then those of the high pulse, the low pulse and the period of the pin's
    /// attributes.
    pub checks: Items<Check>,
    /// Where the checks were made.
    pub check_at: StatementOffsets,
    /// The delay arcs, of the timing groups in order. Those with the same ends and the same condition are one.
    pub arcs: Items<Arc>,
    /// Where the arcs were made.
    pub arc_at: StatementOffsets,
    /// The places of the left-out timing groups among the pin's items.
    pub left_out: Items<usize>,
    /// The least offset of a `when` statement that is read and has more than 10 names in its support.
    pub wide: Option<usize>,
}
