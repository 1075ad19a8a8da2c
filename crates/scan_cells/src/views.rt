//! The test view of a scan cell.
use cell_machine::Cell;
use sqlite_items::Items;

/// A test cell read as a cell, beside the scan cell in which it stands. (Liberty Reference Manual, `test_cell` group.)
#[derive(Drop)]
pub struct View {
    /// The cell that the test cell describes.
    pub cell: Cell,
    /// For each of its pins the number of the pin with the same name in the scan cell.
    pub pins: Items<usize>,
    /// The number of the scan enable among the pins of the scan cell.
    pub enable: usize,
    /// The value at which the scan enable is active.
    pub active: bool,
}
