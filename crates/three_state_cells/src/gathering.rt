//! The law that gathering the alike pins of a cell changes nothing of what is read of it.
ghost use Rattle.three_state_cells.specs.Gathering.{GatheredCellsAreReadAsExpanded};

/// A cell in which the alike pins of a bus or bundle are one pin group is refused as the cell expanded to single bits is, by the
/// same reason at the same offset, and is else the same cell.
pub fn gathered_cells_are_read_as_expanded()
    ensures { GatheredCellsAreReadAsExpanded }
{}
