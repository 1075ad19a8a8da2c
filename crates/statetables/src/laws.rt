//! Laws of the definitions, for the crates above.
ghost use Rattle.statetables.specs.Laws.{TablesReadAreRectangular};

/// The law that a table that a text stands for has the inputs and nodes asked for and, in each row, a symbol for each of
/// them. So what `read_table` answers meets what `step` requires of a table.
pub fn tables_read_are_rectangular()
    ensures { TablesReadAreRectangular }
{}
