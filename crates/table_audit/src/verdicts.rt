//! What the comparison of a module with a cell answers.

use module_shapes::ShapePart;
use module_tables::Difference;

/// Whether a module has the shape and the tables of a cell.
#[derive(Clone, Copy)]
pub enum Verdict {
    /// In all parts, for all arguments.
    Same,
    /// This part is the first that is not the cell's.
    Shape {
        /// The part.
        part: ShapePart,
        /// Its number from 1, or 0 where the ports or two numbers of parts differ.
        number: usize,
    },
    /// The shape is the cell's; these are the first arguments at which a table gives another value than the cell.
    Differs(Difference),
}
