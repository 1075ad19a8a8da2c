//! What holds of the number of every cell. The functions do nothing.

ghost use Rattle.std.specs.Prelude.{◌<◌, ◌^◌};
ghost use Rattle.cell_machine.specs.CellData.{data_of};
ghost use Rattle.generated_modules.specs.Cells.{IsNumberedCell};

use cell_machine::Cell;

/// A cell keeps the rules of cells, and its number has at most 64 bits.
pub(crate) fn cell_is_numbered(cell: &Cell)
    ensures { IsNumberedCell (data_of cell.now) }
{
    number_has_a_word(cell.number);
}

/// A number has at most 64 bits.
fn number_has_a_word(number: usize)
    ensures { number < 2 ^ 64 }
{
    let _number = number;
}
