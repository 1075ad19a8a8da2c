//! A cell whose outputs may float.
ghost use Rattle.cell_machine.specs.CellData.{data_of};
ghost use Rattle.cell_machine.specs.CellTrace.{cell_machine_of};
ghost use Rattle.driven_traces.specs.Drivers.{IsSound, IsCoreOf};
ghost use Rattle.three_state_cells.specs.Drivers.{HasEnables};

use cell_machine::Cell;
use cell_reader::LeftOut;
use driven_traces::Driver;
use sqlite_items::Items;

/// A cell whose outputs may float: a core without Z, and what drives its three-state outputs. Behind the outputs of the cell the
/// core has one more output for each of these, in their order, which is 1 where that is driven and 0 where it floats. A cell
/// without three-state outputs is its own core, and drives none.
#[derive(Drop)]
pub struct DrivenCell {
    pub core: Cell,
    /// The name of the cell in its library, in bytes.
    pub name: Items<u8>,
    /// The drivers of the three-state outputs: their paths in the order of these.
    pub driver: Driver,
    /// The timing groups that make no check and no delay of their types, in the order of the pins and their statements.
    pub left_out: Items<LeftOut>,
    /// The drivers are sound.
    pub ghost sound: { IsSound driver },
    /// The core has their inputs and their outputs, and behind these the enables.
    pub ghost is_core: { IsCoreOf driver (cell_machine_of (data_of core)) },
    /// The last pins of the core are the enables.
    pub ghost has_enables: { HasEnables core.pins driver },
}
