//! The law that expanding a cell to single bits keeps what it does.
ghost use Rattle.bank_machines.specs.Laws.{BankTextsHaveValues, BankMachineIsExpandedCell};
ghost use Rattle.bank_machines.specs.Laws.{BankMachineIsExpandedCore, AcceptedCellsRunAsBanks};

/// The function of a text at a position has the value of the text's tree, in which each written name has its value at the
/// position.
pub fn bank_texts_have_values()
    ensures { BankTextsHaveValues }
{}

/// Expanding a cell keeps its machine: after each history of its inputs the expanded cell has, bit by bit, the states and
/// outputs of the bank machine, which reads the cell's texts as they stand, and on all changes it shows the same.
pub fn bank_machine_is_expanded_cell()
    ensures { BankMachineIsExpandedCell }
{}

/// So it is for a cell whose outputs may float: the core of the expanded cell, which has one more output for each of them, has
/// the states and outputs of the bank machine, with `three_state` read as it stands.
pub fn bank_machine_is_expanded_core()
    ensures { BankMachineIsExpandedCore }
{}

/// So what is read of an expanded group, whether its outputs may float or not, runs as the bank machine of its cell.
pub fn accepted_cells_run_as_banks()
    ensures { AcceptedCellsRunAsBanks }
{}
