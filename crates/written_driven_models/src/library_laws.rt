//! Laws of the models and drivers that are generated for the cells of one library, for the proofs of other crates. The functions
//! do nothing.

ghost use Rattle.written_driven_models.specs.LibraryLaws.{ReadCellsAreNumbered, DistinctCellsAreOfOneLibrary};
ghost use Rattle.written_driven_models.specs.LibraryLaws.{DrivenModulesAreWellFormed, DrivenEntitiesAreWellFormed};
ghost use Rattle.written_driven_models.specs.DriverLaws.{ReadCellsHaveDrivers};
ghost use Rattle.written_driven_models.specs.DriverLaws.{VerilogDriversAreWellFormed, VitalDriversAreWellFormed};

/// The law that the data of every cell with three-state outputs, whose core keeps the rules of cells, are such as the laws on its
/// drivers ask for.
pub fn read_cells_have_drivers()
    ensures { ReadCellsHaveDrivers }
{}

/// The law that the Verilog model of a cell's drivers is well formed where its name is not taken and the module of the cell's
/// core stands in the file.
pub fn verilog_drivers_are_well_formed()
    ensures { VerilogDriversAreWellFormed }
{}

/// The law that the VHDL model of a cell's drivers is well formed where its name is not taken and the entity of the cell's core
/// stands in the file.
pub fn vital_drivers_are_well_formed()
    ensures { VitalDriversAreWellFormed }
{}

/// What is read of a cell, with what drives its outputs, can be one of a library, where its core keeps the rules of cells.
pub fn read_cells_are_numbered()
    ensures { ReadCellsAreNumbered }
{}

/// Cells of which no two have one name or one number are cells of one library.
pub fn distinct_cells_are_of_one_library()
    ensures { DistinctCellsAreOfOneLibrary }
{}

/// The modules of the cores of the cells of one library, and the models of the drivers over them, each behind those before it,
/// are well formed together: no two of all primitives, modules and drivers share a name, and each driver finds the module of its
/// cell's core. So what is written of them reads back, and as no others. (IEEE 1364-2005, clauses 3, 7.4 and 12.)
pub fn driven_modules_are_well_formed()
    ensures { DrivenModulesAreWellFormed }
{}

/// The entities of cells of which no two have one number, and the models of their drivers, each named behind those before it, are
/// well formed together: no two share a name, whatever the case of its letters, and each driver stands over the entity of its
/// core. So what is written of them reads back. (IEEE 1076-1993, 10.3 and 13.3.1.)
pub fn driven_entities_are_well_formed()
    ensures { DrivenEntitiesAreWellFormed }
{}
