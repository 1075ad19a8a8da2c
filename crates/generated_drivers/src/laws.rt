//! Laws of the definitions, for the crates above. The functions do nothing.
ghost use Rattle.generated_drivers.specs.Laws.{VerilogDriversFit, VitalDriversFit, CoresAreNumbered};

/// The law that the Verilog model of a cell's drivers is sound, and the module of the cell's core has the ports of its core.
pub fn verilog_drivers_fit()
    ensures { VerilogDriversFit }
{}

/// The law that the VHDL model of a cell's drivers is sound, and the entity of the cell's core has the ports of its core.
pub fn vital_drivers_fit()
    ensures { VitalDriversFit }
{}

/// The law that the core of a cell with three-state outputs is called `cell` and its number in both languages.
pub fn cores_are_numbered()
    ensures { CoresAreNumbered }
{}
