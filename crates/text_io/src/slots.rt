//! The slots for files that a command reads and writes.

/// What a command reads: a Liberty library, a Verilog file, a VHDL file, a stimulus.
#[derive(Clone, Copy)]
pub enum InSlot {
    Library,
    Verilog,
    Vital,
    Stimulus,
}

/// What a command writes: the Verilog models, the VHDL models, its report, and the line of its fault.
#[derive(Clone, Copy)]
pub enum OutSlot {
    VerilogText,
    VitalText,
    Report,
    Faults,
}

/// A place at which a file can be bound, for reading or for writing.
#[derive(Clone, Copy)]
pub enum Slot {
    Input(InSlot),
    Output(OutSlot),
}
