//! The cells and pins that a stimulus may name.
ghost use Rattle.std.specs.Prelude.{◌≡◌};
ghost use Rattle.stimulus.specs.Catalog.{Listing, cell_found, pin_found};

/// What a catalog answers to the name of a cell. A number is the catalog's own, and each stands for one cell.
#[derive(Clone, Copy)]
pub enum CellFound {
    /// The cell with this number, which may be given changes.
    Cell(usize),
    /// No cell has this name.
    Unknown,
    /// The cell with this number is refused.
    Refused(usize),
    /// The Verilog module of the cell with this number is absent or has other ports.
    VerilogPorts(usize),
    /// The VHDL entity of the cell with this number is absent or has other ports.
    VitalPorts(usize),
}

/// What a catalog answers to the name of a pin.
#[derive(Clone, Copy)]
pub enum PinFound {
    /// The input with this number, from 0 among the inputs of its cell.
    Input(usize),
    /// An output.
    Output,
    /// The cell has no port of this name.
    Unknown,
}

/// The cells that a stimulus may name, and the ports of each.
pub trait Catalog {
    /// The names that the catalog lists, with what it says of each.
    ghost listing: { Self → Listing };

    /// What the first entry of a cell's name says; `Unknown` exactly where the catalog has no such entry. Takes no
    /// memory.
    fn cell(&self, name: &[u8]) -> CellFound
        ensures { result ≡ cell_found (listing self.now) name.now };

    /// What the first entry of a port's name says among the ports of the cell with this number; `Unknown` exactly where
    /// there is no such entry. Takes no memory.
    fn pin(&self, cell: usize, name: &[u8]) -> PinFound
        ensures { result ≡ pin_found (listing self.now) cell name.now };
}
