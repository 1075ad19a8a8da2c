//! A catalog of cells with the names of their ports.
use crate::catalog::{Catalog, CellFound, PinFound};
use bool_functions::Names;
use sqlite_items::Items;
use std::alloc::{AllocError, Global};
use std::marker::Model;

/// How a cell of a catalog stands.
#[derive(Clone, Copy)]
pub enum Standing {
    /// It may be given changes.
    Ready,
    /// It is refused.
    Refused,
    /// Its Verilog module is absent or has other ports.
    VerilogPorts,
    /// Its VHDL entity is absent or has other ports.
    VitalPorts,
}

impl Standing {
    ghost use Rattle.std.specs.Prelude.{◌≡◌};
    ghost use Rattle.stimulus.specs.Catalog.{cell_answer};
    ghost use Rattle.stimulus.specs.PortEntries.{entry_of_cell};

    /// What a catalog answers to the name of the cell with this number, which stands so.
    fn cell_found(self, number: usize) -> CellFound
        ensures { result ≡ cell_answer (Some (entry_of_cell number self)) }
    {
        match self {
            Standing::Ready => CellFound::Cell(number),
            Standing::Refused => CellFound::Refused(number),
            Standing::VerilogPorts => CellFound::VerilogPorts(number),
            Standing::VitalPorts => CellFound::VitalPorts(number),
        }
    }
}

/// How a cell stands, and the names of its ports, which are numbered from 0 among those of their direction.
#[derive(Drop)]
pub struct Ports {
    pub standing: Standing,
    pub inputs: Names,
    pub outputs: Names,
}

impl Ports {
    ghost use Rattle.std.specs.Prelude.{◌≡◌};
    ghost use Rattle.stimulus.specs.Catalog.{entry_of, pin_answer};
    ghost use Rattle.stimulus.specs.PortEntries.{port_entries};
    ghost use Rattle.stimulus.specs.PortPlaces.{port_at};

    /// The port of this name, looked for among the inputs and then among the outputs.
    pub fn pin(&self, name: &[u8]) -> PinFound
        ensures { result ≡ pin_answer (entry_of (port_entries (Some self.now)) name.now) }
    {
        match self.inputs.number(name) {
            Some(number) => PinFound::Input(number),
            None => Ports::no_input(self.outputs.number(name)),
        }
    }

    /// A port that is no input, by its number among the outputs.
    fn no_input(output: Option<usize>) -> PinFound
        ensures { result ≡ port_at None output }
    {
        match output {
            Some(_) => PinFound::Output,
            None => PinFound::Unknown,
        }
    }
}

/// Cells by their names, numbered from 0 in the order in which they were added, with their ports. Contracts see the list
/// of the names and that of the cells, which are of one length.
#[derive(Drop)]
pub struct PortCatalog {
    names: Names,
    cells: Items<Ports>,
}

impl Model for PortCatalog {
    ghost use Rattle.std.specs.Prelude.{◌≡◌, length};
    ghost use Rattle.stimulus.specs.PortEntries.{NamedCells};

    ghost Value = { NamedCells };

    ghost view = { λ c. record { names = c.names; cells = c.cells } };

    ghost invariant = { λ c. length c.names ≡ length c.cells };
}

impl PortCatalog {
    ghost use Rattle.std.specs.Prelude.{◌≡◌, ◌<◌, [], length, slice_get, IfOk, OnErr};
    ghost use Rattle.std.specs.Option.{option_map};
    ghost use Rattle.stimulus.specs.Catalog.{cell_answer};
    ghost use Rattle.stimulus.specs.PortEntries.{AddsCell, entry_of_cell};

    /// The catalog without cells. Takes no memory.
    pub fn new(alloc: Global) -> PortCatalog
        ensures { result ≡ record { names = []; cells = [] } }
    {
        PortCatalog {
            names: Names::new(alloc),
            cells: Items::new(alloc),
        }
    }

    /// How many cells there are.
    pub fn len(&self) -> usize
        ensures { result ≡ length self.now.cells }
    {
        self.cells.len()
    }

    /// How the cell with this number stands, with its ports. The number needs to be below `len`.
    pub fn ports(&self, cell: usize) -> &Ports
        requires { cell < length self.now.cells }
        ensures { slice_get self.now.cells cell ≡ Some result.now }
    {
        &self.cells.as_slice()[cell]
    }

    /// What is answered to the name of the cell with this number.
    fn found(&self, number: usize) -> CellFound
        ensures { result ≡ cell_answer (option_map (λ cell. entry_of_cell number cell.standing)
            (slice_get self.now.cells number)) }
    {
        match self.cells.get(number) {
            Some(ports) => ports.standing.cell_found(number),
            None => CellFound::Unknown,
        }
    }

    /// Adds a cell at the end and answers its number, which is the length before. Nothing is answered exactly where a
    /// cell has the name already: that one counts. Then, and where memory is wanting, the catalog is as before.
    pub fn add(&mut self, name: &[u8], cell: Ports) -> Result<Option<usize>, AllocError>
        ensures added { IfOk result (λ number. AddsCell self.old name.now cell number self.new) }
        ensures err { OnErr result (self.new ≡ self.old) }
    {
        self.cells.push(cell)?;
        match self.names.add(name) {
            Ok(Some(number)) => Ok(Some(number)),
            Ok(None) => {
                self.cells.pop();
                Ok(None)
            }
            Err(_) => {
                self.cells.pop();
                Err(AllocError)
            }
        }
    }
}

impl Catalog for PortCatalog {
    ghost use Rattle.stimulus.specs.PortEntries.{listed};

    ghost listing = { listed };

    fn cell(&self, name: &[u8]) -> CellFound {
        match self.names.number(name) {
            Some(number) => self.found(number),
            None => CellFound::Unknown,
        }
    }

    fn pin(&self, cell: usize, name: &[u8]) -> PinFound {
        match self.cells.get(cell) {
            Some(ports) => ports.pin(name),
            None => PinFound::Unknown,
        }
    }
}
