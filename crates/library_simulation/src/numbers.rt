//! The models of a cell.
ghost use Rattle.std.specs.Prelude.{◌≡◌};
ghost use Rattle.library_simulation.specs.Standings.{standing_by, numbers_by};

use stimulus::Standing;

/// The models that stand for a cell.
#[derive(Clone, Copy)]
pub struct ModelNumbers {
    /// The number of its Verilog model, from 0 among those of the file.
    pub verilog: usize,
    /// The number of its VITAL model, from 0 among those of the file.
    pub vital: usize,
}

/// The numbers of the models that were found for a cell.
#[derive(Clone, Copy)]
pub(crate) struct Found {
    /// That of its Verilog model, where it is there with the cell's ports.
    pub verilog: Option<usize>,
    /// That of its VITAL model, where it is there with the cell's ports.
    pub vital: Option<usize>,
}

impl Found {
    /// How the cell stands.
    pub(crate) fn standing(self) -> Standing
        ensures { result ≡ standing_by self.verilog self.vital }
    {
        match (self.verilog, self.vital) {
            (None, _) => Standing::VerilogPorts,
            (Some(_), None) => Standing::VitalPorts,
            (Some(_), Some(_)) => Standing::Ready,
        }
    }

    /// Both numbers, where both are there.
    pub(crate) fn numbers(self) -> Option<ModelNumbers>
        ensures { result ≡ numbers_by self.verilog self.vital }
    {
        match (self.verilog, self.vital) {
            (Some(verilog), Some(vital)) => Some(ModelNumbers { verilog, vital }),
            _ => None,
        }
    }
}
