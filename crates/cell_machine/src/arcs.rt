//! Delay arcs. (Liberty Reference Manual, `timing` group.)
use bool_functions::Function;

/// The delay from an input pin to an output pin.
#[derive(Drop)]
pub struct Arc {
    /// The number of the input pin where it starts.
    pub from: usize,
    /// The number of the output pin where it ends.
    pub to: usize,
    /// The delay of a possible rise of the output, in picoseconds.
    pub rise: u64,
    /// The delay of the output's other changes, in picoseconds.
    pub fall: u64,
    /// Where there is one, the arc is active where it is not 0. An arc without one is active where those of all other
    /// arcs between the two pins are 0.
    pub condition: Option<Function>,
}

impl Arc {
    ghost use Rattle.std.specs.Prelude.{◌≡◌};
    ghost use Rattle.cell_machine.specs.CellTrace.{same_pins};

    /// Whether two arcs have the same two pins.
    pub fn same_pins(&self, other: &Arc) -> bool
        ensures { result ≡ same_pins self.now other.now }
    {
        self.from == other.from && self.to == other.to
    }
}
