//! A Verilog module as data.
use sqlite_items::Items;
use udp_tables::{TimingCheck, Udp, VPort};

/// A module: primitives joined by nets, with a specify block of delays and timing checks. (IEEE 1364-2005, clauses 8, 12,
/// 14 and 15.) Ports, wires and primitives are numbered from 0, each in their own order.
#[derive(Drop)]
pub struct VModule {
    /// The module's name, in bytes.
    pub name: Items<u8>,
    /// The ports, in the order of the header.
    pub ports: Items<VPort>,
    /// The names of the wires, in bytes, in the order of their declarations.
    pub wires: Items<Items<u8>>,
    /// The name of the register that each violation of a check changes, where one is declared.
    pub notifier: Option<Items<u8>>,
    /// The primitives that stand before the module and after the one before it. Instances name these.
    pub udps: Items<Udp>,
    /// The instances, in order.
    pub instances: Items<Instance>,
    /// The paths of the specify block, in order.
    pub paths: Items<VPath>,
    /// The timing checks of the specify block, in order.
    pub checks: Items<TimingCheck>,
}

/// What carries a value in a module.
#[derive(Clone, Copy)]
pub enum VNet {
    /// The port with this number.
    Port(usize),
    /// The wire with this number.
    Wire(usize),
    /// The register of the checks.
    Notifier,
}

impl VNet {
    ghost use Rattle.std.specs.Prelude.{◌≡◌};
    ghost use Rattle.specify_blocks.specs.Nets.{same_net};

    /// Whether these are one net.
    pub fn is_same(self, other: VNet) -> bool
        ensures { result ≡ same_net self other }
    {
        match (self, other) {
            (VNet::Port(port), VNet::Port(other)) => port == other,
            (VNet::Wire(wire), VNet::Wire(other)) => wire == other,
            (VNet::Notifier, VNet::Notifier) => true,
            _ => false,
        }
    }
}

/// An instance: what drives one net.
#[derive(Drop)]
pub enum Instance {
    /// An instance of a primitive.
    Primitive {
        /// The number of the primitive.
        udp: usize,
        /// The net that it drives.
        output: VNet,
        /// The nets that feed it, one for each of its inputs.
        inputs: Items<VNet>,
    },
    /// A buffer with a constant input.
    Constant {
        /// The net that it drives.
        output: VNet,
        /// Whether the constant is 1.
        one: bool,
    },
}

impl Instance {
    ghost use Rattle.std.specs.Prelude.{◌≡◌};
    ghost use Rattle.specify_blocks.specs.Nets.{net_driven};

    /// The net that it drives.
    pub fn net_driven(&self) -> VNet
        ensures { result ≡ net_driven self.now }
    {
        match self {
            Instance::Primitive { output, .. } => *output,
            Instance::Constant { output, .. } => *output,
        }
    }
}

/// When a path counts. (IEEE 1364-2005, 14.2.4, state-dependent paths.)
#[derive(Clone, Copy)]
pub enum Gate {
    /// Always.
    Always,
    /// `if`: where the wire with this number is not 0.
    If(usize),
    /// `ifnone`: where the wires of all `if` paths of the same two ports are 0.
    IfNone,
}

/// A path from an input to an output, with its delays.
#[derive(Clone, Copy)]
pub struct VPath {
    /// The number of the input port where it starts.
    pub from: usize,
    /// The number of the output port where it ends.
    pub to: usize,
    /// The delay of a possible rise of the output, in picoseconds.
    pub rise: u64,
    /// The delay of the output's other changes, in picoseconds.
    pub fall: u64,
    /// When the path counts.
    pub gate: Gate,
}
