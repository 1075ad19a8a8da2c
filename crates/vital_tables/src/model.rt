//! An entity as data.
use crate::table::{TruthTable, VStateTable};
use cell_machine::Source;
use sqlite_items::Items;
use udp_tables::{TimingCheck, VPort};

/// A VHDL entity with its architecture of one process: timing checks, state tables, truth tables and path delays. (IEEE
/// 1076.4-2000.) Ports, states and conditions are numbered from 0, each in their own order; pins of events, paths and inputs are
/// numbers of ports.
#[derive(Drop)]
pub struct VEntity {
    /// The entity's name, in bytes.
    pub name: Items<u8>,
    /// The ports, in order.
    pub ports: Items<VPort>,
    /// The states with their tables, in order.
    pub states: Items<VState>,
    /// The truth tables of the conditions that checks and paths name, in order.
    pub conditions: Items<VTruth>,
    /// What drives each output port, in the order of these ports.
    pub outputs: Items<VOutput>,
    /// The timing checks, in order.
    pub checks: Items<TimingCheck>,
}

/// A state.
#[derive(Drop)]
pub struct VState {
    /// Its table.
    pub table: VStateTable,
    /// Whether the first input column is the violation: X where a check reports, else 0.
    pub violation: bool,
    /// The input ports of the other input columns.
    pub inputs: Items<usize>,
}

/// A truth table of input ports.
#[derive(Drop)]
pub struct VTruth {
    /// The table.
    pub table: TruthTable,
    /// The input ports of its columns.
    pub inputs: Items<usize>,
}

/// What drives an output port.
#[derive(Drop)]
pub struct VOutput {
    /// The number of the port.
    pub port: usize,
    /// Its value.
    pub value: OutValue,
    /// The paths that end at it, in order.
    pub paths: Items<HPath>,
}

/// The value of an output port.
#[derive(Drop)]
pub enum OutValue {
    /// A constant: whether it is 1.
    Constant(bool),
    /// What a truth table gives.
    Table {
        /// The table.
        table: TruthTable,
        /// The input ports and the states of its columns.
        inputs: Items<Source>,
    },
}

/// A path from an input port, with its delays. (IEEE 1076.4-2000, VitalPathDelay01.)
#[derive(Drop)]
pub struct HPath {
    /// The number of the input port where it starts.
    pub from: usize,
    /// The delay of a possible rise of the output, in picoseconds.
    pub rise: u64,
    /// The delay of the output's other changes, in picoseconds.
    pub fall: u64,
    /// When the path counts.
    pub gate: HGate,
}

/// When a path counts.
#[derive(Drop)]
pub enum HGate {
    /// Always.
    Always,
    /// Where the condition with this number is not 0.
    NotZero(usize),
    /// Where all conditions with these numbers are 0.
    AllZero(Items<usize>),
}
