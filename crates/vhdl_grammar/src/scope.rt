//! What the declarations of an entity give, before its statements say how its parts are joined.
use cell_machine::Source;
use sqlite_items::Items;
use udp_tables::VPort;
use vital_tables::{TruthTable, VStateTable};

/// The tables that the constants of an architecture hold, each kind in order.
#[derive(Drop)]
pub struct Tables {
    /// The tables of the states.
    pub states: Items<VStateTable>,
    /// The tables of the conditions.
    pub conditions: Items<TruthTable>,
    /// The tables of the outputs.
    pub outputs: Items<TruthTable>,
}

/// The variables that a process declares.
#[derive(Drop)]
pub struct Variables {
    /// Of each check, whether its data are those of a pulse or of a period.
    pub periods: Items<bool>,
    /// Whether there is a variable of the violation.
    pub violation: bool,
    /// Of how many states there are variables.
    pub states: usize,
    /// Of each output, whether it has data of its delays.
    pub glitches: Items<bool>,
}

/// What is assigned to the variable of an output.
#[derive(Drop)]
pub enum Assigned {
    /// A constant: whether it is 1.
    Constant(bool),
    /// What the next table of the outputs gives for these input ports and states.
    Lookup(Items<Source>),
}

/// The declarations of an entity and of its architecture.
#[derive(Drop)]
pub struct Scope {
    /// The entity's name, in bytes.
    pub name: Items<u8>,
    /// The ports, in order.
    pub ports: Items<VPort>,
    /// The tables.
    pub tables: Tables,
    /// The variables.
    pub variables: Variables,
}

/// The input columns of the table of a state.
#[derive(Drop)]
pub struct Columns {
    /// Whether the violation comes first.
    pub violation: bool,
    /// The numbers of the input ports behind it.
    pub inputs: Items<usize>,
}
