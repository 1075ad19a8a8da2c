//! A model of drivers as data.
use driven_traces::Driver;
use sqlite_items::Items;
use udp_tables::VPort;

/// A model of drivers: an instance of a core and, at each driven output, a three-state buffer. (IEEE 1364-2005, clauses 7.4 and
/// 12.1; IEEE 1076.4-2000, `VitalBUFIF1`.) The core is another model of the same text, which has these ports and behind them one
/// more output for each driven one: its enable.
#[derive(Drop)]
pub struct DriverModel {
    /// The name, in bytes.
    pub name: Items<u8>,
    /// The name of the core, in bytes.
    pub core: Items<u8>,
    /// The ports, in the order of the header.
    pub ports: Items<VPort>,
    /// Which outputs are driven, and the paths that lead to them, by the numbers of these ports.
    pub driver: Driver,
}
