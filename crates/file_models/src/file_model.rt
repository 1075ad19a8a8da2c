//! A model of a file.
use cell_machine::Shared;
use driven_traces::Driver;
use sqlite_items::Items;
use udp_tables::VPort;

/// A model of a file as it is run: a core, and what drives its outputs. A model of its own is a core whose outputs nothing
/// drives. (That a driver is a model like any other is this project's rule.)
#[derive(Drop)]
pub struct FileModel<M> {
    /// The name, in bytes.
    pub name: Items<u8>,
    /// The ports, in the order of the header.
    pub ports: Items<VPort>,
    /// The core.
    pub core: Shared<M>,
    /// Which of its outputs are driven, and the paths that lead to them.
    pub driver: Driver,
}
