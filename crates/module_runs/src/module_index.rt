//! Where the parts of a module are found.
use crate::drivers::Drivers;
use crate::fed_instances::FedInstances;
use crate::gates::Gates;
use crate::module_rows::ModuleRows;
use crate::output_paths::OutputPaths;
use cell_tables::all_made;
use run_parts::{Ports, input_numbers};
use specify_blocks::VModule;
use sqlite_items::Items;
use std::alloc::{AllocError, Global};

/// What a simulator knows of its module before any change, so that a change looks for nothing along the module.
#[derive(Drop)]
pub struct ModuleIndex {
    /// What is known of the rows of its primitives.
    pub rows: ModuleRows,
    /// For each port how many inputs stand before it.
    pub numbers: Items<usize>,
    /// The drivers of the nets.
    pub drivers: Drivers,
    /// The paths by the ports to which they lead.
    pub paths: OutputPaths,
    /// The instances that changes feed.
    pub fed: FedInstances,
    /// The gates of the paths.
    pub gates: Gates,
}

impl ModuleIndex {
    ghost use Rattle.std.specs.Prelude.{IfOk};
    ghost use Rattle.module_runs.specs.ModuleIndexed.{IsModuleIndex};

    /// What is known of a module. `AllocError` comes only where memory is wanted and not there.
    pub(crate) fn of(alloc: Global, model: &VModule) -> Result<ModuleIndex, AllocError>
        ensures { IfOk result (λ index. IsModuleIndex model.now index) }
    {
        let drivers = Drivers::of(alloc, model)?;
        let gates = Gates::of(alloc, model, &drivers)?;
        let numbers = input_numbers(alloc, model.ports.as_slice())?;
        let ports = Ports {
            list: model.ports.as_slice(),
            numbers: numbers.as_slice(),
        };
        let fed = FedInstances::of(alloc, &ports, model.instances.as_slice());
        let paths = OutputPaths::of(alloc, model);
        let rows = ModuleRows::of(alloc, model.udps.as_slice());
        let (fed, (paths, rows)) = all_made(fed, all_made(paths, rows))?;
        Ok(ModuleIndex {
            rows,
            numbers,
            drivers,
            paths,
            fed,
            gates,
        })
    }
}
