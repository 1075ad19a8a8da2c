//! A cell and the models that stand for it, with what is known of them before any change.
ghost use Rattle.std.specs.Prelude.{◌≡◌, IfOk};
ghost use Rattle.specify_blocks.specs.Sound as modules_of;
ghost use Rattle.vital_models.specs.Sound as entities_of;
ghost use Rattle.model_traces.specs.{ModuleTrace.module_machine, EntityTrace.entity_machine};
ghost use Rattle.file_models.specs.FileModels.{IsRunnable};
ghost use Rattle.cell_machine.specs.{CellData.data_of, CellStarts.IsCellStart};
ghost use Rattle.model_replay.specs.{ModuleStarts.IsModuleStart, EntityStarts.IsEntityStart};

use crate::comparisons::Beside;
use cell_machine::{CellStart, Shared};
use model_replay::{EntityStart, ModuleStart, known_entity, known_module};
use std::alloc::{AllocError, Global};

/// A cell and the models that stand for it, with what is known of them before any change.
#[derive(Drop)]
pub(crate) struct KnownBeside<'a> {
    /// The cell and its models.
    pub beside: Beside<'a>,
    /// What is known of the cell's core.
    pub liberty: Shared<CellStart>,
    /// What is known of the Verilog model's core.
    pub verilog: Shared<ModuleStart>,
    /// What is known of the VITAL model's core.
    pub vital: Shared<EntityStart>,
    ghost liberty_known: { IsCellStart (data_of beside.cell.now.core) liberty },
    ghost verilog_known: { IsModuleStart beside.module.now.core verilog },
    ghost vital_known: { IsEntityStart beside.entity.now.core vital },
}

impl<'a> KnownBeside<'a> {
    /// What is known of a cell and of the models that stand for it. An `Err` comes only where memory is wanting.
    pub(crate) fn of(alloc: Global, beside: Beside<'a>) -> Result<KnownBeside<'a>, AllocError>
        requires runs_module { IsRunnable modules_of.IsSound module_machine beside.module.now }
        requires runs_entity { IsRunnable entities_of.IsSound entity_machine beside.entity.now }
        ensures { IfOk result (λ known. known.beside ≡ beside.entry) }
    {
        let liberty = Shared::new(alloc, CellStart::of(alloc, &beside.cell.core)?)?;
        let verilog = known_module(alloc, beside.module)?;
        let vital = known_entity(alloc, beside.entity)?;
        Ok(KnownBeside {
            beside,
            liberty,
            verilog,
            vital,
        })
    }
}
