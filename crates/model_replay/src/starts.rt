//! The simulators of models of files, at their starts.
ghost use Rattle.std.specs.Prelude.{◌≡◌, [], IfOk};
ghost use Rattle.verilog_grammar.specs.specify_blocks.Sound as modules_of;
ghost use Rattle.vital_models.specs.Sound as entities_of;
ghost use Rattle.model_traces.specs.ModuleTrace.{module_machine};
ghost use Rattle.model_traces.specs.EntityTrace.{entity_machine};
ghost use Rattle.file_models.specs.FileModels.{machine_by, IsRunnable};
ghost use Rattle.module_runs.specs.ModuleStarts.{IsModuleStart};
ghost use Rattle.process_runs.specs.EntityStarts.{IsEntityStart};

use cell_machine::Shared;
use driven_traces::DrivenSim;
use file_models::FileModel;
use module_runs::{ModuleStart, VerilogSim};
use process_runs::{EntityStart, VitalSim};
use std::alloc::{AllocError, Global};
use stimulus::TraceSim;
use verilog_grammar::modules::VModule;
use vital_models::VEntity;

/// What is known of a model of a Verilog file before any change. An `Err` comes only where memory is wanting.
pub fn known_module(
    alloc: Global,
    model: &FileModel<VModule>,
) -> Result<Shared<ModuleStart>, AllocError>
    requires { IsRunnable modules_of.IsSound module_machine model.now }
    ensures { IfOk result (λ known. IsModuleStart model.now.core known) }
{
    Shared::new(alloc, ModuleStart::of(alloc, model.core.get())?)
}

/// What is known of a model of a VHDL file before any change. An `Err` comes only where memory is wanting.
pub fn known_entity(
    alloc: Global,
    model: &FileModel<VEntity>,
) -> Result<Shared<EntityStart>, AllocError>
    requires { IsRunnable entities_of.IsSound entity_machine model.now }
    ensures { IfOk result (λ known. IsEntityStart model.now.core known) }
{
    Shared::new(alloc, EntityStart::of(alloc, model.core.get())?)
}

/// A model of a Verilog file before any change, of which this is known: its core behind what drives its outputs. An `Err` comes
/// only where memory is wanting.
pub fn start_module<'a>(
    alloc: Global,
    model: &'a FileModel<VModule>,
    known: &Shared<ModuleStart>,
) -> Result<DrivenSim<'a, VerilogSim<'a>>, AllocError>
    requires runs { IsRunnable modules_of.IsSound module_machine model.now }
    requires known { IsModuleStart model.now.core known.now }
    ensures machine { IfOk result (λ sim. ⟦<DrivenSim<'a, VerilogSim<'a>> as TraceSim>⟧.machine sim ≡ machine_by module_machine
        model.now) }
    ensures stands { IfOk result (λ sim. ⟦<DrivenSim<'a, VerilogSim<'a>> as TraceSim>⟧.stands sim []) }
{
    DrivenSim::over(
        alloc,
        VerilogSim::start_by(alloc, model.core.get(), known)?,
        &model.driver,
    )
}

/// A model of a VHDL file before any change, of which this is known: its core behind what drives its outputs. An `Err` comes only
/// where memory is wanting.
pub fn start_entity<'a>(
    alloc: Global,
    model: &'a FileModel<VEntity>,
    known: &Shared<EntityStart>,
) -> Result<DrivenSim<'a, VitalSim<'a>>, AllocError>
    requires runs { IsRunnable entities_of.IsSound entity_machine model.now }
    requires known { IsEntityStart model.now.core known.now }
    ensures machine { IfOk result (λ sim. ⟦<DrivenSim<'a, VitalSim<'a>> as TraceSim>⟧.machine sim ≡ machine_by entity_machine
        model.now) }
    ensures stands { IfOk result (λ sim. ⟦<DrivenSim<'a, VitalSim<'a>> as TraceSim>⟧.stands sim []) }
{
    DrivenSim::over(
        alloc,
        VitalSim::start_by(alloc, model.core.get(), known)?,
        &model.driver,
    )
}
