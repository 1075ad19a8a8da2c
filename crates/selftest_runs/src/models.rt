//! A cell beside its damaged models.
ghost use Rattle.std.specs.Prelude.{◌≡◌, [], IfOk};
ghost use Rattle.cell_machine.specs.{CellData.data_of, CellTrace.inputs_of, CellTrace.cell_trace, History.IsProperFrom};
ghost use Rattle.verilog_grammar.specs.specify_blocks.Generated.{module_of};
ghost use Rattle.vital_models.specs.Generated.{entity_of};
ghost use Rattle.model_traces.specs.{ModuleTrace.module_trace, EntityTrace.entity_trace};
ghost use Rattle.selftest_runs.specs.EntityNames.{IsNameOfEntity};
ghost use Rattle.selftest_cells.specs.Damage.{damaged_module, damaged_entity};
ghost use Rattle.caught_models.specs.Caught.{is_caught};

use crate::entity_texts::entity_read_back;
use crate::module_texts::module_read_back;
use caught_models::{is_entity_caught, is_module_caught};
use cell_machine::{Cell, Change};
use model_traces::models_agree;
use selftest_cells::{
    damaged_entities_are_sound, damaged_entity, damaged_module, damaged_modules_are_sound,
};
use std::alloc::{AllocError, Global};
use stimulus::no_difference_is_equal;

/// Whether the damaged module of a cell is caught on these changes. It is the one that the module's text tells, which shows what
/// the cell shows.
pub(crate) fn is_damaged_module_caught(
    alloc: Global,
    cell: &Cell,
    changes: &[Change],
) -> Result<bool, AllocError>
    requires { IsProperFrom (inputs_of (data_of cell.now)) [] changes.now }
    ensures { IfOk result (λ caught. caught ≡ is_caught (cell_trace (data_of cell.now) changes.now)
        (module_trace (damaged_module (module_of (data_of cell.now))) changes.now)) }
{
    models_agree();
    no_difference_is_equal();
    damaged_modules_are_sound();
    let module = module_read_back(alloc, cell)?;
    let is_caught = is_module_caught(alloc, cell, &module, changes)?;
    if is_caught {
        unreachable!();
    }
    let damaged = damaged_module(alloc, module)?;
    is_module_caught(alloc, cell, &damaged, changes)
}

/// Whether the damaged entity of a cell is caught on these changes. It is the one that the entity's text tells, which shows what
/// the cell shows.
pub(crate) fn is_damaged_entity_caught(
    alloc: Global,
    cell: &Cell,
    name: &[u8],
    changes: &[Change],
) -> Result<bool, AllocError>
    requires name { IsNameOfEntity (data_of cell.now) name.now }
    requires proper { IsProperFrom (inputs_of (data_of cell.now)) [] changes.now }
    ensures { IfOk result (λ caught. caught ≡ is_caught (cell_trace (data_of cell.now) changes.now)
        (entity_trace (damaged_entity (entity_of (data_of cell.now) name.now)) changes.now)) }
{
    models_agree();
    no_difference_is_equal();
    damaged_entities_are_sound();
    let entity = entity_read_back(alloc, cell, name)?;
    let is_caught = is_entity_caught(alloc, cell, &entity, changes)?;
    if is_caught {
        unreachable!();
    }
    let damaged = damaged_entity(alloc, entity)?;
    is_entity_caught(alloc, cell, &damaged, changes)
}
