//! Entities written as VHDL and read back.

ghost use Rattle.std.specs.Prelude.{◌≡◌, [], ◌∷◌, IfOk};
ghost use Rattle.cell_machine.specs.CellData.{data_of};
ghost use Rattle.vital_models.specs.Generated.{entity_of};
ghost use Rattle.vhdl_grammar.specs.WellFormed.{AreWellFormed};
ghost use Rattle.written_entities.specs.Laws.{entities_text};
ghost use Rattle.selftest_runs.specs.EntityNames.{IsNameOfEntity};

use crate::numbered_cells::cell_is_numbered;
use crate::one_model::one_model;
use crate::text_desk::{NotKept, TextDesk};
use cell_machine::Cell;
use generated_entities::entity_is_well_formed;
use std::alloc::{AllocError, Global};
use text_io::OutSlot;
use vhdl_reader::read_entities;
use vhdl_writer::write_entity;
use vital_models::{ModelParts, VEntity, vital_model};
use written_entities::written_entities_read_back;

/// The VHDL text of an entity and of its architecture.
fn entity_text(alloc: Global, entity: &VEntity) -> Result<Vec<u8>, NotKept>
    ensures { IfOk result (λ text. text.items ≡ entities_text (entity.now ∷ [])) }
{
    let mut desk = TextDesk::new(alloc, OutSlot::VitalText);
    write_entity(&mut desk, entity)?;
    Ok(desk.text)
}

/// A well formed entity written as VHDL text and read back of it: it is the entity that was written. `AllocError` comes only
/// where memory is wanting. (IEEE 1076-1993, 1.1 and 1.2; IEEE 1076.4-2000.)
pub fn read_back_entity(alloc: Global, entity: &VEntity) -> Result<VEntity, AllocError>
    requires { AreWellFormed (entity.now ∷ []) }
    ensures { IfOk result (λ read. read ≡ entity.now) }
{
    written_entities_read_back();
    let text = entity_text(alloc, entity)?;
    one_model(read_entities(alloc, text.as_slice()))
}

/// The VITAL entity of a cell, with this name, written as VHDL text and read back of it. The name is one that an entity of the
/// cell has. `AllocError` comes only where memory is wanting.
pub fn entity_read_back(alloc: Global, cell: &Cell, name: &[u8]) -> Result<VEntity, AllocError>
    requires { IsNameOfEntity (data_of cell.now) name.now }
    ensures { IfOk result (λ read. read ≡ entity_of (data_of cell.now) name.now) }
{
    cell_is_numbered(cell);
    entity_is_well_formed();
    let parts = ModelParts::of(alloc, cell)?;
    let entity = vital_model(&parts.source(), name)?;
    read_back_entity(alloc, &entity)
}
