//! VHDL by VITAL as a language of models.

use crate::starts::{known_entity, start_entity};
use crate::traces::write_model_section;
use crate::vital_sections::read_driven_entities;
use cell_machine::{Change, Shared};
use file_models::{FileModel, file_models};
use model_files::{ModelFormat, ModelLanguage};
use process_runs::EntityStart;
use std::alloc::{AllocError, Global};
use stimulus::Ports;
use text_io::{Desk, Stop};
use udp_tables::{ModelFault, VPort};
use vhdl_grammar::texts_are_well_formed;
use vital_models::VEntity;

/// VHDL by VITAL. (IEEE 1076-1993 and IEEE 1076.4-2000.)
pub struct Vital;

impl ModelLanguage for Vital {
    ghost use Rattle.model_replay.specs.Vital.{vital};
    ghost use Rattle.process_runs.specs.EntityStarts.{IsEntityStart};

    type Model = FileModel<VEntity>;

    type Start = Shared<EntityStart>;

    ghost language = { vital };

    ghost is_start = { λ model start. IsEntityStart model.core start };

    fn format() -> ModelFormat {
        ModelFormat::Vital
    }

    fn read(alloc: Global, text: &[u8]) -> Result<Vec<FileModel<VEntity>>, ModelFault> {
        texts_are_well_formed();
        let found = read_driven_entities(alloc, text)?;
        Ok(file_models::<Vital>(alloc, found)?)
    }

    fn name(model: &FileModel<VEntity>) -> &[u8] {
        model.name.as_slice()
    }

    fn ports(model: &FileModel<VEntity>) -> &[VPort] {
        model.ports.as_slice()
    }

    fn start(alloc: Global, model: &FileModel<VEntity>) -> Result<Shared<EntityStart>, AllocError> {
        known_entity(alloc, model)
    }

    fn write_model_trace<D: Desk>(
        alloc: Global,
        desk: &mut D,
        model: &FileModel<VEntity>,
        start: &Shared<EntityStart>,
        ports: &Ports,
        changes: &[Change],
    ) -> Result<(), Stop> {
        let sim = start_entity(alloc, model, start);
        write_model_section(alloc, desk, b'H', model, sim, ports, changes)
    }
}
