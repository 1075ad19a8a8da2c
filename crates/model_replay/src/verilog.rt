//! Verilog as a language of models.

use crate::starts::{known_module, start_module};
use crate::traces::write_model_section;
use crate::verilog_sections::read_driven_models;
use cell_machine::{Change, Shared};
use file_models::{FileModel, file_models};
use model_files::{ModelFormat, ModelLanguage};
use module_runs::ModuleStart;
use std::alloc::{AllocError, Global};
use stimulus::Ports;
use text_io::{Desk, Stop};
use udp_tables::{ModelFault, VPort};
use verilog_grammar::modules::VModule;

/// Verilog. (IEEE 1364-2005.)
pub struct Verilog;

impl ModelLanguage for Verilog {
    ghost use Rattle.model_replay.specs.Verilog.{verilog};
    ghost use Rattle.module_runs.specs.ModuleStarts.{IsModuleStart};

    type Model = FileModel<VModule>;

    type Start = Shared<ModuleStart>;

    ghost language = { verilog };

    ghost is_start = { λ model start. IsModuleStart model.core start };

    fn format() -> ModelFormat {
        ModelFormat::Verilog
    }

    fn read(alloc: Global, text: &[u8]) -> Result<Vec<FileModel<VModule>>, ModelFault> {
        let found = read_driven_models(alloc, text)?;
        Ok(file_models::<Verilog>(alloc, found)?)
    }

    fn name(model: &FileModel<VModule>) -> &[u8] {
        model.name.as_slice()
    }

    fn ports(model: &FileModel<VModule>) -> &[VPort] {
        model.ports.as_slice()
    }

    fn start(alloc: Global, model: &FileModel<VModule>) -> Result<Shared<ModuleStart>, AllocError> {
        known_module(alloc, model)
    }

    fn write_model_trace<D: Desk>(
        alloc: Global,
        desk: &mut D,
        model: &FileModel<VModule>,
        start: &Shared<ModuleStart>,
        ports: &Ports,
        changes: &[Change],
    ) -> Result<(), Stop> {
        let sim = start_module(alloc, model, start);
        write_model_section(alloc, desk, b'V', model, sim, ports, changes)
    }
}
