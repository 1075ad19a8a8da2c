//! Modules written as Verilog and read back.

ghost use Rattle.std.specs.Prelude.{◌≡◌, [], ◌∷◌, IfOk};
ghost use Rattle.cell_machine.specs.CellData.{data_of};
ghost use Rattle.verilog_grammar.specs.specify_blocks.Generated.{module_of};
ghost use Rattle.verilog_grammar.specs.WellFormed.{AreWellFormed};
ghost use Rattle.written_modules.specs.Laws.{modules_text};

use crate::numbered_cells::cell_is_numbered;
use crate::one_model::one_model;
use crate::text_desk::{NotKept, TextDesk};
use cell_machine::Cell;
use generated_modules::modules_are_well_formed;
use std::alloc::{AllocError, Global};
use text_io::OutSlot;
use verilog_grammar::modules::{VModule, verilog_model};
use verilog_reader::read_models;
use verilog_writer::{write_model, write_prelude};
use vital_models::ModelParts;
use written_modules::written_modules_read_back;

/// The Verilog text of a module: the first line, and the module behind its primitives.
fn module_text(alloc: Global, model: &VModule) -> Result<Vec<u8>, NotKept>
    ensures { IfOk result (λ text. text.items ≡ modules_text (model.now ∷ [])) }
{
    let mut desk = TextDesk::new(alloc, OutSlot::VerilogText);
    write_prelude(&mut desk)?;
    write_model(&mut desk, model)?;
    Ok(desk.text)
}

/// A well formed module written as Verilog text and read back of it: it is the module that was written. `AllocError` comes only
/// where memory is wanting. (IEEE 1364-2005, A.1.)
pub fn read_back_module(alloc: Global, model: &VModule) -> Result<VModule, AllocError>
    requires { AreWellFormed (model.now ∷ []) }
    ensures { IfOk result (λ read. read ≡ model.now) }
{
    written_modules_read_back();
    let text = module_text(alloc, model)?;
    one_model(read_models(alloc, text.as_slice()))
}

/// The Verilog module of a cell, with its primitives, written as text and read back of it. `AllocError` comes only where memory
/// is wanting.
pub fn module_read_back(alloc: Global, cell: &Cell) -> Result<VModule, AllocError>
    ensures { IfOk result (λ read. read ≡ module_of (data_of cell.now)) }
{
    cell_is_numbered(cell);
    modules_are_well_formed();
    let parts = ModelParts::of(alloc, cell)?;
    let model = verilog_model(&parts.source())?;
    read_back_module(alloc, &model)
}
