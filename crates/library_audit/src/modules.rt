//! The models of a Verilog file by their names, and a cell compared with its module.
ghost use Rattle.std.specs.Prelude.{◌≡◌, IfOk};
ghost use Rattle.cell_machine.specs.CellData.{data_of};
ghost use Rattle.model_files.specs.ModelNames.{model_names, HaveOwnNames};
ghost use Rattle.model_replay.specs.Verilog.{verilog};

use bool_functions::Names;
use cell_machine::Cell;
use file_models::FileModel;
use specify_blocks::{VModule, module_name};
use sqlite_items::Items;
use std::alloc::{AllocError, Global};
use table_audit::{Verdict, audit};

/// The models of a Verilog file, its drivers among them, with the names by which they are looked up.
#[derive(Drop)]
pub(crate) struct NamedModules {
    /// The models: the modules, and behind them the drivers.
    pub models: Items<FileModel<VModule>>,
    /// Their names, in this order.
    pub names: Names,
}

impl NamedModules {
    ghost use Rattle.library_audit.specs.Audits.{verdict_beside, verdict_in};
    ghost use Rattle.library_audit.specs.Reads.{AreReady};

    /// What comparing a cell with its module comes to, where it is there.
    pub(crate) fn verdict(&self, alloc: Global, cell: &Cell) -> Result<Option<Verdict>, AllocError>
        requires { AreReady self.now }
        ensures { IfOk result (λ found. found ≡ verdict_in self.now.models (data_of cell.now)) }
    {
        let name = module_name(alloc, cell.number, cell.name.as_slice())?;
        match self.names.number(name.as_slice()) {
            None => Ok(None),
            Some(number) => Ok(self.verdict_beside(number, cell)),
        }
    }

    /// What comparing a cell with the module with this number comes to, where it is there: a driver is none.
    #[tactic(auto, unfolding(crate::specs::Audits::verdict_beside, crate::specs::Audits::module_at))]
    fn verdict_beside(&self, number: usize, cell: &Cell) -> Option<Verdict>
        requires { AreReady self.now }
        ensures { result ≡ verdict_beside self.now.models (data_of cell.now) number }
    {
        let model = self.models.as_slice().get(number)?;
        if model.driver.drives.len() > 0 {
            return None;
        }
        Some(audit(cell, model.core.get()))
    }
}

/// The names of models, in their order, where no two have one name.
pub(crate) fn names_of(alloc: Global, models: &[FileModel<VModule>]) -> Result<Names, AllocError>
    ensures { IfOk result (λ names. HaveOwnNames verilog models.now → names ≡ model_names verilog models.now) }
{
    let mut names = Names::new(alloc);
    for model in models {
        names.add(model.name.as_slice())?;
    }
    Ok(names)
}
