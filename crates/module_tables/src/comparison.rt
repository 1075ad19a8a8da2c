//! The comparison of the tables of one part, or of all parts of a kind.
ghost use Rattle.std.specs.Prelude.{◌≡◌, ◌<◌};
ghost use Rattle.cell_machine.specs.CellData.{data_of};
ghost use Rattle.specify_blocks.specs.Sound.{IsSound};
ghost use Rattle.module_tables.specs.SameValues.{AreFed};
ghost use Rattle.module_tables.specs.Tables.{compared_count, compared_at, part_compared, first_difference};

use crate::differences::{AuditPart, Difference};
use crate::states::GroupTables;
use crate::values::{of_condition, of_output};
use cell_machine::Cell;
use cell_tables::has_notifier;
use module_terminals::condition_wires::{of_check, of_path};
use specify_blocks::VModule;

impl AuditPart {
    /// How many of this part a cell has.
    fn count(self, cell: &Cell) -> usize
        ensures { result ≡ compared_count (data_of cell.now) self }
    {
        match self {
            AuditPart::State => cell.groups.len(),
            AuditPart::Notifier if has_notifier(cell) => cell.groups.len(),
            AuditPart::Notifier => 0,
            AuditPart::Check => cell.checks.len(),
            AuditPart::Path => cell.arcs.len(),
            AuditPart::Output => cell.outputs.len(),
        }
    }

    /// The first difference of the one of this part that has this number, from 0.
    #[tactic(auto, using(crate::proofs::TableLaws::notified_group))]
    fn first_at(self, cell: &Cell, model: &VModule, number: usize) -> Option<Difference>
        requires sound { IsSound model.now }
        requires fed { AreFed (data_of cell.now) model.now }
        requires inside { number < compared_count (data_of cell.now) self }
        ensures { result ≡ first_difference (compared_at (data_of cell.now) model.now self number) }
    {
        let _count = self.count(cell);
        match self {
            AuditPart::State => GroupTables::of(cell, model, number).steps(),
            AuditPart::Notifier => GroupTables::of(cell, model, number).notes(),
            AuditPart::Check => {
                let condition = of_check(cell, model, number);
                of_condition(cell, model, self, number + 1, condition)
            }
            AuditPart::Path => {
                let condition = of_path(cell, model, number);
                of_condition(cell, model, self, number + 1, condition)
            }
            AuditPart::Output => of_output(cell, model, number),
        }
    }

    /// The first difference of this part.
    #[tactic(auto, using(crate::proofs::Firsts::turn, crate::proofs::Firsts::done))]
    pub fn first(self, cell: &Cell, model: &VModule) -> Option<Difference>
        requires sound { IsSound model.now }
        requires fed { AreFed (data_of cell.now) model.now }
        ensures { result ≡ first_difference (part_compared (data_of cell.now) model.now self) }
    {
        let count = self.count(cell);
        for number in 0..count {
            if let Some(found) = self.first_at(cell, model, number) {
                return Some(found);
            }
        }
        None
    }
}
