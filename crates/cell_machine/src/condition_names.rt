//! The pins that conditions name.
ghost use Rattle.std.specs.Prelude.{◌≡◌, IfOk, length, map};
ghost use Rattle.cell_machine.specs.CellData.{data_of};
ghost use Rattle.cell_machine.specs.CellTrace.{condition_names, check_names, arc_names};

use crate::arcs::Arc;
use crate::cells::Cell;
use crate::checks::Check;
use bool_functions::Function;
use sqlite_items::Items;
use std::alloc::{AllocError, Global};

/// The pins that a condition names, none where there is no condition.
fn condition_names(alloc: Global, condition: &Option<Function>) -> Result<Items<usize>, AllocError>
    ensures { IfOk result (λ names. names ≡ condition_names condition.now) }
{
    match condition {
        Some(condition) => {
            let names = condition.support(alloc)?;
            Ok(Items::from_vec(names))
        }
        None => Ok(Items::new(alloc)),
    }
}

/// What may have a condition.
trait Conditional {
    ghost use Rattle.std.specs.Prelude.{Option};
    ghost use Rattle.bool_functions.specs.declared.tree.Node.{Node};

    /// Its condition.
    ghost condition_of: { Self → Option Node };

    /// Its condition.
    fn condition(&self) -> &Option<Function>
        ensures { result.now ≡ condition_of self.now };
}

impl Conditional for Check {
    ghost condition_of = { λ k. k.condition };

    fn condition(&self) -> &Option<Function> {
        &self.condition
    }
}

impl Conditional for Arc {
    ghost condition_of = { λ arc. arc.condition };

    fn condition(&self) -> &Option<Function> {
        &self.condition
    }
}

/// The pins that the conditions of all these name.
fn names_of_all<C: Conditional>(
    alloc: Global,
    entries: &Items<C>,
) -> Result<Items<Items<usize>>, AllocError>
    ensures { IfOk result (λ names. names ≡ map (λ entry. condition_names (C.condition_of entry)) entries.now) }
{
    let mut all = Items::new(alloc);
    for entry in entries.as_slice() {
        let names = condition_names(alloc, entry.condition())?;
        all.push(names)?;
    }
    Ok(all)
}

/// The pins that the conditions of a cell's checks name.
pub fn check_names(alloc: Global, cell: &Cell) -> Result<Items<Items<usize>>, AllocError>
    ensures { IfOk result (λ names. names ≡ check_names (data_of cell.now)) }
{
    names_of_all(alloc, &cell.checks)
}

/// The pins that the conditions of a cell's arcs name.
pub fn arc_names(alloc: Global, cell: &Cell) -> Result<Items<Items<usize>>, AllocError>
    ensures { IfOk result (λ names. names ≡ arc_names (data_of cell.now)) }
{
    names_of_all(alloc, &cell.arcs)
}
