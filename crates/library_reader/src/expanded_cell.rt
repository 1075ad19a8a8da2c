//! The next cell of a library, whose group is expanded to single bits.
ghost use Rattle.std.specs.Prelude.{◌≡◌, ◌+◌, ◌<◌, ◌^◌, true, false, None, IfOk, IfErr};
ghost use Rattle.bank_cells.specs.Refusals.{has_many};
ghost use Rattle.cell_reader.specs.CellTexts.{Tells};
ghost use Rattle.three_state_cells.specs.DrivenCells.{driven_data_of};
ghost use Rattle.library_reader.specs.BankRefusals.{cell_reason, cell_refusal};
ghost use Rattle.library_reader.specs.Progress.{next_refusal, next_data};

use crate::progress::Progress;
use bank_cells::{BankReason, BankRefusal, bank_refusal, has_many};
use cell_reader::{CellFault, Reason, Refusal};
use liberty_groups::Group;
use std::alloc::{AllocError, Global};
use three_state_cells::{DrivenCell, read_driven};

/// A reason not to expand the group of a cell, as a reason to refuse the cell.
fn cell_reason(reason: BankReason) -> Reason
    ensures { result ≡ cell_reason reason }
{
    match reason {
        BankReason::Bank => Reason::Bank,
        BankReason::Width => Reason::Width,
    }
}

/// A reason not to expand the group of a cell, with its place, as a reason to refuse the cell.
fn cell_refusal(refusal: BankRefusal) -> Refusal
    ensures { result ≡ cell_refusal refusal }
{
    Refusal {
        reason: cell_reason(refusal.reason),
        at: refusal.at,
    }
}

/// The next cell, which has buses, bundles or banks. Where they are not expanded it is refused for that, and else as the cell of
/// the expanded group. `Memory` comes only where memory is wanting.
fn read_bits(alloc: Global, progress: &Progress, group: &Group) -> Result<DrivenCell, CellFault>
    requires many { has_many group.now ≡ true }
    requires few { progress.now.accepted + progress.now.refused + 1 < 2 ^ 64 }
    ensures cell { IfOk result (λ cell. driven_data_of cell ≡ next_data progress.now group.now) }
    ensures accepted { IfOk result (λ _. next_refusal progress.now group.now ≡ None) }
    ensures refused { IfErr result (Tells (next_refusal progress.now group.now)) }
{
    let number = progress.next_number();
    let types = &progress.types;
    match bank_refusal(alloc, types, group) {
        Ok(None) => three_state_cells::read_expanded(
            alloc,
            types,
            group,
            number,
            progress.unit,
            &progress.names,
        ),
        Ok(Some(refusal)) => Err(CellFault::Refused(cell_refusal(refusal))),
        Err(AllocError) => Err(CellFault::Memory),
    }
}

/// The next cell, which has no buses, bundles and banks, so that its group stays as it is and need not be copied. `Memory` comes
/// only where memory is wanting.
fn read_plain(alloc: Global, progress: &Progress, group: &Group) -> Result<DrivenCell, CellFault>
    requires few { progress.now.accepted + progress.now.refused + 1 < 2 ^ 64 }
    requires plain { has_many group.now ≡ false }
    ensures cell { IfOk result (λ cell. driven_data_of cell ≡ next_data progress.now group.now) }
    ensures accepted { IfOk result (λ _. next_refusal progress.now group.now ≡ None) }
    ensures refused { IfErr result (Tells (next_refusal progress.now group.now)) }
{
    let number = progress.next_number();
    read_driven(alloc, group, number, progress.unit, &progress.names)
}

/// The next cell, whose buses, bundles and banks are expanded to single bits with the types of buses before it. Where they are
/// not expanded it is refused for that, and else as the cell of the expanded group. `Memory` comes only where memory is wanting.
pub(crate) fn read_cell_group(
    alloc: Global,
    progress: &Progress,
    group: &Group,
) -> Result<DrivenCell, CellFault>
    requires { progress.now.accepted + progress.now.refused + 1 < 2 ^ 64 }
    ensures cell { IfOk result (λ cell. driven_data_of cell ≡ next_data progress.now group.now) }
    ensures accepted { IfOk result (λ _. next_refusal progress.now group.now ≡ None) }
    ensures refused { IfErr result (Tells (next_refusal progress.now group.now)) }
{
    if has_many(group) {
        read_bits(alloc, progress, group)
    } else {
        read_plain(alloc, progress, group)
    }
}
