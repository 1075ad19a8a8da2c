//! The timing checks of a cell's models, from the cell's.
ghost use Rattle.std.specs.Prelude.{◌≡◌, ◌≤◌, map, length, option_map, IfOk};
ghost use Rattle.cell_machine.specs.CellData.{data_of};
ghost use Rattle.udp_tables.specs.TimingChecks.{number_behind, check_behind};

use crate::cell_conditions::condition_number;
use crate::model_source::ModelSource;
use bool_functions::Function;
use cell_machine::Check;
use sqlite_items::Items;
use std::alloc::AllocError;
use udp_tables::{TimingCheck, event_of};

/// The number of a condition behind so many other things, where these are the cell's conditions. A cell has at most 16 groups.
fn number_behind(
    before: usize,
    conditions: &[&Function],
    condition: &Option<Function>,
) -> Option<usize>
    requires { before ≤ 16 }
    ensures { result ≡ option_map (number_behind before (map (λ f. f.now) conditions.now)) condition.now }
{
    match condition {
        Some(condition) => Some(before + condition_number(conditions, condition)),
        None => None,
    }
}

/// The timing check of a cell's check, where so many other things, no more than its groups, are numbered before its conditions.
fn check_behind(before: usize, from: &ModelSource, check: &Check) -> TimingCheck
    requires { before ≤ length from.now.cell.now.groups }
    ensures { result ≡ check_behind before (data_of from.now.cell.now) check.now }
{
    let pins = from.cell.pins.as_slice();
    TimingCheck {
        kind: check.kind,
        first: event_of(pins, check.first),
        second: event_of(pins, check.second),
        limit: check.limit,
        condition: number_behind(before, from.conditions, &check.condition),
    }
}

/// The timing checks of a cell's model, in order, where so many other things, no more than its groups, are numbered before its
/// conditions. `AllocError` comes only where memory is wanting.
pub fn checks_of(before: usize, from: &ModelSource) -> Result<Items<TimingCheck>, AllocError>
    requires { before ≤ length from.now.cell.now.groups }
    ensures { IfOk result (λ checks. checks ≡ map (check_behind before (data_of from.now.cell.now)) from.now.cell.now.checks) }
{
    let mut checks = Items::new(from.alloc);
    for check in from.cell.checks.as_slice() {
        checks.push(check_behind(before, from, check))?;
    }
    Ok(checks)
}
