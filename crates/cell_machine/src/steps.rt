//! The step of a group at a point, and the values to which inputs that are partly unknown force it.
ghost use Rattle.std.specs.Prelude.{◌≡◌, ◌<◌, Bool, true, false, List, map, length, Option};
ghost use Rattle.trit_cubes.specs.declared.trits.Trit.{Trit};
ghost use Rattle.trit_cubes.specs.Resolution.{agreed, res};
ghost use Rattle.statetables.specs.Step.{table_step, inputs_match, row_matches, row_gives};
ghost use Rattle.cell_machine.specs.Machine.{around, over};
ghost use Rattle.cell_machine.specs.Values.{no_values, written, picked};
ghost use Rattle.cell_machine.specs.Step.{trit_or_unknown, both_value, cleared_by, KindIsBounded};

use crate::groups::{Both, GroupKind};
use crate::values::Values;
use statetables::{InSymbol, StateTable, TableRow};
use trit_cubes::Trit;

/// What a variable with the value `state` becomes where clear and preset are both 1.
pub fn both_value(both: Both, state: bool) -> Trit
    ensures { result ≡ both_value both state }
{
    match both {
        Both::Low => Trit::Zero,
        Both::High => Trit::One,
        Both::Keep => Trit::from(state),
        Both::Unknown => Trit::Unknown,
    }
}

/// The lines on clear and preset, with `otherwise` where both are 0.
pub fn cleared_by(clear: bool, preset: bool, both: Both, state: bool, otherwise: Trit) -> Trit
    ensures { result ≡ cleared_by clear preset both state otherwise }
{
    match (clear, preset) {
        (true, true) => both_value(both, state),
        (true, false) => Trit::Zero,
        (false, true) => Trit::One,
        (false, false) => otherwise,
    }
}

/// Whether each column's symbol matches the values of the column's pin.
fn columns_match(symbols: &[InSymbol], inputs: &[usize], before: &Values, after: &Values) -> bool
    ensures { result ≡ inputs_match symbols.now (picked before.now inputs.now) (picked after.now inputs.now) }
{
    if symbols.len() != inputs.len() {
        return false;
    }
    for i in 0..symbols.len() {
        if !symbols[i].matches(before.get(inputs[i]), after.get(inputs[i])) {
            return false;
        }
    }
    true
}

/// Whether the row's columns match, and the symbol of the node's present state.
fn row_matches(
    row: &TableRow,
    node: usize,
    inputs: &[usize],
    before: &Values,
    after: &Values,
    state: bool,
) -> bool
    ensures { result ≡ row_matches node (picked before.now inputs.now) (picked after.now inputs.now) state row.now }
{
    if !columns_match(row.inputs.as_slice(), inputs, before, after) {
        return false;
    }
    match row.current.get(node) {
        Some(symbol) => symbol.matches(state),
        None => false,
    }
}

/// The next state of a node by the first row that matches.
fn table_step(
    table: &StateTable,
    node: usize,
    inputs: &[usize],
    before: &Values,
    after: &Values,
    state: bool,
) -> Option<bool>
    ensures { result ≡ table_step table.now node (picked before.now inputs.now) (picked after.now inputs.now) state }
{
    for row in table.rows.as_slice() {
        if row_matches(row, node, inputs, before, after, state) {
            return row_gives(row, node, state);
        }
    }
    None
}

/// What a matching row gives for the node, where it is known.
fn row_gives(row: &TableRow, node: usize, state: bool) -> Option<bool>
    ensures { result ≡ row_gives node state row.now }
{
    match row.next.get(node) {
        Some(symbol) => symbol.value(state),
        None => None,
    }
}

impl GroupKind {
    ghost use Rattle.cell_machine.specs.Step.{kind_step};

    /// The step over values of all names, where the group's state has this name.
    pub fn step(&self, name: usize, before: &Values, after: &Values, state: bool) -> Trit
        requires name { name < 96 }
        requires bounded { KindIsBounded self.now }
        ensures { result ≡ kind_step self.now name before.now after.now state }
    {
        match self {
            GroupKind::Ff(kind) => kind.step(name, before, after, state),
            GroupKind::Latch(kind) => kind.step(name, after, state),
            GroupKind::Table {
                table,
                node,
                inputs,
            } => match table_step(table.get(), *node, inputs.as_slice(), before, after, state) {
                Some(next) => Trit::from(next),
                None => Trit::Unknown,
            },
        }
    }
}
