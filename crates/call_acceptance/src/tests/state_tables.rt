//! Tables as they stand in libraries.
ghost use Rattle.std.specs.Prelude.{◌≡◌, IfOk};
ghost use Rattle.statetables.specs.Step.{IsRectangular};

use statetables::{StateTable, TableFault, read_table};
use std::alloc::Global;
use std::test::Fail;
use table_tests::{Row, all_hold};

/// A text that is no table of one input and one node, for this fault, or is one.
struct TableText(&'static [u8], Option<TableFault>);

impl Row for TableText {
    fn holds(&self, alloc: Global) -> bool {
        read_table(alloc, self.0, 1, 1).err() == self.1
    }
}

const TABLE_TEXTS: [TableText; 4] = [
    TableText(b"L : - : H, R L : - : N", Some(TableFault::RowWidth(2))),
    TableText(
        b"L : - : Q",
        Some(TableFault::BadSymbol { row: 1, column: 3 }),
    ),
    TableText(b",", Some(TableFault::RowWidth(1))),
    TableText(b"L : - : H ,\t", None),
];

#[test]
fn faults(rt: HostRuntime) -> Result<(), Fail> {
    all_hold(rt.alloc(), &TABLE_TEXTS)
}

/// The table of a text, of one node.
fn one_node(alloc: Global, text: &[u8], inputs: usize) -> Result<StateTable, TableFault>
    ensures inputs { IfOk result (λ table. table.inputs ≡ inputs) }
    ensures nodes { IfOk result (λ table. table.nodes ≡ 1) }
    ensures widths { IfOk result (λ table. IsRectangular table) }
{
    read_table(alloc, text, inputs, 1)
}

/// Whether the table of a clock gate opens and closes while the clock is low, and keeps its node while it is high.
fn gates(alloc: Global, text: &[u8]) -> Result<bool, TableFault> {
    let table = one_node(alloc, text, 3)?;
    let (idle, enabled, clocked) = ([false; 3], [false, true, false], [true, true, false]);
    Ok(
        table.step(0, &idle, &enabled, false) == Some(true)
            && table.step(0, &enabled, &clocked, true) == Some(true)
            && table.step(0, &[true, false, false], &idle, true) == Some(false),
    )
}

/// Whether the table of a toggle turns its node at a rise and keeps it at a fall.
fn toggles(alloc: Global, text: &[u8]) -> Result<bool, TableFault> {
    let table = one_node(alloc, text, 2)?;
    Ok(
        table.rows.len() == 4
            && table.step(0, &[false, false], &[true, false], false) == Some(true)
            && table.step(0, &[false, false], &[true, false], true) == Some(false)
            && table.step(0, &[true, false], &[false, false], true) == Some(true),
    )
}

#[test]
fn tables_step(rt: HostRuntime) -> Result<(), Fail> {
    let gate = b"L L L : - : L, L L H : - : H, L H L : - : H, L H H : - : H, H - - : - : N";
    assert!(rt; gates(rt.alloc(), gate)?);
    assert!(rt; toggles(rt.alloc(), b"- H : - : L, R L : L/H : H/L, ~R L : - : N")?);
    Ok(())
}
