//! The rows of primitives. (IEEE 1364-2005, clause 8.)
ghost use Rattle.std.specs.Prelude.{◌≡◌, ◌≤◌, ◌++◌, IfOk, OnOk};
ghost use Rattle.udp_tables.specs.declared.table.Level.TheVariants as level;
ghost use Rattle.udp_tables.specs.Generated.{next_to};
ghost use Rattle.udp_tables.specs.Sequential.{level_symbol, edge_entry, noted, next_after, symbols_row, notifier_rows};

use crate::entries::Entries;
use crate::row_makers::{LevelRows, StepRows};
use crate::symbols::{cube_symbols, edge_entry, level_symbol};
use crate::table::{Entry, Level, Next, UdpRow};
use sqlite_items::Items;
use std::alloc::{AllocError, Global};
use trit_cubes::{Cube, Trit};

/// What makes the rows of primitives, whose last input is a notifier or not.
#[derive(Clone, Copy)]
pub struct UdpRows {
    /// Whether the last input is a notifier.
    pub notifier: bool,
}

impl LevelRows for UdpRows {
    type Symbol = Entry;

    type Row = UdpRow;

    ghost level_row = { λ rows symbols value. symbols_row rows.notifier symbols level.Any (next_to value) };

    fn level_row(self, symbols: Vec<Entry>, value: Trit) -> Result<UdpRow, AllocError>
        ensures { IfOk result (λ row. row ≡ symbols_row self.notifier symbols.items level.Any (next_to value)) }
    {
        symbols_row(self.notifier, symbols, Level::Any, next_after(Some(value)))
    }
}

impl StepRows for UdpRows {
    ghost of_change = { edge_entry };

    ghost report_rows = { λ rows. notifier_rows rows.notifier };

    ghost change_row = { λ rows symbols state gives. symbols_row rows.notifier symbols (level_symbol state) (next_after gives) };

    fn of_change(old: Trit, new: Trit) -> Entry {
        edge_entry(old, new)
    }

    fn add_report_rows(
        self,
        alloc: Global,
        rows: &mut Items<UdpRow>,
        inputs: usize,
    ) -> Result<(), AllocError> {
        add_notifier_row(alloc, self.notifier, inputs, rows)
    }

    fn change_row(
        self,
        symbols: Vec<Entry>,
        state: Trit,
        gives: Option<Trit>,
    ) -> Result<UdpRow, AllocError>
        ensures { IfOk result (λ row. row ≡ symbols_row self.notifier symbols.items (level_symbol state) (next_after gives)) }
    {
        symbols_row(
            self.notifier,
            symbols,
            level_symbol(state),
            next_after(gives),
        )
    }
}

/// What a row has in its last column that gives this value, or keeps the state where there is none.
fn next_after(gives: Option<Trit>) -> Next
    ensures { result ≡ next_after gives }
{
    match gives {
        Some(Trit::Zero) => Next::Zero,
        Some(Trit::One) => Next::One,
        Some(Trit::Unknown) => Next::Unknown,
        None => Next::Keep,
    }
}

/// The entries with that of the notifier last, where there is one.
fn noted(entries: Vec<Entry>, notifier: bool, note: Entry) -> Result<Vec<Entry>, AllocError>
    ensures { IfOk result (λ all. all.items ≡ noted notifier note entries.items) }
{
    let mut entries = entries;
    if notifier {
        entries.push(note)?;
    }
    Ok(entries)
}

/// The row of these entries, whatever the notifier is.
fn symbols_row(
    notifier: bool,
    entries: Vec<Entry>,
    state: Level,
    next: Next,
) -> Result<UdpRow, AllocError>
    ensures { IfOk result (λ row. row ≡ symbols_row notifier entries.items state next) }
{
    let inputs = noted(entries, notifier, Entry::Level(Level::Any))?;
    Ok(UdpRow {
        inputs: Entries::from_items(Items::from_vec(inputs)),
        state,
        next,
    })
}

/// Adds the row by which each change of the notifier makes the state unknown, where there is a notifier.
fn add_notifier_row(
    alloc: Global,
    notifier: bool,
    pins: usize,
    rows: &mut Items<UdpRow>,
) -> Result<(), AllocError>
    requires { pins ≤ 10 }
    ensures { OnOk result (rows.new ≡ rows.old ++ notifier_rows notifier pins) }
{
    if notifier {
        let entries = cube_symbols(alloc, &Cube::free(pins))?;
        let inputs = noted(entries, true, Entry::Star)?;
        rows.push(UdpRow {
            inputs: Entries::from_items(Items::from_vec(inputs)),
            state: Level::Any,
            next: Next::Unknown,
        })?;
    }
    Ok(())
}
