//! The rows of VITAL's tables.
ghost use Rattle.std.specs.Prelude.{◌≡◌, ◌≤◌, ◌++◌, IfOk, OnOk};
ghost use Rattle.vital_tables.specs.declared.table.Trits.TheVariants as trits;
ghost use Rattle.vital_tables.specs.Rows.{level_of, edge_symbol, next_to, violated, next_after, symbols_row, violation_rows};

use crate::symbols::edge_symbol;
use crate::table::{Trits, TruthRow, VNext, VStateRow, VSymbol};
use sqlite_items::Items;
use std::alloc::{AllocError, Global};
use trit_cubes::{Cube, Trit};
use udp_tables::{LevelRows, PlaceSymbol, StepRows, cube_symbols};

/// What makes the rows of truth tables.
#[derive(Clone, Copy)]
pub struct TruthTableRows;

/// What makes the rows of state tables, whose first column is the violation or not.
#[derive(Clone, Copy)]
pub struct StateTableRows {
    /// Whether the first column is the violation.
    pub violation: bool,
}

impl LevelRows for TruthTableRows {
    type Symbol = Trits;

    type Row = TruthRow;

    ghost level_row = { λ _ symbols value. record { inputs = symbols; result = value } };

    fn level_row(self, symbols: Vec<Trits>, value: Trit) -> Result<TruthRow, AllocError>
        ensures { IfOk result (λ row. row ≡ record { inputs = symbols.items; result = value }) }
    {
        Ok(TruthRow {
            inputs: Items::from_vec(symbols),
            result: value,
        })
    }
}

impl LevelRows for StateTableRows {
    type Symbol = VSymbol;

    type Row = VStateRow;

    ghost level_row = { λ rows symbols value. symbols_row rows.violation symbols trits.Any (next_to value) };

    fn level_row(self, symbols: Vec<VSymbol>, value: Trit) -> Result<VStateRow, AllocError>
        ensures { IfOk result (λ row. row ≡ symbols_row self.violation symbols.items trits.Any (next_to value)) }
    {
        symbols_row(self.violation, symbols, Trits::Any, next_after(Some(value)))
    }
}

impl StepRows for StateTableRows {
    ghost of_change = { edge_symbol };

    ghost report_rows = { λ rows. violation_rows rows.violation };

    ghost change_row = { λ rows symbols state gives. symbols_row rows.violation symbols (level_of state) (next_after gives) };

    fn of_change(old: Trit, new: Trit) -> VSymbol {
        edge_symbol(old, new)
    }

    fn add_report_rows(
        self,
        alloc: Global,
        rows: &mut Items<VStateRow>,
        inputs: usize,
    ) -> Result<(), AllocError> {
        add_violation_row(alloc, self.violation, inputs, rows)
    }

    fn change_row(
        self,
        symbols: Vec<VSymbol>,
        state: Trit,
        gives: Option<Trit>,
    ) -> Result<VStateRow, AllocError>
        ensures { IfOk result (λ row. row ≡ symbols_row self.violation symbols.items (level_of state) (next_after gives)) }
    {
        symbols_row(
            self.violation,
            symbols,
            Trits::of_place(state),
            next_after(gives),
        )
    }
}

/// The result of a row that gives this value, or keeps the state where there is none.
fn next_after(gives: Option<Trit>) -> VNext
    ensures { result ≡ next_after gives }
{
    match gives {
        Some(Trit::Zero) => VNext::Zero,
        Some(Trit::One) => VNext::One,
        Some(Trit::Unknown) => VNext::Unknown,
        None => VNext::Keep,
    }
}

/// The columns, with that of the violation first where there is one.
fn violated(
    symbols: Vec<VSymbol>,
    violation: bool,
    first: VSymbol,
) -> Result<Vec<VSymbol>, AllocError>
    ensures { IfOk result (λ all. all.items ≡ violated violation first symbols.items) }
{
    let mut symbols = symbols;
    if violation {
        symbols.insert(0, first)?;
    }
    Ok(symbols)
}

/// The row of these symbols of the pins, whatever the violation is.
fn symbols_row(
    violation: bool,
    symbols: Vec<VSymbol>,
    state: Trits,
    next: VNext,
) -> Result<VStateRow, AllocError>
    ensures { IfOk result (λ row. row ≡ symbols_row violation symbols.items state next) }
{
    let inputs = violated(symbols, violation, VSymbol::Level(Trits::Any))?;
    Ok(VStateRow {
        inputs: Items::from_vec(inputs),
        state,
        result: next,
    })
}

/// Adds the row by which a violation makes the state unknown, where there is a column for it.
fn add_violation_row(
    alloc: Global,
    violation: bool,
    pins: usize,
    rows: &mut Items<VStateRow>,
) -> Result<(), AllocError>
    requires { pins ≤ 10 }
    ensures { OnOk result (rows.new ≡ rows.old ++ violation_rows violation pins) }
{
    if violation {
        let symbols = cube_symbols(alloc, &Cube::free(pins))?;
        let inputs = violated(symbols, true, VSymbol::Level(Trits::Unknown))?;
        rows.push(VStateRow {
            inputs: Items::from_vec(inputs),
            state: Trits::Any,
            result: VNext::Unknown,
        })?;
    }
    Ok(())
}
