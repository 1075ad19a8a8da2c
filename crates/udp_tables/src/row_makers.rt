//! What makes the rows of tables from the symbols of their inputs, in one language.
use crate::symbols::PlaceSymbol;
use sqlite_items::Items;
use std::alloc::{AllocError, Global};
use trit_cubes::Trit;

/// What makes the rows of levels of a language.
pub trait LevelRows: Copy {
    ghost use Rattle.std.specs.Prelude.{◌≡◌, List, IfOk};
    ghost use Rattle.trit_cubes.specs.declared.trits.Trit.{Trit};

    /// The symbol of an input.
    type Symbol: PlaceSymbol;

    /// A row.
    type Row: Drop;

    /// The row of these symbols that gives this value, whatever the state is.
    ghost level_row: { Self → List Self.Symbol → Trit → Self.Row };

    /// The row of these symbols that gives this value, whatever the state is. `AllocError` comes only where memory is wanting.
    fn level_row(self, symbols: Vec<Self::Symbol>, value: Trit) -> Result<Self::Row, AllocError>
        ensures { IfOk result (λ row. row ≡ level_row self symbols.items value) };
}

/// What makes the rows of a step.
pub trait StepRows: LevelRows {
    ghost use Rattle.std.specs.Prelude.{◌≡◌, ◌≤◌, ℕ, Option, List, ◌++◌, IfOk, OnOk};
    ghost use Rattle.trit_cubes.specs.declared.trits.Trit.{Trit};

    /// The symbol for a change from the value of one place to that of another one, each free where it is unknown.
    ghost of_change: { Trit → Trit → Self.Symbol };

    /// The rows for so many inputs by which a check that reports makes the state unknown.
    ghost report_rows: { Self → ℕ → List Self.Row };

    /// The row of these symbols that asks for this state, any where it is unknown, and gives this value or keeps the state.
    ghost change_row: { Self → List Self.Symbol → Trit → Option Trit → Self.Row };

    /// The symbol for a change from the value of one place to that of another one, each free where it is unknown.
    fn of_change(old: Trit, new: Trit) -> Self::Symbol
        ensures { result ≡ of_change old new };

    /// Adds the rows by which a check that reports makes the state unknown, where there are checks. `AllocError` comes only where
    /// memory is wanting.
    fn add_report_rows(
        self,
        alloc: Global,
        rows: &mut Items<Self::Row>,
        inputs: usize,
    ) -> Result<(), AllocError>
        requires { inputs ≤ 10 }
        ensures { OnOk result (rows.new ≡ rows.old ++ report_rows self inputs) };

    /// The row of these symbols that asks for this state, any where it is unknown, and gives this value, or keeps the state where
    /// it gives none. `AllocError` comes only where memory is wanting.
    fn change_row(
        self,
        symbols: Vec<Self::Symbol>,
        state: Trit,
        gives: Option<Trit>,
    ) -> Result<Self::Row, AllocError>
        ensures { IfOk result (λ row. row ≡ change_row self symbols.items state gives) };
}
