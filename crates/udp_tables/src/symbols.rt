//! The symbols of generated rows, of any language: those for the places of a cube.
ghost use Rattle.std.specs.Prelude.{◌≡◌, ◌+◌, ◌≤◌, map, length, drop, IfOk};
ghost use Rattle.cell_machine.specs.Machine.{init};
ghost use Rattle.udp_tables.specs.Edges.{change_columns};
ghost use Rattle.udp_tables.specs.Generated.{level_entry};
ghost use Rattle.udp_tables.specs.Sequential.{level_symbol, edge_entry};

use crate::row_makers::StepRows;
use crate::table::{Entry, Level};
use std::alloc::{AllocError, Global};
use trit_cubes::{Cube, Trit};

/// A symbol of a table's columns that stands for a place of a cube.
pub trait PlaceSymbol: Copy {
    ghost use Rattle.std.specs.Prelude.{◌≡◌};
    ghost use Rattle.trit_cubes.specs.declared.trits.Trit.{Trit};

    /// The symbol for a place that is fixed at a value, or free where it is unknown.
    ghost of_place: { Trit → Self };

    /// The symbol for a place that is fixed at a value, or free where it is unknown.
    fn of_place(place: Trit) -> Self
        ensures { result ≡ of_place place };
}

/// The symbols for the places of a cube. There is room for one more. `AllocError` comes only where memory is wanting.
pub fn cube_symbols<S: PlaceSymbol>(alloc: Global, cube: &Cube) -> Result<Vec<S>, AllocError>
    ensures { IfOk result (λ symbols. symbols.items ≡ map S.of_place cube.now) }
{
    let mut symbols = Vec::with_capacity(alloc, cube.len() + 1)?;
    for i in 0..cube.len() {
        symbols.push(S::of_place(cube.place(i)))?;
    }
    Ok(symbols)
}

/// The symbols of the inputs for the cube of a change of the one at `place`. The cube's places are the value before, the value
/// after, the other inputs and the state. `AllocError` comes only where memory is wanting.
pub fn change_symbols<M: StepRows>(
    alloc: Global,
    place: usize,
    cube: &Cube,
) -> Result<Vec<M::Symbol>, AllocError>
    requires { place + 3 ≤ length cube.now }
    ensures { IfOk result (λ symbols. symbols.items ≡ change_columns M.Symbol.of_place M.of_change place cube.now) }
{
    let change = M::of_change(cube.place(0), cube.place(1));
    let mut symbols = other_symbols(alloc, cube)?;
    symbols.insert(place, change)?;
    Ok(symbols)
}

/// The symbols of the inputs that do not change.
fn other_symbols<S: PlaceSymbol>(alloc: Global, cube: &Cube) -> Result<Vec<S>, AllocError>
    requires { 3 ≤ length cube.now }
    ensures { IfOk result (λ symbols. symbols.items ≡ map S.of_place (drop 2 (init cube.now))) }
{
    let mut symbols = Vec::with_capacity(alloc, cube.len())?;
    for i in 2..cube.len() - 1 {
        symbols.push(S::of_place(cube.place(i)))?;
    }
    Ok(symbols)
}

impl PlaceSymbol for Entry {
    ghost of_place = { level_entry };

    fn of_place(place: Trit) -> Entry {
        match place {
            Trit::Zero => Entry::Level(Level::Zero),
            Trit::One => Entry::Level(Level::One),
            Trit::Unknown => Entry::Level(Level::Any),
        }
    }
}

/// The entry for a change from the value of one place to that of another one, each free where it is unknown.
pub(crate) fn edge_entry(old: Trit, new: Trit) -> Entry
    ensures { result ≡ edge_entry old new }
{
    match old {
        Trit::Zero => Entry::Pair(Level::Zero, level_symbol(new)),
        Trit::One => Entry::Pair(Level::One, level_symbol(new)),
        Trit::Unknown => match new {
            Trit::Zero => Entry::Pair(Level::Any, Level::Zero),
            Trit::One => Entry::Pair(Level::Any, Level::One),
            Trit::Unknown => Entry::Star,
        },
    }
}

/// The level for a place that is fixed at a value, or free where it is unknown.
pub(crate) fn level_symbol(place: Trit) -> Level
    ensures { result ≡ level_symbol place }
{
    match place {
        Trit::Zero => Level::Zero,
        Trit::One => Level::One,
        Trit::Unknown => Level::Any,
    }
}
