//! The places of the points at which a cell and its view are compared.
ghost use Rattle.std.specs.Prelude.{◌≡◌, ◌+◌, ◌≤◌, ◌<◌, ◌++◌, [], ◌∷◌, length, filter, position, IfSome};
ghost use Rattle.std.specs.List.{list_any, range_with_len};
ghost use Rattle.cell_machine.specs.CellData.{data_of};
ghost use Rattle.scan_cells.specs.Places.{same_source as same_source_of, pin_sources, state_sources, in_either as in_either_of};
ghost use Rattle.scan_cells.specs.Places.{places_of as places_of_cell};

use crate::sources::{Sources, no_sources, same_source};
use cell_machine::{Cell, Source};

/// Whether a source is in a support.
fn is_in(support: &[Source], source: Source) -> bool
    ensures { result ≡ list_any (same_source_of source) support.now }
{
    support.iter().any(|other| same_source(source, *other))
}

/// Whether a source is in one of two supports.
fn in_either(first: &[Source], second: &[Source], source: Source) -> bool
    ensures { result ≡ in_either_of first.now second.now source }
{
    is_in(first, source) || is_in(second, source)
}

/// Adds a source that is in one of two supports.
fn add_place(places: &mut Sources, first: &[Source], second: &[Source], source: Source)
    requires { length (places.old ++ filter (in_either_of first.now second.now) (source ∷ [])) ≤ 20 }
    ensures { places.new ≡ places.old ++ filter (in_either_of first.now second.now) (source ∷ []) }
{
    if in_either(first, second, source) {
        places.push(source);
    }
}

/// The pins of both supports, ascending.
fn pin_places(cell: &Cell, first: &[Source], second: &[Source]) -> Sources
    requires { length first.now + length second.now ≤ 20 }
    ensures { result ≡ filter (in_either_of first.now second.now) (pin_sources (range_with_len 0 (length cell.now.pins))) }
{
    let mut places = no_sources();
    for pin in 0..cell.pins.len() {
        add_place(&mut places, first, second, Source::Pin(pin));
    }
    places
}

/// The pins of both supports, ascending, and then the states of both.
pub fn places_of(cell: &Cell, first: &[Source], second: &[Source]) -> Sources
    requires { length first.now + length second.now ≤ 20 }
    ensures is { result ≡ places_of_cell (data_of cell.now) first.now second.now }
    ensures few { length result ≤ 20 }
{
    let mut places = pin_places(cell, first, second);
    for group in 0..cell.groups.len() {
        add_place(&mut places, first, second, Source::State(group));
    }
    places
}

/// The place of a source, where it has one.
pub fn place_of(places: &[Source], source: Source) -> Option<usize>
    requires { length places.now ≤ 20 }
    ensures is { result ≡ position (same_source_of source) places.now }
    ensures few { IfSome result (λ k. k < 20) }
{
    places.iter().position(|other| same_source(source, *other))
}
