//! Lists of what states and outputs depend on, of a stated length at most.
ghost use Rattle.std.specs.Prelude.{◌≡◌, ◌<◌, ◌≤◌, [], ◌∷◌, ◌++◌, length, map, slice_index_or};
ghost use Rattle.scan_cells.specs.Views.{view_data};
ghost use Rattle.scan_cells.specs.Places.{same_source as same_source_of, pin_sources as pin_sources_of, in_cell as in_cell_of};

use crate::views::View;
use cell_machine::{Few, Source};

/// The most places of a point: the sources of two supports.
const MOST_PLACES: usize = 20;

/// The sources of two supports at most.
pub type Sources = Few<Source, MOST_PLACES>;

/// No sources.
pub fn no_sources() -> Sources
    ensures { result ≡ [] }
{
    Few::new(Source::Pin(0))
}

/// Whether two sources are the same.
pub fn same_source(source: Source, other: Source) -> bool
    ensures { result ≡ same_source_of source other }
{
    match (source, other) {
        (Source::Pin(pin), Source::Pin(other)) => pin == other,
        (Source::State(group), Source::State(other)) => group == other,
        _ => false,
    }
}

/// Pins as sources.
pub fn pin_sources(pins: &[usize]) -> Sources
    requires { length pins.now ≤ 10 }
    ensures { result ≡ pin_sources_of pins.now }
{
    let mut sources = no_sources();
    for pin in pins {
        sources.push(Source::Pin(*pin));
    }
    sources
}

/// A source of a view as one of its cell.
fn source_in_cell(view: &View, source: Source) -> Source
    ensures { result ≡ in_cell_of (view_data view.now) source }
{
    match source {
        Source::Pin(pin) => Source::Pin(pin_in_cell(view, pin)),
        Source::State(group) => Source::State(group),
    }
}

/// The number in the cell of a pin of its view.
pub fn pin_in_cell(view: &View, pin: usize) -> usize
    ensures { result ≡ slice_index_or view.now.pins pin 0 }
{
    match view.pins.as_slice().get(pin) {
        Some(number) => *number,
        None => 0,
    }
}

/// Sources of a view as those of its cell.
pub fn in_cell(view: &View, sources: &[Source]) -> Sources
    requires { length sources.now ≤ 10 }
    ensures { result ≡ map (in_cell_of (view_data view.now)) sources.now }
{
    let mut found = no_sources();
    for source in sources {
        found.push(source_in_cell(view, *source));
    }
    found
}
