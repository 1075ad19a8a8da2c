//! The points at which a cell and its view are compared, as numbers.
ghost use Rattle.std.specs.Prelude.{◌≡◌, ◌<◌, ◌≤◌, ◌^◌, true, length, map, position, unwrap_or};
ghost use Rattle.std.specs.Option.{option_map_or};
ghost use Rattle.cell_machine.specs.declared.outputs.Source.TheVariants as source;
ghost use Rattle.scan_cells.specs.Views.{view_data};
ghost use Rattle.scan_cells.specs.Places.{same_source, is_set as is_set_at, changed_at as changed_at_place};
ghost use Rattle.scan_cells.specs.Places.{is_idle as is_idle_at, is_inactive as is_inactive_at};
ghost use Rattle.scan_cells.specs.Weights.{weight_of as weight_of_source, weighed};

use crate::places::place_of;
use crate::views::View;
use cell_attributes::limits::MOST_OUTPUT_SOURCES;
use cell_machine::{Few, Source};

/// The number that place k weighs.
pub fn weight(k: usize) -> u32
    requires { k < 20 }
    ensures { result ≡ 2 ^ k }
{
    1 << k
}

/// What the place of a source weighs in a point over these places.
pub fn source_weight(places: &[Source], source: Source) -> u32
    requires { length places.now ≤ 20 }
    ensures { result ≡ weight_of_source places.now source }
{
    match place_of(places, source) {
        Some(k) => weight(k),
        None => weight(0),
    }
}

/// Whether a place of a point is 1.
#[tactic(auto, unfolding(crate::specs::Places::is_set))]
fn is_set(k: usize, point: u32) -> bool
    requires { k < 20 }
    ensures { result ≡ is_set_at k point }
{
    (point >> k) & 1 == 1
}

/// The point that differs from another one at place k alone.
#[tactic(auto, unfolding(crate::specs::Places::changed_at))]
pub fn changed_at(point: u32, k: usize) -> u32
    requires { k < 20 }
    ensures { result ≡ changed_at_place point k }
{
    point ^ weight(k)
}

/// Whether the scan enable, which has this place, is inactive at a point.
fn is_idle(view: &View, point: u32, k: usize) -> bool
    requires { k < 20 }
    ensures { result ≡ is_idle_at (view_data view.now) point k }
{
    if view.active {
        !is_set(k, point)
    } else {
        is_set(k, point)
    }
}

/// The place of the scan enable of a view, where it has one.
pub fn enable_place(view: &View, places: &[Source]) -> Option<usize>
    requires { length places.now ≤ 20 }
    ensures is { result ≡ position (same_source (source.Pin view.now.enable)) places.now }
    ensures few { unwrap_or result 0 < 20 }
{
    place_of(places, Source::Pin(view.enable))
}

/// Whether the scan enable of a view, which has this place if any, is inactive at a point.
pub fn is_inactive_by(view: &View, enable: Option<usize>, point: u32) -> bool
    requires { unwrap_or enable 0 < 20 }
    ensures { result ≡ option_map_or (is_idle_at (view_data view.now) point) enable true }
{
    match enable {
        Some(k) => is_idle(view, point, k),
        None => true,
    }
}

/// What the sources of a support weigh in a point, in their order.
pub type Weights = Few<u32, MOST_OUTPUT_SOURCES>;

/// What the sources of a support weigh in a point over these places.
pub fn weights_of(places: &[Source], support: &[Source]) -> Weights
    requires places { length places.now ≤ 20 }
    requires support { length support.now ≤ 10 }
    ensures is { result ≡ map (weight_of_source places.now) support.now }
    ensures few { length result ≤ 10 }
{
    let mut weights = Few::new(0);
    for source in support {
        weights.push(source_weight(places, *source));
    }
    weights
}
