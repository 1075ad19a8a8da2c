//! Points restricted to the places of a support, as masks.
ghost use Rattle.std.specs.Prelude.{◌≡◌, ◌≢◌, ◌≤◌, bit_and, true, length};
ghost use Rattle.std.specs.List.{list_all};
ghost use Rattle.scan_cells.specs.Views.{view_data};
ghost use Rattle.scan_cells.specs.Masks.{is_in, has_enable, IsMask};

use crate::points::{enable_place, source_weight, weight};
use crate::views::View;
use cell_machine::Source;

/// The mask of a source's place.
fn source_mask(places: &[Source], source: Source) -> u32
    requires { length places.now ≤ 20 }
    ensures { is_in places.now result source ≡ true }
{
    source_weight(places, source)
}

/// The mask of the places of a support.
fn support_mask(places: &[Source], support: &[Source]) -> u32
    requires { length places.now ≤ 20 }
    ensures { list_all (is_in places.now result) support.now ≡ true }
{
    let Some((first, rest)) = support.split_first() else {
        return 0;
    };
    source_mask(places, *first) | support_mask(places, rest)
}

/// The mask of the scan enable's place, where it has one.
fn enable_mask(view: &View, places: &[Source]) -> u32
    requires { length places.now ≤ 20 }
    ensures { has_enable (view_data view.now) places.now result ≡ true }
{
    match enable_place(view, places) {
        Some(k) => weight(k),
        None => 0,
    }
}

/// The mask of the places of a support and of the scan enable of a view, where it has one.
pub fn mask_of(view: &View, places: &[Source], support: &[Source]) -> u32
    requires { length places.now ≤ 20 }
    ensures { IsMask (view_data view.now) places.now support.now result }
{
    enable_mask(view, places) | support_mask(places, support)
}

/// Whether a point has 1 outside of each of two masks.
pub fn is_mixed(point: u32, first: u32, second: u32) -> bool
    ensures first { result ≡ true → bit_and point first ≢ point }
    ensures second { result ≡ true → bit_and point second ≢ point }
{
    point & first != point && point & second != point
}
