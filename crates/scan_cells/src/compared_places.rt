//! The places over which a part of a cell and the same part of its view are compared.
ghost use Rattle.std.specs.Prelude.{◌≡◌, ◌≢◌, ◌+◌, ◌<◌, ◌≤◌, bit_and, true, length, position, unwrap_or};
ghost use Rattle.cell_machine.specs.CellData.{data_of};
ghost use Rattle.cell_machine.specs.declared.outputs.Source.TheVariants as source;
ghost use Rattle.scan_cells.specs.Views.{view_data};
ghost use Rattle.scan_cells.specs.Places.{same_source, places_of as places_of_cell, is_inactive as is_inactive_at};
ghost use Rattle.scan_cells.specs.Masks.{IsMask};

use crate::masks::{is_mixed, mask_of};
use crate::places::places_of;
use crate::points::{enable_place, is_inactive_by};
use crate::sources::Sources;
use crate::views::View;
use cell_machine::{Cell, Source};

/// The places of both supports, where the scan enable stands among them, and the masks of the supports.
#[derive(Drop)]
pub struct ComparedPlaces<'a> {
    view: &'a View,
    places: Sources,
    /// The place of the scan enable.
    enable: Option<usize>,
    cell_mask: u32,
    view_mask: u32,
    ghost few_places: { length places ≤ 20 },
    ghost is_enable: { enable ≡ position (same_source (source.Pin view.now.enable)) places },
    ghost few_enable: { unwrap_or enable 0 < 20 },
}

impl<'a> ComparedPlaces<'a> {
    /// Those of these supports, the view's as it stands in the cell.
    pub fn of(
        cell: &Cell,
        view: &'a View,
        of_cell: &[Source],
        of_view: &[Source],
    ) -> ComparedPlaces<'a>
        requires { length of_cell.now + length of_view.now ≤ 20 }
        ensures view { result.view.now ≡ view.now }
        ensures places { result.places ≡ places_of_cell (data_of cell.now) of_cell.now of_view.now }
        ensures cell_mask { IsMask (view_data view.now) result.places of_cell.now result.cell_mask }
        ensures view_mask { IsMask (view_data view.now) result.places of_view.now result.view_mask }
    {
        let places = places_of(cell, of_cell, of_view);
        let cell_mask = mask_of(view, places.as_slice(), of_cell);
        let view_mask = mask_of(view, places.as_slice(), of_view);
        ComparedPlaces {
            view,
            enable: enable_place(view, places.as_slice()),
            places,
            cell_mask,
            view_mask,
        }
    }

    /// The places in order.
    pub fn as_slice(&self) -> &[Source]
        ensures is { result.now ≡ self.now.places }
        ensures few { length result.now ≤ 20 }
    {
        self.places.as_slice()
    }

    /// Whether the scan enable is inactive at a point.
    #[tactic(auto, unfolding(crate::specs::Places::is_inactive))]
    pub fn is_inactive(&self, point: u32) -> bool
        ensures { result ≡ is_inactive_at (view_data self.now.view.now) self.now.places point }
    {
        is_inactive_by(self.view, self.enable, point)
    }

    /// Whether a point has 1 at a place of either support that the other has not.
    pub fn is_mixed(&self, point: u32) -> bool
        ensures first { result ≡ true → bit_and point self.now.cell_mask ≢ point }
        ensures second { result ≡ true → bit_and point self.now.view_mask ≢ point }
    {
        is_mixed(point, self.cell_mask, self.view_mask)
    }
}
