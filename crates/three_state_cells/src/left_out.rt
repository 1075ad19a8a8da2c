//! The timing groups that a cell with three-state outputs leaves out.
ghost use Rattle.std.specs.Prelude.{◌≡◌, ◌++◌, IfOk, OnOk, map, slice_get};
ghost use Rattle.std.specs.Option.{option_copied};
ghost use Rattle.core_groups.specs.Outputs.{shown};
ghost use Rattle.three_state_cells.specs.Timing.{left_out_as, of_pin, in_pin_order as in_pin_order_of};

use cell_machine::Pin;
use cell_reader::{LeftOut, shared_kind, type_text};
use core_groups::{ThreeStateOutput, timing_groups};
use liberty_groups::Group;
use sqlite_items::Items;
use std::alloc::{AllocError, Global};

/// The group at this place among these.
fn group_at<'a>(groups: &[&'a Group], place: usize) -> Option<&'a Group>
    ensures { option_copied result ≡ slice_get (map (λ group. group.now) groups.now) place }
{
    match groups.get(place) {
        None => None,
        Some(group) => Some(*group),
    }
}

/// Adds the timing groups at these places among those of a three-state output.
pub(crate) fn add_left_out(
    alloc: Global,
    found: &mut Items<LeftOut>,
    output: ThreeStateOutput<'_>,
    places: &[usize],
) -> Result<(), AllocError>
    ensures { OnOk result (found.new ≡ found.old ++ map (left_out_as (shown output.entry)) places.now) }
{
    let groups = timing_groups(alloc, output.group)?;
    for place in places {
        let text = type_text(group_at(&groups, *place));
        let kind = shared_kind(alloc, found.as_slice(), places.len(), text)?;
        let pin = output.pin;
        found.push(LeftOut { pin, kind })?;
    }
    Ok(())
}

/// Adds those that are a pin's. Their texts are held together.
fn add_of_pin(found: &mut Items<LeftOut>, pin: usize, lines: &[LeftOut]) -> Result<(), AllocError>
    ensures { OnOk result (found.new ≡ found.old ++ of_pin pin lines.now) }
{
    for line in lines {
        if line.pin == pin {
            let kind = line.kind.again()?;
            found.push(LeftOut { pin, kind })?;
        }
    }
    Ok(())
}

/// Those of two lists in the order of the pins.
pub(crate) fn in_pin_order(
    alloc: Global,
    pins: &[Pin],
    one: &[LeftOut],
    other: &[LeftOut],
) -> Result<Items<LeftOut>, AllocError>
    ensures { IfOk result (λ found. found ≡ in_pin_order_of 0 pins.now one.now other.now) }
{
    let mut found = Items::new(alloc);
    for pin in 0..pins.len() {
        add_of_pin(&mut found, pin, one)?;
        add_of_pin(&mut found, pin, other)?;
    }
    Ok(found)
}
