//! The groups in a cell's group.
ghost use Rattle.std.specs.Prelude.{◌≡◌, IfOk, map, filter};
ghost use Rattle.cell_attributes.specs.Groups.{inner_groups as inner_groups_of, is_called as is_called_of, is_pin as is_pin_of};
ghost use Rattle.cell_attributes.specs.Groups.{is_state as is_state_of, is_bank as is_bank_of, cell_name as cell_name_of};
ghost use Rattle.cell_attributes.specs.Scans.{is_missing as is_missing_of};

use liberty_groups::{Group, Item, last_attribute};
use std::alloc::{AllocError, Global};

/// Whether a group has this name.
pub fn is_called(group: &Group, name: &[u8]) -> bool
    ensures { result ≡ is_called_of name.now group.now }
{
    group.name.as_slice() == name
}

/// Whether a group makes pins.
pub fn is_pin(group: &Group) -> bool
    ensures { result ≡ is_pin_of group.now }
{
    is_called(group, b"pin") && !group.arguments.is_empty()
}

/// Whether a group holds states.
pub fn is_state(group: &Group) -> bool
    ensures { result ≡ is_state_of group.now }
{
    is_called(group, b"ff") || is_called(group, b"latch") || is_called(group, b"statetable")
}

/// Whether a group stands for several pins or states at once.
pub fn is_bank(group: &Group) -> bool
    ensures { result ≡ is_bank_of group.now }
{
    is_called(group, b"bus")
        || is_called(group, b"bundle")
        || is_called(group, b"ff_bank")
        || is_called(group, b"latch_bank")
}

/// Whether a group has no simple attribute of this name.
pub fn is_missing(group: &Group, name: &[u8]) -> bool
    ensures { result ≡ is_missing_of name.now group.now }
{
    last_attribute(group, name).is_none()
}

/// The name of a cell.
pub fn cell_name(cell: &Group) -> &[u8]
    ensures { result.now ≡ cell_name_of cell.now }
{
    match cell.arguments.as_slice().split_first() {
        None => &[],
        Some((first, _)) => first.bytes(),
    }
}

/// The groups among the statements of a cell, in order.
pub fn inner_groups(alloc: Global, cell: &Group) -> Result<Vec<&Group>, AllocError>
    ensures { IfOk result (λ groups. map (λ group. group.now) groups.items ≡ inner_groups_of cell.now.items) }
{
    // enough room at once: a list of many that grows stands there twice while it is moved
    let mut groups = Vec::with_capacity(alloc, cell.items.len())?;
    for item in cell.items.as_slice() {
        if let Item::Inner(group) = item {
            groups.push(group)?;
        }
    }
    Ok(groups)
}

/// Those of some groups that pass this test, in order. It is no function, since of a test that is handed over contracts know only
/// what its calls may give, and two loops are shorter than the proof that this is one filter.
macro_rules! groups_that {
    ($alloc:expr, $groups:expr, $passes:ident) => {{
        let mut found = Vec::new($alloc);
        for group in $groups {
            if $passes(group) {
                found.push(*group)?;
            }
        }
        Ok(found)
    }};
}

/// Those of some groups that make pins, in order.
pub fn pins_among<'a>(alloc: Global, groups: &[&'a Group]) -> Result<Vec<&'a Group>, AllocError>
    ensures { IfOk result (λ pins. map (λ group. group.now) pins.items ≡ filter is_pin_of (map (λ group. group.now) groups.now)) }
{
    groups_that!(alloc, groups, is_pin)
}

/// Those of some groups that hold states, in order.
pub fn states_among<'a>(alloc: Global, groups: &[&'a Group]) -> Result<Vec<&'a Group>, AllocError>
    ensures { IfOk result (λ states. map (λ group. group.now) states.items ≡ filter is_state_of
        (map (λ group. group.now) groups.now)) }
{
    groups_that!(alloc, groups, is_state)
}
