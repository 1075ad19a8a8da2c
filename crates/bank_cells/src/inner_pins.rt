//! Whether what the members of a bus or bundle have becomes the same at each position.
ghost use Rattle.std.specs.Prelude.{◌≡◌, ◌&&◌, bytes_eq, IfOk, map};
ghost use Rattle.std.specs.List.{list_all};
ghost use Rattle.bank_cells.specs.Runs as spec;

use bank_refusals::{are_alike, is_shared, stays};
use bus_texts::Vectors;
use liberty_groups::{Group, Item};
use std::alloc::{AllocError, Global};

/// Of each of these inner pins, whether its statements become the same at each position.
pub(crate) fn judged_pins(
    alloc: Global,
    vectors: &Vectors,
    pins: &[&Group],
) -> Result<Vec<bool>, AllocError>
    ensures { IfOk result (λ found. found.items ≡ map (spec.pin_stays vectors.now) (map (λ pin. pin.now) pins.now)) }
{
    let mut found = Vec::new(alloc);
    for group in pins {
        found.push(are_alike(alloc, vectors, group)?)?;
    }
    Ok(found)
}

/// Whether the inner pin at a place becomes the same at each position.
fn stays_at(stays: &[bool], place: usize) -> bool
    ensures { result ≡ spec.stays_at stays.now place }
{
    match stays.get(place) {
        Some(stays) => *stays,
        None => true,
    }
}

/// Whether the inner pins at these places become the same at each position.
fn all_stay(stays: &[bool], places: &[usize]) -> bool
    ensures { result ≡ list_all (spec.stays_at stays.now) places.now }
{
    for place in places {
        if !stays_at(stays, *place) {
            return false;
        }
    }
    true
}

/// Whether two members have the same statements, which the inner pins at these places name: `stay` tells whether what each member
/// has becomes the same at each position, and `stays` tells it of each inner pin.
pub(crate) fn same_places(stay: bool, stays: &[bool], one: &[usize], other: &[usize]) -> bool
    ensures { result ≡ (stay && (bytes_eq one.now other.now && list_all (spec.stays_at stays.now) one.now)) }
{
    stay && one == other && all_stay(stays, one)
}

/// Whether a statement of a bus or bundle becomes the same at each position, if each member has it.
fn shared_stays(alloc: Global, vectors: &Vectors, item: &Item) -> Result<bool, AllocError>
    ensures { IfOk result (λ same. same ≡ spec.shared_stays vectors.now item.now) }
{
    if is_shared(item) {
        stays(alloc, vectors, item)
    } else {
        Ok(true)
    }
}

/// Whether all statements of a bus or bundle that each member has become the same at each position.
pub(crate) fn all_shared_stay(
    alloc: Global,
    vectors: &Vectors,
    items: &[Item],
) -> Result<bool, AllocError>
    ensures { IfOk result (λ same. same ≡ list_all (spec.shared_stays vectors.now) items.now) }
{
    for item in items {
        if !shared_stays(alloc, vectors, item)? {
            return Ok(false);
        }
    }
    Ok(true)
}
