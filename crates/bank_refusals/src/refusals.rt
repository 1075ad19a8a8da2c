//! The reasons not to expand the group of a cell, tried on the group as it stands.
ghost use Rattle.std.specs.Prelude.{◌≡◌, IfOk};
ghost use Rattle.cell_machine.specs.Delay.{least as least_of};
ghost use Rattle.bus_texts.specs.BusTypes.{type_of as type_of_bus};
ghost use Rattle.bank_refusals.specs.Refusals as spec;

use crate::refusal::{BankReason, BankRefusal};
use crate::widths::width_faults;
use bus_texts::{BusTypes, bank_of, bundle_members, is_bank, is_called, type_of};
use cell_machine::least::lesser;
use liberty_groups::{Group, Item};
use std::alloc::{AllocError, Global};

/// Whether a group makes several pins: it is a bus or a bundle.
pub fn is_pins(group: &Group) -> bool
    ensures { result ≡ spec.is_pins group.now }
{
    is_called(group, b"bus") || is_called(group, b"bundle")
}

/// Whether a group that holds states holds flip-flops: it is one, or a bank of them.
pub(crate) fn is_flip_flop(group: &Group) -> bool
    ensures { result ≡ spec.is_flip_flop group.now }
{
    is_called(group, b"ff") || is_called(group, b"ff_bank")
}

/// Whether a statement is a group that makes several pins or states.
fn is_many_item(item: &Item) -> bool
    ensures { result ≡ spec.is_many_item item.now }
{
    match item {
        Item::Inner(group) => is_pins(group) || is_bank(group),
        Item::Simple { .. } | Item::Complex { .. } => false,
    }
}

/// Whether a cell has groups that make several pins or states: buses, bundles or banks. Where it has none, its expanded
/// group is the group as it stands.
pub fn has_many(cell: &Group) -> bool
    ensures { result ≡ spec.has_many cell.now }
{
    for item in cell.items.as_slice() {
        if is_many_item(item) {
            return true;
        }
    }
    false
}

/// Whether a bus has no type of at most 64 positions.
fn is_too_wide(types: &BusTypes, bus: &Group) -> bool
    ensures { result ≡ spec.is_too_wide (type_of_bus types.now bus.now) }
{
    match type_of(types, bus) {
        None => true,
        Some(bus_type) => bus_type.bit_count() > 64,
    }
}

/// Whether a group that makes several pins or states does not say what they are.
fn lacks_shape(alloc: Global, types: &BusTypes, group: &Group) -> Result<bool, AllocError>
    ensures { IfOk result (λ lacks. lacks ≡ spec.lacks_shape types.now group.now) }
{
    if is_called(group, b"bus") {
        return Ok(is_too_wide(types, group));
    }
    if is_called(group, b"bundle") {
        return Ok(bundle_members(alloc, group)?.is_empty());
    }
    if !is_bank(group) {
        return Ok(false);
    }
    match bank_of(group) {
        None => Ok(true),
        Some(_) => Ok(false),
    }
}

/// The offsets of such groups of a cell.
fn shape_faults(alloc: Global, types: &BusTypes, cell: &Group) -> Result<Vec<usize>, AllocError>
    ensures { IfOk result (λ found. found.items ≡ spec.shape_faults types.now cell.now) }
{
    let mut found = Vec::new(alloc);
    for item in cell.items.as_slice() {
        if let Item::Inner(group) = item {
            if lacks_shape(alloc, types, group)? {
                found.push(group.at)?;
            }
        }
    }
    Ok(found)
}

/// The least of some offsets.
#[tactic(auto, using(cell_machine::proofs::LeastLemmas::lesser_assoc))]
fn least(offsets: &[usize]) -> Option<usize>
    ensures { result ≡ least_of offsets.now }
{
    let mut least = None;
    for at in offsets {
        least = lesser(least, Some(*at));
    }
    least
}

/// The first refusal of a cell with groups that make several pins or states.
fn first_refusal(
    alloc: Global,
    types: &BusTypes,
    cell: &Group,
) -> Result<Option<BankRefusal>, AllocError>
    ensures { IfOk result (λ refusal. refusal ≡ spec.first_refusal types.now cell.now) }
{
    let shapes = shape_faults(alloc, types, cell)?;
    if let Some(at) = least(&shapes) {
        return Ok(Some(BankRefusal {
            reason: BankReason::Bank,
            at,
        }));
    }
    let widths = width_faults(alloc, types, cell)?;
    match least(&widths) {
        None => Ok(None),
        Some(at) => Ok(Some(BankRefusal {
            reason: BankReason::Width,
            at,
        })),
    }
}

/// Why the group of a cell is not expanded to single bits, if it is not, where these types of buses stand before it: the first of
/// the reasons that it meets, at the least offset at which it meets it.
#[tactic(auto, unfolding(crate::specs::Refusals::bank_refusal))]
pub fn bank_refusal(
    alloc: Global,
    types: &BusTypes,
    cell: &Group,
) -> Result<Option<BankRefusal>, AllocError>
    ensures { IfOk result (λ refusal. refusal ≡ spec.bank_refusal types.now cell.now) }
{
    if has_many(cell) {
        first_refusal(alloc, types, cell)
    } else {
        Ok(None)
    }
}
