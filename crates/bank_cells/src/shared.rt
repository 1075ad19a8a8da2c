//! The statements that each member of a bus or bundle has.
ghost use Rattle.std.specs.Prelude.{◌≡◌, ◌++◌, IfOk, OnOk, All, Some, map};
ghost use Rattle.bank_cells.specs.Expanded.{pin_item as pin_item_of};
ghost use Rattle.bank_cells.specs.Fixed as spec;

use crate::pins::pin_item;
use crate::timings::fixed_timing;
use bank_refusals::{Place, is_shared};
use bus_texts::Vectors;
use liberty_groups::{Group, Item, copy_group};
use sqlite_items::Items;
use std::alloc::{AllocError, Global};

/// A statement that each member of a bus or bundle has.
#[derive(Drop)]
pub(crate) struct Shared<'a> {
    pub(crate) item: &'a Item,
    /// What it becomes, where it is a timing group that becomes the same at each position.
    pub(crate) made: Option<Group>,
}

/// The statements of a bus or bundle that each of its members has.
pub(crate) fn shared_items<'a>(
    alloc: Global,
    vectors: &Vectors,
    items: &'a [Item],
) -> Result<Vec<Shared<'a>>, AllocError>
    ensures { IfOk result (λ found. map spec.shown_shared found.items ≡ spec.shared_items vectors.now items.now) }
{
    let mut found = Vec::new(alloc);
    for item in items {
        if is_shared(item) {
            let made = fixed_timing(alloc, vectors, item)?;
            found.push(Shared { item, made })?;
        }
    }
    Ok(found)
}

/// A shared statement as it becomes at a position.
fn shared_at(
    alloc: Global,
    vectors: &Vectors,
    at: usize,
    shared: &Shared<'_>,
) -> Result<Item, AllocError>
    requires { spec.IsSharedOf vectors.now shared.now }
    ensures { IfOk result (λ item. item ≡ pin_item_of vectors.now (Some at) shared.now.item.now) }
{
    match &shared.made {
        Some(group) => Ok(Item::Inner(copy_group(alloc, group)?)),
        None => {
            let position = Some(at);
            pin_item(alloc, Place { vectors, position }, shared.item)
        }
    }
}

/// Adds shared statements as they become at a position.
pub(crate) fn add_shared_at(
    alloc: Global,
    found: &mut Items<Item>,
    vectors: &Vectors,
    at: usize,
    shared: &[Shared<'_>],
) -> Result<(), AllocError>
    requires { All (spec.IsSharedOf vectors.now) shared.now }
    ensures { OnOk result (found.new ≡ found.old ++ map (pin_item_of vectors.now (Some at)) (spec.items_of shared.now)) }
{
    for one in shared {
        found.push(shared_at(alloc, vectors, at, one)?)?;
    }
    Ok(())
}
