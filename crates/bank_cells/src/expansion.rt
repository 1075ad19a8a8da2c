//! What stands in the place of a group of a cell that is no bus and no bundle.
ghost use Rattle.std.specs.Prelude.{◌≡◌, OnOk};
ghost use Rattle.std.specs.List.{fold};
ghost use Rattle.bank_cells.specs.Expanded as spec;

use crate::pins::single_pin;
use crate::sink::ItemSink;
use crate::states::add_bank;
use bus_texts::{Vectors, bank_of, is_called};
use liberty_groups::{Group, Item, copy_group};
use std::alloc::{AllocError, Global};

/// Adds the states of the bank that a group is.
pub(crate) fn add_bank_states<S: ItemSink>(
    alloc: Global,
    found: &mut S,
    vectors: &Vectors,
    group: &Group,
) -> Result<(), AllocError>
    ensures { OnOk result (found.new ≡ fold S.after found.old (spec.bank_states vectors.now group.now)) }
{
    match bank_of(group) {
        None => Ok(()),
        Some(bank) => add_bank(alloc, found, vectors, group, bank),
    }
}

/// Adds what a group that is no bus, bundle or bank becomes.
pub(crate) fn add_single<S: ItemSink>(
    alloc: Global,
    found: &mut S,
    vectors: &Vectors,
    group: &Group,
) -> Result<(), AllocError>
    ensures { OnOk result (found.new ≡ fold S.after found.old (spec.single_group vectors.now group.now)) }
{
    let single = if is_called(group, b"pin") {
        single_pin(alloc, vectors, group)?
    } else {
        copy_group(alloc, group)?
    };
    found.take(alloc, Item::Inner(single))
}
