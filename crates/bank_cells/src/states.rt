//! The states of single bits that a bank becomes.
ghost use Rattle.std.specs.Prelude.{◌≡◌, ◌++◌, ◌∷◌, [], IfOk, OnOk, map};
ghost use Rattle.std.specs.List.{fold};
ghost use Rattle.bus_texts.specs.Vectors.{shown_bank, positions as positions_of};
ghost use Rattle.bank_cells.specs.Expanded as spec;

use crate::rewritten::state_items;
use crate::sink::ItemSink;
use bank_refusals::Place;
use bus_texts::{Bank, Vectors, is_called, member_name, positions};
use liberty_groups::{Arguments, Group, Item, SmallList, Values, copy_text, value_of};
use small_bytes::SmallBytes;
use std::alloc::{AllocError, Global};

/// The name of the state groups that a bank becomes.
fn state_name(alloc: Global, group: &Group) -> Result<SmallBytes, AllocError>
    ensures { IfOk result (λ name. name ≡ spec.state_name group.now) }
{
    if is_called(group, b"ff_bank") {
        copy_text(alloc, b"ff")
    } else {
        copy_text(alloc, b"latch")
    }
}

/// Adds the name of a variable's bit.
fn add_variable(alloc: Global, values: &mut Values, name: &[u8], bit: u16) -> Result<(), AllocError>
    ensures { OnOk result (values.new ≡ values.old ++ spec.variable_value name.now bit ∷ []) }
{
    let bytes = member_name(alloc, name, bit)?;
    let value = value_of(alloc, bytes, true)?;
    values.push(alloc, value)
}

/// The variables of a bank's state.
fn variables(alloc: Global, bank: Bank<'_>, bit: u16) -> Result<Arguments, AllocError>
    ensures { IfOk result (λ values. values ≡ spec.variables_at (shown_bank bank.entry) bit) }
{
    let mut values = Values::with_capacity(alloc, 2)?;
    add_variable(alloc, &mut values, bank.first, bit)?;
    add_variable(alloc, &mut values, bank.second, bit)?;
    Arguments::from_values(alloc, values)
}

/// The state of a bank at a position.
fn bank_state(
    alloc: Global,
    vectors: &Vectors,
    group: &Group,
    bank: Bank<'_>,
    bit: u16,
) -> Result<Group, AllocError>
    ensures { IfOk result (λ state. state ≡ spec.bank_state vectors.now group.now (shown_bank bank.entry) bit) }
{
    let position = Some(usize::from(bit));
    let items = state_items(alloc, Place { vectors, position }, group)?;
    let items = SmallList::from_items(alloc, items)?;
    let arguments = variables(alloc, bank, bit)?;
    Ok(Group {
        name: state_name(alloc, group)?,
        arguments,
        items,
        at: group.at,
    })
}

/// Adds the states of a bank at these positions.
fn add_states<S: ItemSink>(
    alloc: Global,
    found: &mut S,
    vectors: &Vectors,
    group: &Group,
    bank: Bank<'_>,
    bits: &[u16],
) -> Result<(), AllocError>
    ensures { OnOk result
        (found.new ≡ fold S.after found.old (map (spec.bank_item vectors.now group.now (shown_bank bank.entry)) bits.now)) }
{
    for bit in bits {
        let state = bank_state(alloc, vectors, group, bank, *bit)?;
        found.take(alloc, Item::Inner(state))?;
    }
    Ok(())
}

/// Adds all states of a bank.
pub(crate) fn add_bank<S: ItemSink>(
    alloc: Global,
    found: &mut S,
    vectors: &Vectors,
    group: &Group,
    bank: Bank<'_>,
) -> Result<(), AllocError>
    ensures { OnOk result
        (found.new
        ≡ fold S.after found.old
        (map (spec.bank_item vectors.now group.now (shown_bank bank.entry)) (positions_of bank.entry.width))) }
{
    let bits = positions(alloc, bank.width)?;
    add_states(alloc, found, vectors, group, bank, bits.as_slice())
}
