//! The group of the core of a cell with three-state outputs.
ghost use Rattle.std.specs.Prelude.{◌≡◌, ◌++◌, ◌∷◌, [], IfOk, OnOk, map};
ghost use Rattle.core_groups.specs.Outputs.{shown, three_state_outputs as three_state_outputs_of};
ghost use Rattle.core_groups.specs.CoreGroups.{stays_in_core as stays_in_core_of, core_pin as core_pin_of};
ghost use Rattle.core_groups.specs.CoreGroups.{core_statement as core_statement_of, core_group as core_group_of};

use crate::enable_pins::add_enable_pins;
use crate::outputs::{ThreeStateOutput, is_three_state};
use group_copies::{Keeps, with_items, with_kept};
use liberty_groups::{Group, Item, copy_item};
use sqlite_items::Items;
use std::alloc::{AllocError, Global};

/// The statements of a three-state output that stay in the core.
struct CoreStatements;

impl Keeps for CoreStatements {
    ghost keeps = { λ _. stays_in_core_of };

    fn is_kept(&self, item: &Item) -> bool {
        match item {
            Item::Simple { name, .. } => name.as_slice() != b"three_state".as_slice(),
            Item::Complex { .. } => true,
            Item::Inner(group) => group.name.as_slice() != b"timing".as_slice(),
        }
    }
}

/// A pin group of three-state outputs with what stays of it in the core.
fn core_pin(alloc: Global, pin: &Group) -> Result<Group, AllocError>
    ensures { IfOk result (λ core. core ≡ core_pin_of pin.now) }
{
    with_kept(alloc, &CoreStatements, pin)
}

/// A statement of a cell as it stands in the core.
fn core_statement(alloc: Global, item: &Item) -> Result<Item, AllocError>
    ensures { IfOk result (λ core. core ≡ core_statement_of item.now) }
{
    match item {
        Item::Inner(group) if is_three_state(group) => Ok(Item::Inner(core_pin(alloc, group)?)),
        _ => copy_item(alloc, item),
    }
}

/// The statements of a cell as they stand in the core.
fn cell_statements(alloc: Global, items: &[Item]) -> Result<Items<Item>, AllocError>
    ensures { IfOk result (λ core. core ≡ map core_statement_of items.now) }
{
    let mut core = Items::new(alloc);
    for item in items {
        core.push(core_statement(alloc, item)?)?;
    }
    Ok(core)
}

/// The group of the core of a cell with these three-state outputs.
#[tactic(auto, unfolding(crate::specs::CoreGroups::core_group))]
pub fn core_group(
    alloc: Global,
    cell: &Group,
    outputs: &[ThreeStateOutput<'_>],
) -> Result<Group, AllocError>
    requires { map shown outputs.now ≡ three_state_outputs_of cell.now }
    ensures { IfOk result (λ core. core ≡ core_group_of cell.now) }
{
    let mut items = cell_statements(alloc, cell.items.as_slice())?;
    add_enable_pins(alloc, &mut items, outputs)?;
    with_items(alloc, cell, items)
}
