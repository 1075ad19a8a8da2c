//! The test cell of a cell, and what of it is read.
ghost use Rattle.std.specs.Prelude.{◌≡◌, IfOk, [], ◌∷◌, map, codes};
ghost use Rattle.std.specs.Option.{option_copied};
ghost use Rattle.scan_cells.specs.TestGroup.{test_of as test_of_cell, is_time as is_time_name, untimed as untimed_group};
ghost use Rattle.scan_cells.specs.TestGroup.{view_group as view_group_of, name_value as name_value_of, untimed_item};
ghost use Rattle.scan_cells.specs.TestGroup.{is_kept as is_kept_statement};
ghost use Rattle.cell_attributes.specs.Groups.{inner_groups as inner_groups_of};

use cell_attributes::groups::inner_groups;
use group_copies::{Keeps, with_kept};
use liberty_groups::{Arguments, Group, Item, SmallList, Value, Values, copy_text, inner_group};
use sqlite_items::Items;
use std::alloc::{AllocError, Global};

/// The test cell of a cell: of several the first. (Liberty Reference Manual, `test_cell` group.)
pub fn test_of(cell: &Group) -> Option<&Group>
    ensures { option_copied result ≡ test_of_cell cell.now }
{
    for item in cell.items.as_slice() {
        if let Some(group) = inner_group(item, b"test_cell") {
            return Some(group);
        }
    }
    None
}

/// Whether an attribute of a pin says a time.
fn is_time(name: &[u8]) -> bool
    ensures { result ≡ is_time_name name.now }
{
    name == b"min_pulse_width_high".as_slice()
        || name == b"min_pulse_width_low".as_slice()
        || name == b"min_period".as_slice()
}

/// The statements of a group of the test cell that are kept.
struct UntimedStatements;

impl Keeps for UntimedStatements {
    ghost keeps = { λ _. is_kept_statement };

    fn is_kept(&self, item: &Item) -> bool {
        match item {
            Item::Simple { name, .. } => !is_time(name.as_slice()),
            Item::Complex { .. } => true,
            Item::Inner(_) => false,
        }
    }
}

/// A group with what is kept of its statements.
fn untimed(alloc: Global, group: &Group) -> Result<Group, AllocError>
    ensures { IfOk result (λ kept. kept ≡ untimed_group group.now) }
{
    with_kept(alloc, &UntimedStatements, group)
}

/// Groups as statements, each with what is kept of it.
fn untimed_items(alloc: Global, groups: &[&Group]) -> Result<Items<Item>, AllocError>
    ensures { IfOk result (λ items. items ≡ map untimed_item (map (λ group. group.now) groups.now)) }
{
    let mut items = Items::new(alloc);
    for group in groups {
        items.push(Item::Inner(untimed(alloc, group)?))?;
    }
    Ok(items)
}

/// The groups of a test cell, each with what is kept of it.
fn view_items(alloc: Global, test: &Group) -> Result<Items<Item>, AllocError>
    ensures { IfOk result (λ items. items ≡ map untimed_item (inner_groups_of test.now.items)) }
{
    let groups = inner_groups(alloc, test)?;
    untimed_items(alloc, groups.as_slice())
}

/// The arguments of a group with this name.
fn name_arguments(alloc: Global, name: &[u8]) -> Result<Arguments, AllocError>
    ensures { IfOk result (λ arguments. arguments ≡ name_value_of name.now ∷ []) }
{
    let bytes = copy_text(alloc, name)?;
    Arguments::from_values(alloc, Values::one(Value::new(bytes, true)))
}

/// A test cell as the group of a cell with this name.
pub fn view_group(alloc: Global, name: &[u8], test: &Group) -> Result<Group, AllocError>
    ensures { IfOk result (λ group. group ≡ view_group_of name.now test.now) }
{
    let items = SmallList::from_items(alloc, view_items(alloc, test)?)?;
    let arguments = name_arguments(alloc, name)?;
    Ok(Group {
        name: copy_text(alloc, b"cell")?,
        arguments,
        items,
        at: test.at,
    })
}
