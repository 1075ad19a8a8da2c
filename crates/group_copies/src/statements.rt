//! Groups with other statements.
ghost use Rattle.std.specs.Prelude.{◌≡◌, IfOk};
ghost use Rattle.group_copies.specs.Copies.{with_items as with_items_of};

use liberty_groups::{Group, Item, SmallList, copy_arguments, copy_text};
use sqlite_items::Items;
use std::alloc::{AllocError, Global};

/// A group with these statements, which is like another one in all else. An `Err` comes only where memory is wanting.
pub fn with_items(alloc: Global, like: &Group, items: Items<Item>) -> Result<Group, AllocError>
    ensures { IfOk result (λ group. group ≡ with_items_of like.now items) }
{
    let items = SmallList::from_items(alloc, items)?;
    let arguments = copy_arguments(alloc, like.arguments.as_slice())?;
    Ok(Group {
        name: copy_text(alloc, like.name.as_slice())?,
        arguments,
        items,
        at: like.at,
    })
}
