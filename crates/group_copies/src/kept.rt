//! Groups with some of their statements.
ghost use Rattle.std.specs.Prelude.{◌≡◌, IfOk, filter};
ghost use Rattle.liberty_groups.specs.declared.tree.Item.{out-Item};
ghost use Rattle.group_copies.specs.Copies.{with_items as with_items_of};

use crate::statements::with_items;
use liberty_groups::{Group, Item, copy_item};
use sqlite_items::Items;
use std::alloc::{AllocError, Global};

/// Which statements of a group are kept.
pub trait Keeps {
    ghost use Rattle.std.specs.Prelude.{◌≡◌, Bool};
    ghost use Rattle.liberty_groups.specs.declared.tree.Item.{Item, out-Item};
    ghost use Rattle.liberty_groups.specs.declared.tree.Item.TheOpen.{Item-F};
    ghost use Rattle.liberty_groups.specs.declared.tree.Group.{Group};

    /// Which these are.
    ghost keeps: { Self → Item-F Item Group → Bool };

    /// Whether a statement is one of these.
    fn is_kept(&self, item: &Item) -> bool
        ensures { result ≡ keeps self.now (out-Item item.now) };
}

/// Copies of the statements that are kept, in order. An `Err` comes only where memory is wanting.
pub fn kept_items<K: Keeps>(
    alloc: Global,
    kept: &K,
    items: &[Item],
) -> Result<Items<Item>, AllocError>
    ensures { IfOk result (λ copies. copies ≡ filter (λ item. K.keeps kept.now (out-Item item)) items.now) }
{
    let mut copies = Items::new(alloc);
    for item in items {
        if kept.is_kept(item) {
            copies.push(copy_item(alloc, item)?)?;
        }
    }
    Ok(copies)
}

/// A group with those of its statements that are kept. An `Err` comes only where memory is wanting.
pub fn with_kept<K: Keeps>(alloc: Global, kept: &K, group: &Group) -> Result<Group, AllocError>
    ensures { IfOk result
        (λ made. made ≡ with_items_of group.now (filter (λ item. K.keeps kept.now (out-Item item)) group.now.items)) }
{
    with_items(
        alloc,
        group,
        kept_items(alloc, kept, group.items.as_slice())?,
    )
}
