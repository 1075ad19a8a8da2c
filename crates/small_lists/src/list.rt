//! Lists whose items stand in one block while they are few.

ghost use Rattle.std.specs.Mem.{FitsInMemory};
ghost use Rattle.std.specs.Prelude.{◌≡◌, ◌↔◌, ◌≤◌, ◌++◌, ◌∷◌, [], length, IfOk, IsTrue};
ghost use Rattle.small_lists.specs.Held.{held_items};
ghost use denote.Array.{Array};

use sqlite_items::{Boxed, Items};
use std::alloc::{AllocError, Global};
use std::marker::Model;

/// A type of which a block may hold eight: they fit in memory.
pub trait Placed {
    ghost fit: { FitsInMemory (Array Self.row 8) };
}

/// What stands in the place of some items: a block of exactly so many, or a list.
enum Held<T> {
    Nothing,
    One(Boxed<[T; 1]>),
    Two(Boxed<[T; 2]>),
    Three(Boxed<[T; 3]>),
    Four(Boxed<[T; 4]>),
    Five(Boxed<[T; 5]>),
    Six(Boxed<[T; 6]>),
    Seven(Boxed<[T; 7]>),
    Eight(Boxed<[T; 8]>),
    Many(Boxed<Items<T>>),
}

/// A list. Contracts see the list of its items.
pub struct SmallList<T: Placed> {
    held: Held<T>,
}

impl<T: Placed> Model for SmallList<T> {
    ghost use Rattle.std.specs.Prelude.{List};
    ghost use Rattle.std.specs.Coded.{coded_list};
    ghost use Rattle.small_lists.specs.Held.{held_items};

    ghost Value = { List T };

    ghost coded = { coded_list T.code };

    ghost view = { λ list. held_items list.held };
}

/// Lets the items of a block go.
fn let_block_go<T: Drop, const N: usize>(block: Boxed<[T; N]>) {
    let _items = block.into_inner();
}

/// Lets the items go.
fn let_go<T: Drop>(held: Held<T>)
    requires { FitsInMemory (Array T.row 8) }
{
    match held {
        Held::Nothing => {}
        Held::One(block) => let_block_go(block),
        Held::Two(block) => let_block_go(block),
        Held::Three(block) => let_block_go(block),
        Held::Four(block) => let_block_go(block),
        Held::Five(block) => let_block_go(block),
        Held::Six(block) => let_block_go(block),
        Held::Seven(block) => let_block_go(block),
        Held::Eight(block) => let_block_go(block),
        Held::Many(_items) => {}
    }
}

impl<T: Drop + Placed> Drop for SmallList<T> {
    fn drop(self) {
        let SmallList { held } = self;
        let_go(held);
    }
}

/// A list of at most so many items is moved to exactly the room that it needs, since it grows by doubling. A longer one keeps its
/// room, of which the system has given no memory yet for most of what is not used.
const FEW: usize = 1024;

/// As many items stand in a block.
const MOST: usize = 8;

/// These items, in no more room than they need where they are not too many.
fn many<T: Drop>(alloc: Global, items: Items<T>) -> Result<Held<T>, AllocError>
    ensures { IfOk result (λ same. held_items same ≡ items) }
{
    if items.len() > FEW {
        return Ok(Held::Many(Boxed::new(alloc, items)?));
    }
    let mut same = Items::from_vec(Vec::with_capacity(alloc, items.len())?);
    same.append(items)?;
    Ok(Held::Many(Boxed::new(alloc, same)?))
}

/// These items with four more, in a block.
fn block_behind<T: Drop>(
    alloc: Global,
    mut items: Items<T>,
    e: T,
    f: T,
    g: T,
    h: T,
) -> Result<Held<T>, AllocError>
    requires fit { FitsInMemory (Array T.row 8) }
    requires few { length items ≤ 4 }
    ensures { IfOk result (λ same. held_items same ≡ items ++ e ∷ f ∷ g ∷ h ∷ []) }
{
    let Some(d) = items.pop() else {
        return Ok(Held::Four(Boxed::new(alloc, [e, f, g, h])?));
    };
    let Some(c) = items.pop() else {
        return Ok(Held::Five(Boxed::new(alloc, [d, e, f, g, h])?));
    };
    let Some(b) = items.pop() else {
        return Ok(Held::Six(Boxed::new(alloc, [c, d, e, f, g, h])?));
    };
    let Some(a) = items.pop() else {
        return Ok(Held::Seven(Boxed::new(alloc, [b, c, d, e, f, g, h])?));
    };
    Ok(Held::Eight(Boxed::new(alloc, [a, b, c, d, e, f, g, h])?))
}

/// These items, in a block.
fn block<T: Drop>(alloc: Global, mut items: Items<T>) -> Result<Held<T>, AllocError>
    requires fit { FitsInMemory (Array T.row 8) }
    requires few { length items ≤ 8 }
    ensures { IfOk result (λ same. held_items same ≡ items) }
{
    let Some(d) = items.pop() else {
        return Ok(Held::Nothing);
    };
    let Some(c) = items.pop() else {
        return Ok(Held::One(Boxed::new(alloc, [d])?));
    };
    let Some(b) = items.pop() else {
        return Ok(Held::Two(Boxed::new(alloc, [c, d])?));
    };
    let Some(a) = items.pop() else {
        return Ok(Held::Three(Boxed::new(alloc, [b, c, d])?));
    };
    block_behind(alloc, items, a, b, c, d)
}

/// The items that are held.
fn items_of<T>(held: &Held<T>) -> &[T]
    requires { FitsInMemory (Array T.row 8) }
    ensures { result.now ≡ held_items held.now }
{
    match held {
        Held::Nothing => &[],
        Held::One(items) => items.get(),
        Held::Two(items) => items.get(),
        Held::Three(items) => items.get(),
        Held::Four(items) => items.get(),
        Held::Five(items) => items.get(),
        Held::Six(items) => items.get(),
        Held::Seven(items) => items.get(),
        Held::Eight(items) => items.get(),
        Held::Many(items) => items.get().as_slice(),
    }
}

impl<T: Drop + Placed> SmallList<T> {
    /// The same items. An `Err` comes only where memory is wanting.
    pub fn from_items(alloc: Global, items: Items<T>) -> Result<SmallList<T>, AllocError>
        ensures { IfOk result (λ same. same ≡ items) }
    {
        let held = if items.len() <= MOST {
            block(alloc, items)?
        } else {
            many(alloc, items)?
        };
        Ok(SmallList { held })
    }
}

impl<T: Placed> SmallList<T> {
    /// The items.
    pub fn as_slice(&self) -> &[T]
        ensures { result.now ≡ self.now }
    {
        items_of(&self.held)
    }

    /// How many items there are.
    pub fn len(&self) -> usize
        ensures { result ≡ length self.now }
    {
        self.as_slice().len()
    }

    /// Whether there are none.
    pub fn is_empty(&self) -> bool
        ensures { IsTrue result ↔ (self.now ≡ []) }
    {
        self.as_slice().is_empty()
    }
}
