//! The items of a library.

ghost use Rattle.std.specs.Prelude.{◌≡◌};
ghost use Rattle.std.specs.Option.{option_to_list};
ghost use Rattle.cell_cursor.specs.Items.{named_item, given};

use liberty_groups::{End, Group, Item, UnitLine, one_text};

/// What is read of a library: an item.
#[derive(Drop)]
pub enum LibraryItem {
    /// A group `cell`.
    Cell(Group),
    /// A simple attribute `time_unit`.
    Unit(UnitLine),
    /// A statement `include_file` of any form, at this offset: it names another file, which is not read.
    LeftOut(usize),
    /// A group `type`.
    BusType(Group),
}

/// What comes next in a library.
#[derive(Drop)]
pub enum Next {
    /// An item.
    Item(LibraryItem),
    /// How the library ends, of which all items were given: `Cut` where it has more bytes than the limit, and some library text
    /// begins with so many of them.
    Ended(End),
}

/// The item that a statement of this name is, which is neither cell nor type nor time unit.
fn named_item(name: &[u8], at: usize) -> Option<LibraryItem>
    ensures { option_to_list result ≡ named_item name.now at }
{
    if name == b"include_file".as_slice() {
        Some(LibraryItem::LeftOut(at))
    } else {
        None
    }
}

/// The item that a group of the library is.
#[tactic(auto, unfolding(crate::specs::Items::given))]
fn group_item(group: Group) -> Option<LibraryItem>
    ensures { option_to_list result ≡ given (Item.Inner group) }
{
    if group.name.as_slice() == b"cell".as_slice() {
        return Some(LibraryItem::Cell(group));
    }
    if group.name.as_slice() == b"type".as_slice() {
        return Some(LibraryItem::BusType(group));
    }
    named_item(group.name.as_slice(), group.at)
}

/// The item that a statement of the library is, where it is one.
#[tactic(auto, unfolding(crate::specs::Items::given))]
pub(crate) fn item_of(statement: Item) -> Option<LibraryItem>
    ensures { option_to_list result ≡ given statement }
{
    match statement {
        Item::Simple { name, value, at } => {
            if name.as_slice() == b"time_unit".as_slice() {
                let value = one_text(value);
                Some(LibraryItem::Unit(UnitLine { value, at }))
            } else {
                named_item(name.as_slice(), at)
            }
        }
        Item::Complex { name, at, .. } => named_item(name.as_slice(), at),
        Item::Inner(group) => group_item(group),
    }
}
