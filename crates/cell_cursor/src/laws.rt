//! Laws of the items: functions that do nothing, whose `ensures` holds of every list of bytes.

ghost use Rattle.cell_cursor.specs.Items.{items_of_bytes, ItemsAreFound, Ascend};

/// The items of a library in order are those that a reading of it finds: its cells, its time units, the places of its
/// statements that name other files, and its types.
pub fn items_are_found(bytes: &[u8])
    ensures { ItemsAreFound bytes.now }
{}

/// The items of a library stand in the order of their offsets.
pub fn items_ascend(bytes: &[u8])
    ensures { Ascend 0 (items_of_bytes bytes.now) }
{}
