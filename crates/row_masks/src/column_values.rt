//! The values of the columns of a table, wherever they come from.
ghost use Rattle.std.specs.Prelude.{◌≡◌, ◌≤◌, ◌<◌, List, Some, length, slice_get, take};
ghost use Rattle.trit_cubes.specs.declared.trits.Trit.{Trit as TritOf};

use sqlite_items::Items;
use trit_cubes::Trit;

/// A change of a value, or a value that stays.
#[derive(Clone, Copy)]
pub struct ValueChange {
    /// The value before the change.
    pub old: Trit,
    /// The value after it.
    pub new: Trit,
}

/// The values of the columns of a table before a change and after it.
pub trait ColumnValues {
    /// The values before the change.
    ghost olds: { Self → List TritOf };

    /// The values after it.
    ghost news: { Self → List TritOf };

    /// The values of the column with this number.
    fn change(&self, place: usize) -> ValueChange
        requires olds { place < length (olds self.now) }
        requires news { place < length (news self.now) }
        ensures old { slice_get (olds self.now) place ≡ Some result.old }
        ensures new { slice_get (news self.now) place ≡ Some result.new };
}

/// Writes the values of so many columns after the change to the front of the room.
pub fn write_news<C: ColumnValues>(values: &C, columns: usize, room: &mut Items<Trit>)
    requires olds { length (C.olds values.now) ≡ columns }
    requires news { length (C.news values.now) ≡ columns }
    requires room { columns ≤ length room.old }
    ensures front { take columns room.new ≡ C.news values.now }
    ensures len { length room.new ≡ length room.old }
{
    for place in 0..columns {
        room.set(place, values.change(place).new);
    }
}
