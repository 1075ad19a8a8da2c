//! A list that is written where it has a place.
ghost use Rattle.std.specs.Prelude.{◌≡◌, slice_set};

use sqlite_items::Items;

/// Sets the entry with this number, where there is one.
pub fn put<T: Drop>(all: &mut Items<T>, number: usize, entry: T)
    ensures { all.new ≡ slice_set all.old number entry }
{
    if number < all.len() {
        all.set(number, entry);
    }
}
