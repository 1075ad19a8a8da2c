//! Entries of lists.
ghost use Rattle.std.specs.Prelude.{◌≡◌, ◌<◌, length, replicate, slice_get, slice_index_or, IfOk, Some};

use sqlite_items::Items;
use std::alloc::{AllocError, Global};

/// The entry with this number.
pub fn entry<T>(entries: &Items<T>, i: usize) -> &T
    requires { i < length entries.now }
    ensures is { slice_get entries.now i ≡ Some result.now }
    ensures at { slice_index_or entries.now i result.now ≡ result.now }
{
    &entries.as_slice()[i]
}

/// So many entries that are all this value. `AllocError` comes only where memory is wanting.
pub(crate) fn repeated<T: Copy>(
    alloc: Global,
    value: T,
    count: usize,
) -> Result<Items<T>, AllocError>
    ensures { IfOk result (λ entries. entries ≡ replicate count value) }
{
    let mut entries = Items::new(alloc);
    for _ in 0..count {
        entries.push(value)?;
    }
    Ok(entries)
}
