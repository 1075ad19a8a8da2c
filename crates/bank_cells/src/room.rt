//! Lists that are made with room for what comes into them, so that they take no more memory than that.
ghost use Rattle.std.specs.Prelude.{◌≡◌, [], IfOk};

use sqlite_items::Items;
use std::alloc::{AllocError, Global};

/// An empty list with room for so many.
pub(crate) fn with_room<T: Drop>(alloc: Global, count: usize) -> Result<Items<T>, AllocError>
    ensures { IfOk result (λ items. items ≡ []) }
{
    Ok(Items::from_vec(Vec::with_capacity(alloc, count)?))
}
