//! Lists that have numbers, as they are filled.
ghost use Rattle.std.specs.Prelude.{◌≡◌, ℕ, List, [], ◌∷◌, ◌++◌, length, cond, nat_eq, IfOk, OnOk};
ghost use Rattle.run_parts.specs.NumberedLists.{AreLists};

use sqlite_items::Items;
use std::alloc::{AllocError, Global};

/// So many lists without an entry.
pub fn empty_lists<T: Drop>(alloc: Global, count: usize) -> Result<Vec<Items<T>>, AllocError>
    ensures lists { IfOk result (λ all. AreLists (λ _. []) all.items) }
    ensures len { IfOk result (λ all. length all.items ≡ count) }
{
    let mut all = Vec::new(alloc);
    for _ in 0..count {
        all.push(Items::new(alloc))?;
    }
    Ok(all)
}

/// Adds an entry to the list with this number, where there is one.
pub fn add<T: Drop>(all: &mut Vec<Items<T>>, number: usize, entry: T) -> Result<(), AllocError>
    ensures lists { OnOk result ((lists : ℕ → List T) → AreLists lists all.old.items
        → AreLists (λ n. lists n ++ cond (nat_eq number n) (entry ∷ []) []) all.new.items) }
    ensures len { OnOk result (length all.new.items ≡ length all.old.items) }
{
    if number < all.len() {
        all[number].push(entry)?;
    }
    Ok(())
}
