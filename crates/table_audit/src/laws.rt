//! Theorems on the definitions, for the proofs of other crates. The functions do nothing.

ghost use Rattle.table_audit.specs.Laws.{SameIsMatching};

/// The verdict is `Same` exactly where the module matches the cell.
pub fn same_is_matching()
    ensures { SameIsMatching }
{}
