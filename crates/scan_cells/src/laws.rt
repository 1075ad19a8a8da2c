//! Laws of the comparison.
ghost use Rattle.scan_cells.specs.Laws.{SameIsAgreement, DifferencesDiffer, ChangesOnePlace};

/// A law: a cell and its view are answered to be the same exactly where, with the scan enable inactive, all steps of their
/// state groups and all values of their outputs are equal.
pub fn same_is_agreement()
    ensures { SameIsAgreement }
{}

/// A law: the two values of the first difference differ.
pub fn differences_differ()
    ensures { DifferencesDiffer }
{}

/// A law: a point with one place changed differs at this place and at no other.
pub fn changes_one_place()
    ensures { ChangesOnePlace }
{}
