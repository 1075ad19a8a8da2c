//! Why the group of a cell is not expanded.

/// A reason not to expand the group of a cell. Of both the first is answered.
#[derive(Clone, Copy, Debug)]
pub enum BankReason {
    /// A bus has no type of at most 64 positions before the cell, a bundle has no members, or a bank has not three arguments of
    /// which the third is a number from 1 to 16.
    Bank,
    /// A bus, a bundle or a variable of a bank is named where it has no bit.
    Width,
}

/// Why the group of a cell is not expanded, and the least offset at which that is met.
#[derive(Clone, Copy, Debug)]
pub struct BankRefusal {
    pub reason: BankReason,
    /// The offset of the first byte of the group or statement that meets it.
    pub at: usize,
}
