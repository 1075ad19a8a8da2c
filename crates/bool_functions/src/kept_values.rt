//! The values of a function at all points, kept so that a long tree is walked for them once.
ghost use Rattle.std.specs.Prelude.{◌≡◌, ◌≤◌, ◌<◌, ◌^◌, ◌↔◌, IsTrue, false, length, slice_index_or, IfOk};
ghost use Rattle.bool_functions.specs.declared.tree.Node.{Node};
ghost use Rattle.bool_functions.specs.Tree.{value_of};
ghost use Rattle.bool_functions.specs.Point.{number, bits_at, HasValues};
ghost use Rattle.bool_functions.specs.Kept.{AreOfTree};

use crate::ascending::support;
use crate::blocks::table;
use crate::tree::Node;
use std::alloc::{AllocError, Global};

/// The most names of a function whose values are kept.
const MOST_NAMES: usize = 10;

/// Some names, and a value for each point over them, at the point's number.
#[derive(Drop)]
pub(crate) struct KeptValues {
    /// The numbers of the names.
    pub names: Vec<usize>,
    /// The values.
    pub values: Vec<bool>,
}

impl KeptValues {
    /// The values of a tree, where it names few names.
    pub(crate) fn of(alloc: Global, node: &Node) -> Result<Option<KeptValues>, AllocError>
        ensures { IfOk result (AreOfTree node.now) }
    {
        let names = support(node, alloc)?;
        if names.len() > MOST_NAMES {
            return Ok(None);
        }
        let values = table(node, alloc, &names)?;
        Ok(Some(KeptValues { names, values }))
    }

    /// Whether these are the names.
    pub(crate) fn are_over(&self, places: &[usize]) -> bool
        ensures { IsTrue result ↔ (self.now.names.items ≡ places.now) }
    {
        self.names.as_slice() == places
    }

    /// The same names and values in lists of their own.
    fn copied(&self, alloc: Global) -> Result<KeptValues, AllocError>
        ensures names { IfOk result (λ k. k.names.items ≡ self.now.names.items) }
        ensures values { IfOk result (λ k. k.values.items ≡ self.now.values.items) }
    {
        let names = Vec::from_slice(alloc, self.names.as_slice())?;
        let values = Vec::from_slice(alloc, self.values.as_slice())?;
        Ok(KeptValues { names, values })
    }

    /// The values in a list of their own.
    pub(crate) fn list(&self, alloc: Global) -> Result<Vec<bool>, AllocError>
        ensures { IfOk result (λ v. v.items ≡ self.now.values.items) }
    {
        Ok(Vec::from_slice(alloc, self.values.as_slice())?)
    }

    /// The value where `bits[i]` is the value of the name `i`.
    pub(crate) fn at(&self, bits: &[bool]) -> bool
        requires { length self.now.names.items ≤ 10 }
        ensures { (f : Node) → HasValues self.now.names.items f self.now.values.items → result ≡ value_of bits.now f }
    {
        match self.values.get(point_number(&self.names, bits)) {
            Some(value) => *value,
            None => false,
        }
    }
}

/// Kept values in lists of their own, where there are any.
pub(crate) fn copied(
    kept: &Option<KeptValues>,
    alloc: Global,
) -> Result<Option<KeptValues>, AllocError>
    ensures { (f : Node) → AreOfTree f kept.now → IfOk result (AreOfTree f) }
{
    match kept {
        Some(kept) => Ok(Some(kept.copied(alloc)?)),
        None => Ok(None),
    }
}

/// The value of a name, 0 where there is no such name.
pub(crate) fn bit_at(bits: &[bool], name: usize) -> bool
    ensures { result ≡ slice_index_or bits.now name false }
{
    match bits.get(name) {
        Some(bit) => *bit,
        None => false,
    }
}

/// The number of the point that the values of all names make at these names.
fn point_number(names: &[usize], bits: &[bool]) -> usize
    requires { length names.now ≤ 10 }
    ensures number { result ≡ number (bits_at names.now bits.now) }
    ensures small { result < 2 ^ length names.now }
{
    let Some((first, rest)) = names.split_first() else {
        return 0;
    };
    let back = point_number(rest, bits);
    if bit_at(bits, *first) {
        2 * back + 1
    } else {
        2 * back
    }
}
