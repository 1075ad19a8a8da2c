//! An ordered list of distinct names.
ghost use Rattle.std.specs.Prelude.{◌≡◌, [], ◌∷◌, ◌++◌, ◌<◌, length, slice_get, position, bytes_eq, IfOk, OnErr};
ghost use Rattle.bool_functions.specs.NameList.{number_of, Adds, AreDistinct};

use indexmap::IndexSet;
use std::alloc::{AllocError, Global};
use std::marker::Model;

/// The most names that are compared one by one, which takes less time than a look-up by a hash.
const FEW: usize = 16;

/// Distinct names, numbered from 0 in the order in which they were added. Contracts see the list of their bytes. The
/// list keeps its allocator.
#[derive(Drop)]
pub struct Names {
    alloc: Global,
    set: IndexSet<Vec<u8>>,
}

impl Model for Names {
    ghost use Rattle.std.specs.Prelude.{List, ℕ, map};
    ghost use Rattle.bool_functions.specs.NameBytes.{bytes_of};
    ghost use Rattle.bool_functions.specs.NameList.{AreDistinct};

    ghost Value = { List (List ℕ) };

    ghost view = { λ n. map bytes_of n.set.keys };

    ghost invariant = { λ n. AreDistinct (map bytes_of n.set.keys) };
}

impl Names {
    /// The list without names. Takes no memory.
    pub fn new(alloc: Global) -> Names
        ensures { result ≡ [] }
    {
        Names {
            alloc,
            set: IndexSet::new(alloc),
        }
    }

    /// How many names there are, no two of which are equal.
    pub fn len(&self) -> usize
        ensures len { result ≡ length self.now }
        ensures distinct { AreDistinct self.now }
    {
        self.set.len()
    }

    /// The name with the number `i`, which needs to be below `len`.
    pub fn name(&self, i: usize) -> &[u8]
        requires { i < length self.now }
        ensures { slice_get self.now i ≡ Some result.now }
    {
        let name = &self.set[i];
        name.as_slice()
    }

    /// The number of a name, and nothing where it is not in the list.
    pub fn number(&self, name: &[u8]) -> Option<usize>
        ensures { result ≡ number_of self.now name.now }
    {
        let names = self.set.as_slice();
        if names.len() <= FEW {
            return compared(names, name);
        }
        self.set.get_index_of(name)
    }

    /// Adds a name at the end and answers its number, which is the length before. Nothing is answered exactly where
    /// the name is in the list already. Then, and where memory is wanting, the list is as before.
    pub fn add(&mut self, name: &[u8]) -> Result<Option<usize>, AllocError>
        ensures added { IfOk result (λ number. Adds self.old name.now number self.new) }
        ensures err { OnErr result (self.new ≡ self.old) }
        ensures distinct { AreDistinct self.new }
    {
        let number = self.set.len();
        let kept = Vec::from_slice(self.alloc, name)?;
        let is_new = self.set.insert(kept)?;
        if is_new {
            return Ok(Some(number));
        }
        Ok(None)
    }
}

/// The place of a name among kept ones, which are compared one by one.
fn compared(names: &[Vec<u8>], name: &[u8]) -> Option<usize>
    ensures { result ≡ position (λ kept. bytes_eq name.now kept.items) names.now }
{
    names.iter().position(|kept| name == kept.as_slice())
}
