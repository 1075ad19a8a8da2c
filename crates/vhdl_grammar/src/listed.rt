//! Numbers in the order in which they were listed, of which each is found at once.

ghost use Rattle.std.specs.Prelude.{◌≡◌, [], ◌∷◌, ◌++◌, false, nat_eq, take, drop, IfOk};
ghost use Rattle.std.specs.List.{list_any};

use indexmap::IndexSet;
use sqlite_items::Items;
use std::alloc::{AllocError, Global};
use std::marker::Model;

/// How many things of a list are compared one by one.
pub(crate) const NEAR: usize = 16;

/// Numbers in the order in which they were listed. Contracts see the list of them. The first of them are compared one by one,
/// which takes no memory; those behind them stand in a set too.
#[derive(Drop)]
pub struct Listed {
    numbers: Items<usize>,
    far: IndexSet<usize>,
}

impl Model for Listed {
    ghost use Rattle.std.specs.Prelude.{◌≡◌, ℕ, List, drop};

    ghost Value = { List ℕ };

    ghost view = { λ l. l.numbers };

    ghost invariant = { λ l. l.far.keys ≡ drop 16 l.numbers };
}

/// Whether a number is one of these.
fn is_listed(numbers: &[usize], number: usize) -> bool
    ensures { result ≡ list_any (nat_eq number) numbers.now }
{
    for other in numbers {
        if number == *other {
            return true;
        }
    }
    false
}

/// The first things of a list, which are compared one by one.
#[tactic(auto, using(grammar_reader::proofs::Places::take_all))]
pub(crate) fn near<T>(things: &[T]) -> &[T]
    ensures { result.now ≡ take 16 things.now }
{
    if things.len() <= NEAR {
        things
    } else {
        &things[..NEAR]
    }
}

/// The set beside a list of numbers, where one more comes behind them, which is none of them. An `Err` comes only where memory is
/// wanting.
#[tactic(auto, using(grammar_reader::proofs::Places::none_behind, grammar_reader::proofs::Places::drop_near, grammar_reader::proofs::Places::drop_far))]
fn far_with(
    mut far: IndexSet<usize>,
    numbers: &[usize],
    number: usize,
) -> Result<IndexSet<usize>, AllocError>
    requires kept { far.keys ≡ drop 16 numbers.now }
    requires fresh { list_any (nat_eq number) numbers.now ≡ false }
    ensures { IfOk result (λ more. more.keys ≡ drop 16 (numbers.now ++ number ∷ [])) }
{
    if numbers.len() < NEAR {
        return Ok(far);
    }
    far.insert(number)?;
    Ok(far)
}

impl Listed {
    ghost use Rattle.std.specs.Prelude.{◌≡◌, ◌<◌, ◌^◌, [], ◌∷◌, ◌++◌, false, nat_eq, length, IfOk};
    ghost use Rattle.std.specs.List.{list_any};

    /// No numbers. Takes no memory.
    pub fn new(alloc: Global) -> Listed
        ensures { result ≡ [] }
    {
        Listed {
            numbers: Items::new(alloc),
            far: IndexSet::new(alloc),
        }
    }

    /// How many numbers there are.
    pub fn len(&self) -> usize
        ensures value { result ≡ length self.now }
        ensures fits { result < 2 ^ 63 }
    {
        self.numbers.as_slice().len()
    }

    /// Whether a number is one of these, in the time of one look-up.
    pub fn has(&self, number: usize) -> bool
        ensures { result ≡ list_any (nat_eq number) self.now }
    {
        is_listed(near(self.numbers.as_slice()), number) || self.far.contains(&number)
    }

    /// These numbers, and one more behind them, which is none of them. An `Err` comes only where memory is wanting.
    pub fn with(self, number: usize) -> Result<Listed, AllocError>
        requires { list_any (nat_eq number) self ≡ false }
        ensures { IfOk result (λ more. more ≡ self ++ number ∷ []) }
    {
        let Listed { mut numbers, far } = self;
        let far = far_with(far, numbers.as_slice(), number)?;
        numbers.push(number)?;
        Ok(Listed { numbers, far })
    }

    /// The list of these numbers, alone.
    pub fn into_items(self) -> Items<usize>
        ensures { result ≡ self }
    {
        let Listed { numbers, .. } = self;
        numbers
    }
}
