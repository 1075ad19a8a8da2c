//! The values of a function at all points, and the primes of the points at which it has one of them.

ghost use Rattle.std.specs.Prelude.{◌≡◌, ◌^◌, ◌≤◌, Bool, List, map, length, IfOk};
ghost use Rattle.std.specs.Fn.{FnReturnsAt};
ghost use Rattle.trit_cubes.specs.declared.trits.Trit.{Trit};
ghost use Rattle.trit_cubes.specs.Filling.{same};
ghost use Rattle.trit_cubes.specs.Sets.{Gives, AreValuesOf, gives};
ghost use Rattle.trit_cubes.specs.Prime.{prime_list};

use crate::cubes::Cube;
use crate::points::point_of;
use crate::splitting::primes;
use crate::trits::Trit;
use std::alloc::{AllocError, Global};

/// The values of a function at the points of these places: entry k is its value at the point with the number k, in which
/// place i weighs 2 to the power i.
pub fn values_of<F: Fn(&[bool]) -> Trit>(
    alloc: Global,
    places: usize,
    function: &F,
) -> Result<Vec<Trit>, AllocError>
    requires callable { F.IsAlwaysCallable function.now }
    requires few { places ≤ 10 }
    ensures entries { IfOk result (λ values. length values.items ≡ 2 ^ places) }
    ensures values { IfOk result (λ values. (f : List Bool → Trit) → Gives (λ p t. FnReturnsAt F.Fn function.now p t) places f
        → AreValuesOf places f values.items) }
{
    let mut values = Vec::with_capacity(alloc, 1 << places)?;
    for number in 0..1u32 << places {
        let point = point_of(number);
        values.push(function(&point[..places]))?;
    }
    Ok(values)
}

/// The primes over `n` places of the points at which a function with these values has this one, ordered as by `primes`.
pub fn primes_where(
    alloc: Global,
    n: usize,
    values: &[Trit],
    value: Trit,
) -> Result<Vec<Cube>, AllocError>
    requires short { n ≤ 10 }
    requires entries { length values.now ≡ 2 ^ n }
    ensures { IfOk result (λ found. (f : List Bool → Trit) → AreValuesOf n f values.now
        → found.items ≡ prime_list n (gives value f)) }
{
    let set = points_with(alloc, values, value)?;
    let found = primes(alloc, n, &set)?;
    Ok(found)
}

/// Which entries are this value.
fn points_with(alloc: Global, values: &[Trit], value: Trit) -> Result<Vec<bool>, AllocError>
    ensures { IfOk result (λ set. set.items ≡ map (same value) values.now) }
{
    let mut set = Vec::with_capacity(alloc, values.len())?;
    for other in values {
        set.push(value.is(*other))?;
    }
    Ok(set)
}
