//! The primes of a set by splitting it at its first place.

ghost use Rattle.std.specs.Prelude.{◌≡◌, ℕ, ◌+◌, ◌*◌, ◌/◌, ◌^◌, ◌<◌, ◌≤◌, Bool, true, false, List, ◌∷◌, ◌&&◌, length};
ghost use Rattle.std.specs.Prelude.{slice_index_or, IfOk, IfSome, IsNone, vec_len};
ghost use Rattle.trit_cubes.specs.Sets.{has, common};
ghost use Rattle.trit_cubes.specs.Prime.{prime_list};

use crate::cubes::Cube;
use crate::merging::merge;
use crate::word_primes::primes_by_word;
use std::alloc::{AllocError, Global};

/// The primes over `n` places of the set that the table tells, ordered place by place with 0 before 1 before free. Entry k
/// of the table says whether the point with the number k is in the set, place i weighing 2 to the power i.
pub fn primes(alloc: Global, n: usize, set: &[bool]) -> Result<Vec<Cube>, AllocError>
    requires short { n ≤ 10 }
    requires entries { length set.now ≡ 2 ^ n }
    ensures { IfOk result (λ found. found.items ≡ prime_list n (has set.now)) }
{
    if n <= 6 {
        let few = primes_by_word(alloc, n, set)?;
        return Ok(few);
    }
    if let Some(all) = common_entry(set) {
        return of_all_or_none(alloc, n, all);
    }
    let zero_half = half(alloc, set, false)?;
    let one_half = half(alloc, set, true)?;
    if is_same(&zero_half, &one_half) {
        let free = primes(alloc, n - 1, &zero_half)?;
        let found = merge(alloc, &[], &[], &free)?;
        return Ok(found);
    }
    let both_halves = common(alloc, &zero_half, &one_half)?;
    let zero = primes(alloc, n - 1, &zero_half)?;
    let one = primes(alloc, n - 1, &one_half)?;
    let both = primes(alloc, n - 1, &both_halves)?;
    let found = merge(alloc, &zero, &one, &both)?;
    Ok(found)
}

/// The value that all entries of a table have, if they have one.
fn common_entry(set: &[bool]) -> Option<bool>
    requires { 0 < length set.now }
    ensures some { IfSome result (λ all. (k : ℕ) → k < length set.now → slice_index_or set.now k false ≡ all) }
    ensures none { IsNone result → 1 < length set.now }
{
    let first = set[0];
    if set.iter().all(|entry| *entry == first) {
        Some(first)
    } else {
        None
    }
}

/// The primes of the set of all points, or of the empty set.
fn of_all_or_none(alloc: Global, n: usize, all: bool) -> Result<Vec<Cube>, AllocError>
    requires { n ≤ 10 }
    ensures { IfOk result (λ found. found.items ≡ prime_list n (λ _. all)) }
{
    let mut found = Vec::new(alloc);
    if !all {
        return Ok(found);
    }
    found.push(Cube::free(n))?;
    Ok(found)
}

/// The points with this value at place 0, without that place.
fn half(alloc: Global, set: &[bool], first: bool) -> Result<Vec<bool>, AllocError>
    ensures entries { IfOk result (λ points. vec_len points ≡ length set.now / 2) }
    ensures values { IfOk result (λ points. (p : List Bool) → 2 * vec_len points ≡ length set.now
        → has points.items p ≡ has set.now (first ∷ p)) }
{
    let offset = usize::from(first);
    let mut points = Vec::with_capacity(alloc, set.len() / 2)?;
    for k in 0..set.len() / 2 {
        points.push(set[2 * k + offset])?;
    }
    Ok(points)
}

/// Whether two tables are the same.
fn is_same(one: &[bool], other: &[bool]) -> bool
    ensures { result ≡ true → one.now ≡ other.now }
{
    *one == *other
}

/// The points in both sets.
fn common(alloc: Global, one: &[bool], other: &[bool]) -> Result<Vec<bool>, AllocError>
    requires { length one.now ≡ length other.now }
    ensures entries { IfOk result (λ points. vec_len points ≡ length one.now) }
    ensures values { IfOk result (λ points. (p : List Bool) → has points.items p ≡ common (has one.now) (has other.now) p) }
{
    let mut points = Vec::with_capacity(alloc, one.len())?;
    for k in 0..one.len() {
        points.push(one[k] && other[k])?;
    }
    Ok(points)
}
