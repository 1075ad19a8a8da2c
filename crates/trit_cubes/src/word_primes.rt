//! The primes of a set of points over at most six places, as a word: the upper half of its bits has the points with 1 at the
//! first place.

ghost use Rattle.std.specs.Prelude.{◌≡◌, ◌+◌, ◌*◌, ◌^◌, ◌<◌, ◌≤◌, suc, ℕ, Bool, List, ◌++◌, ◌∷◌, [], false, nat_eq, bit_and, map};
ghost use Rattle.std.specs.Prelude.{take, length, slice_index_or, IfOk, OnOk};
ghost use Rattle.std.specs.List.{list_any};
ghost use Rattle.trit_cubes.specs.Filling.{number};
ghost use Rattle.trit_cubes.specs.Sets.{has};
ghost use Rattle.trit_cubes.specs.Prime.{prime_list};
ghost use Rattle.trit_cubes.specs.InWords.{in_word, word_part, primes_outside};

use crate::cubes::Cube;
use crate::trits::Trit;
use std::alloc::{AllocError, Global};

/// The most places of a set in a word.
const MOST: usize = 6;

/// For how many primes there is room from the start.
const USUAL: usize = 12;

/// As `primes`, over at most six places.
pub(crate) fn primes_by_word(alloc: Global, n: usize, set: &[bool]) -> Result<Vec<Cube>, AllocError>
    requires short { n ≤ 6 }
    requires entries { length set.now ≡ 2 ^ n }
    ensures { IfOk result (λ found. found.items ≡ prime_list n (has set.now)) }
{
    let word = packed(set, 0, 1, n);
    let mut found = Vec::with_capacity(alloc, USUAL)?;
    add_primes(&mut found, Cube::empty(), n, word, &[])?;
    Ok(found)
}

/// The word of the points whose last `left` places follow the first ones, which have the number `start`, where the first of
/// those that follow weighs `step` in the table.
fn packed(set: &[bool], start: usize, step: usize, left: usize) -> u64
    requires few { left ≤ 6 }
    requires entries { length set.now ≡ step * 2 ^ left }
    requires start { start < step }
    ensures below { result < 2 ^ 2 ^ left }
    ensures values { (p : List Bool) → length p ≡ left
        → in_word left result p ≡ slice_index_or set.now (start + step * number p) false }
{
    if left == 0 {
        return u64::from(set[start]);
    }
    if left == 1 {
        return packed_pair(set, start, step);
    }
    let half = 1u32 << (left - 1);
    let zero = packed(set, start, 2 * step, left - 1);
    let one = packed(set, start + step, 2 * step, left - 1);
    zero + (one << half)
}

/// The same where one place follows the first ones.
fn packed_pair(set: &[bool], start: usize, step: usize) -> u64
    requires entries { length set.now ≡ step * 2 }
    requires start { start < step }
    ensures below { result < 4 }
    ensures values { (p : List Bool) → length p ≡ 1
        → in_word 1 result p ≡ slice_index_or set.now (start + step * number p) false }
{
    let zero = u64::from(set[start]);
    let one = u64::from(set[start + step]);
    zero + 2 * one
}

/// Adds the primes that are inside none of the other sets, behind the places in front of them.
fn add_primes(
    found: &mut Vec<Cube>,
    front: Cube,
    left: usize,
    set: u64,
    others: &[u64],
) -> Result<(), AllocError>
    requires few { left + length others.now ≤ 6 }
    requires front { length front + left ≤ 10 }
    requires below { set < 2 ^ 2 ^ left }
    ensures { OnOk result (found.new.items ≡ found.old.items
        ++ map (λ cube. front ++ cube) (primes_outside left set others.now)) }
{
    if set == 0 {
        return Ok(());
    }
    if is_in_one(set, others) {
        return Ok(());
    }
    if left == 0 {
        found.push(front)?;
        return Ok(());
    }
    let places = left - 1;
    let count = others.len();
    let both = part(places, Trit::Unknown, set);
    let zero = part(places, Trit::Zero, set);
    if zero != both {
        let zeros = &parts_and(places, Trit::Zero, others, both)[..count + 1];
        add_primes(found, front.before(Trit::Zero), places, zero, zeros)?;
    }
    let one = part(places, Trit::One, set);
    if one != both {
        let ones = &parts_and(places, Trit::One, others, both)[..count + 1];
        add_primes(found, front.before(Trit::One), places, one, ones)?;
    }
    let frees = &parts_and(places, Trit::Unknown, others, both)[..count];
    add_primes(found, front.before(Trit::Unknown), places, both, frees)?;
    Ok(())
}

/// The points over `places` places that are in the set whatever the place in front of them has of the values of `first`.
fn part(places: usize, first: Trit, set: u64) -> u64
    requires { places < 6 }
    ensures { result ≡ word_part places first set }
{
    let half = 1u32 << places;
    let zero = set % (1 << half);
    let one = set >> half;
    match first {
        Trit::Zero => zero,
        Trit::One => one,
        Trit::Unknown => zero & one,
    }
}

/// The parts of all these sets, and one more set.
fn parts_and(places: usize, first: Trit, sets: &[u64], more: u64) -> [u64; MOST]
    requires places { places < 6 }
    requires few { length sets.now < 6 }
    ensures all { take (length sets.now + 1) result ≡ map (word_part places first) sets.now ++ more ∷ [] }
    ensures front { take (length sets.now) result ≡ map (word_part places first) sets.now }
    ensures long { length result ≡ 6 }
{
    let mut parts = [0; MOST];
    for i in 0..sets.len() {
        parts[i] = part(places, first, sets[i]);
    }
    parts[sets.len()] = more;
    parts
}

/// Whether one of the other sets has all points of the set.
fn is_in_one(set: u64, others: &[u64]) -> bool
    ensures { result ≡ list_any (λ other. nat_eq (bit_and set other) set) others.now }
{
    others.iter().any(|other| set & *other == set)
}
