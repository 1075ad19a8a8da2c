//! The primes by the way that their definition says: each list of trits is tried against the set.
ghost use Rattle.std.specs.Prelude.{◌≡◌, ◌^◌, ◌<◌, ◌≤◌, ◌||◌, not, false, length, take, slice_get, slice_set, slice_index_or};
ghost use Rattle.std.specs.Prelude.{IfOk};
ghost use Rattle.trit_cubes.specs.declared.trits.Trit.TheVariants.{Unknown, One};
ghost use Rattle.trit_cubes.specs.Filling.{is_unknown, same, trit_of};
ghost use Rattle.trit_cubes.specs.Resolution.{res};
ghost use Rattle.trit_cubes.specs.Sets.{has};
ghost use Rattle.trit_cubes.specs.Prime.{is_inside, is_prime, cubes_of, prime_list};

use crate::cubes::Cube;
use crate::merging::add_all;
use crate::resolution::resolve;
use crate::trits::Trit;
use std::alloc::{AllocError, Global};

/// As `primes`.
pub fn primes_by_trying(alloc: Global, n: usize, set: &[bool]) -> Result<Vec<Cube>, AllocError>
    requires short { n ≤ 10 }
    requires entries { length set.now ≡ 2 ^ n }
    ensures { IfOk result (λ found. found.items ≡ prime_list n (has set.now)) }
{
    let cubes = all_cubes(alloc, n)?;
    let mut found = Vec::new(alloc);
    for cube in cubes.as_slice() {
        if is_prime(cube, set) {
            found.push(*cube)?;
        }
    }
    Ok(found)
}

/// All lists of n trits, in order.
fn all_cubes(alloc: Global, n: usize) -> Result<Vec<Cube>, AllocError>
    requires { n ≤ 10 }
    ensures { IfOk result (λ cubes. cubes.items ≡ cubes_of n) }
{
    let mut cubes = Vec::new(alloc);
    if n == 0 {
        cubes.push(Cube::empty())?;
        return Ok(cubes);
    }
    let shorter = all_cubes(alloc, n - 1)?;
    add_all(&mut cubes, Trit::Zero, &shorter)?;
    add_all(&mut cubes, Trit::One, &shorter)?;
    add_all(&mut cubes, Trit::Unknown, &shorter)?;
    Ok(cubes)
}

/// Whether the cube is a prime of the set.
fn is_prime(cube: &Cube, set: &[bool]) -> bool
    ensures { result ≡ is_prime (has set.now) cube.now }
{
    if !is_inside(cube, set) {
        return false;
    }
    for i in 0..cube.len() {
        if !stays_fixed(cube, i, set) {
            return false;
        }
    }
    true
}

/// Whether the place is free, or leads out of the set where it is freed.
fn stays_fixed(cube: &Cube, i: usize, set: &[bool]) -> bool
    requires { i < length cube.now }
    ensures { result ≡ (is_unknown (slice_index_or cube.now i Unknown)
        || not (is_inside (has set.now) (slice_set cube.now i Unknown))) }
{
    cube.place(i).is_unknown() || !is_inside(&freed(cube, i), set)
}

/// The cube with one place free.
fn freed(cube: &Cube, i: usize) -> Cube
    requires { i < length cube.now }
    ensures { result ≡ slice_set cube.now i Unknown }
{
    let mut freed = Cube::empty();
    let mut left = cube.len();
    while left > 0 {
        left -= 1;
        freed = freed.after(freed_place(cube, i, left));
    }
    freed
}

/// The place `at` of the cube with place `i` free.
fn freed_place(cube: &Cube, i: usize, at: usize) -> Trit
    requires { at < length cube.now }
    ensures { slice_get (slice_set cube.now i Unknown) at ≡ Some result }
{
    if at == i {
        Trit::Unknown
    } else {
        cube.place(at)
    }
}

/// Whether all points of the cube are in the set.
fn is_inside(cube: &Cube, set: &[bool]) -> bool
    ensures { result ≡ is_inside (has set.now) cube.now }
{
    let places = places_of(cube);
    is_one(resolved(&places[..cube.len()], set))
}

/// The resolution of being in the set.
fn resolved(places: &[Trit], set: &[bool]) -> Trit
    requires { length places.now ≤ 10 }
    ensures { result ≡ res (λ p. trit_of (has set.now p)) places.now }
{
    resolve(places, &|point: u16| member(set, point))
}

/// The places of the cube, with free ones behind them.
fn places_of(cube: &Cube) -> [Trit; 10]
    ensures { take (length cube.now) result ≡ cube.now }
{
    let mut places = [Trit::Unknown; 10];
    for i in 0..cube.len() {
        places[i] = cube.place(i);
    }
    places
}

/// Whether the trit is 1.
fn is_one(trit: Trit) -> bool
    ensures { result ≡ same One trit }
{
    match trit {
        Trit::One => true,
        _ => false,
    }
}

/// Whether the point is in the set, as a trit.
fn member(set: &[bool], point: u16) -> Trit
    ensures { result ≡ trit_of (slice_index_or set.now point false) }
{
    match set.get(usize::from(point)) {
        Some(true) => Trit::One,
        _ => Trit::Zero,
    }
}
