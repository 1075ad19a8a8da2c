//! The primes of a set from those of its two halves.

ghost use Rattle.std.specs.Prelude.{◌≡◌, ℕ, ◌+◌, ◌<◌, Bool, List, ◌∷◌, ◌++◌, map, length, All, IfOk, OnOk};
ghost use Rattle.trit_cubes.specs.declared.trits.Trit.{Trit};
ghost use Rattle.trit_cubes.specs.Sets.{joined};
ghost use Rattle.trit_cubes.specs.Prime.{prime_list, any_covers, uncovered, merged, AreHalves};

use crate::covering::covers;
use crate::cubes::Cube;
use crate::trits::Trit;
use std::alloc::{AllocError, Global};

/// From the primes of two sets of points of n places, and of the points in both, the primes of the set of one more place in
/// front whose points with 0 there are the first set and with 1 the second.
pub fn merge_primes(
    alloc: Global,
    zero: &[Cube],
    one: &[Cube],
    both: &[Cube],
) -> Result<Vec<Cube>, AllocError>
    requires { (n : ℕ) × (f : List Bool → Bool) × (g : List Bool → Bool) × (n < 10) × AreHalves n f g zero.now one.now both.now }
    ensures { IfOk result (λ found. (n : ℕ) (f g : List Bool → Bool) → AreHalves n f g zero.now one.now both.now
        → found.items ≡ prime_list (n + 1) (joined f g)) }
{
    let found = merge(alloc, zero, one, both)?;
    Ok(found)
}

/// The lists merged, of cubes that leave room for one more place.
pub(crate) fn merge(
    alloc: Global,
    zero: &[Cube],
    one: &[Cube],
    both: &[Cube],
) -> Result<Vec<Cube>, AllocError>
    requires zero_short { All (λ cube. length cube < 10) zero.now }
    requires one_short { All (λ cube. length cube < 10) one.now }
    requires both_short { All (λ cube. length cube < 10) both.now }
    ensures { IfOk result (λ found. found.items ≡ merged zero.now one.now both.now) }
{
    let mut found = Vec::new(alloc);
    add_uncovered(&mut found, Trit::Zero, zero, both)?;
    add_uncovered(&mut found, Trit::One, one, both)?;
    add_all(&mut found, Trit::Unknown, both)?;
    Ok(found)
}

/// Adds the cubes with one more place in front.
pub(crate) fn add_all(found: &mut Vec<Cube>, first: Trit, cubes: &[Cube]) -> Result<(), AllocError>
    requires { All (λ cube. length cube < 10) cubes.now }
    ensures { OnOk result (found.new.items ≡ found.old.items ++ map (λ cube. first ∷ cube) cubes.now) }
{
    for cube in cubes {
        found.push(cube.after(first))?;
    }
    Ok(())
}

/// Adds the cubes that no cube of the cover covers, with one more place in front.
fn add_uncovered(
    found: &mut Vec<Cube>,
    first: Trit,
    cubes: &[Cube],
    cover: &[Cube],
) -> Result<(), AllocError>
    requires { All (λ cube. length cube < 10) cubes.now }
    ensures { OnOk result (found.new.items ≡ found.old.items ++ map (λ cube. first ∷ cube) (uncovered cover.now cubes.now)) }
{
    for cube in cubes {
        if !is_covered(cover, cube) {
            found.push(cube.after(first))?;
        }
    }
    Ok(())
}

/// Whether one of the cubes covers this one.
fn is_covered(cover: &[Cube], cube: &Cube) -> bool
    ensures { result ≡ any_covers cover.now cube.now }
{
    cover.iter().any(|wide| covers(wide, cube))
}
