//! The cubes of a function, by its values.
ghost use Rattle.std.specs.Prelude.{◌≡◌, ◌≤◌, ◌^◌, List, Bool, not, map, length, replicate, IfOk};
ghost use Rattle.trit_cubes.specs.declared.trits.Trit.{Trit};
ghost use Rattle.trit_cubes.specs.declared.trits.Trit.TheVariants as trit;
ghost use Rattle.trit_cubes.specs.Sets.{has, AreValuesOf};
ghost use Rattle.trit_cubes.specs.Prime.{prime_list};
ghost use Rattle.cell_tables.specs.Cubes.{function_cubes};

use crate::cubes::FunctionCubes;
use sqlite_items::Items;
use std::alloc::{AllocError, Global};
use trit_cubes::{Cube, Trit, primes, primes_where};

/// The cubes of the function that has these values at the points of so many places: entry k is its value at the point with the
/// number k.
pub(crate) fn function_cubes(
    alloc: Global,
    places: usize,
    values: &[Trit],
) -> Result<FunctionCubes, AllocError>
    requires few { places ≤ 10 }
    requires entries { length values.now ≡ 2 ^ places }
    ensures { IfOk result (λ cubes. (f : List Bool → Trit) → AreValuesOf places f values.now → cubes ≡ function_cubes places f) }
{
    let ones = primes_where(alloc, places, values, Trit::One)?;
    let zeros = primes_where(alloc, places, values, Trit::Zero)?;
    Ok(FunctionCubes {
        free: Cube::free(places),
        ones: Items::from_vec(ones),
        zeros: Items::from_vec(zeros),
    })
}

/// The same for a function whose values are all known.
pub(crate) fn table_cubes(
    alloc: Global,
    places: usize,
    values: &[bool],
) -> Result<FunctionCubes, AllocError>
    requires few { places ≤ 10 }
    requires entries { length values.now ≡ 2 ^ places }
    ensures free { IfOk result (λ cubes. cubes.free ≡ replicate places trit.Unknown) }
    ensures ones { IfOk result (λ cubes. cubes.ones ≡ prime_list places (has values.now)) }
    ensures zeros { IfOk result (λ cubes. cubes.zeros ≡ prime_list places (has (map not values.now))) }
{
    let inverses = inverted(alloc, values)?;
    let ones = primes(alloc, places, values)?;
    let zeros = primes(alloc, places, &inverses)?;
    Ok(FunctionCubes {
        free: Cube::free(places),
        ones: Items::from_vec(ones),
        zeros: Items::from_vec(zeros),
    })
}

/// Each value inverted.
fn inverted(alloc: Global, values: &[bool]) -> Result<Vec<bool>, AllocError>
    ensures { IfOk result (λ inverses. inverses.items ≡ map not values.now) }
{
    Ok(values.iter().map(|value| !*value).collect(alloc)?)
}
