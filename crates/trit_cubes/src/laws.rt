//! Theorems on the definitions, for the proofs of other crates. The functions do nothing.

ghost use Rattle.trit_cubes.specs.Resolution.{ResIsCommonValue};
ghost use Rattle.trit_cubes.specs.Prime.{PrimesAreOneList, PrimesCoverInside, MergedArePrimes, PrimesAreOfPoints};
ghost use Rattle.trit_cubes.specs.Prime.{PrimesGiveResolution};

/// The resolution is 0 or 1 exactly where the function gives that value on every filling.
pub fn res_is_common_value()
    ensures { ResIsCommonValue }
{}

/// A list of trits lies inside a set exactly where some prime of the set covers it.
pub fn primes_cover_inside()
    ensures { PrimesCoverInside }
{}

/// The primes of a set in their order are one list.
pub fn primes_are_one_list()
    ensures { PrimesAreOneList }
{}

/// Merging the primes of two sets and of the points in both gives the primes of the joined set.
pub fn merged_are_primes()
    ensures { MergedArePrimes }
{}

/// The primes over n places depend only on the points of n places.
pub fn primes_are_of_points()
    ensures { PrimesAreOfPoints }
{}

/// A prime of the points at which a function gives 0 or 1 covers a list of trits exactly where the resolution is this value.
pub fn primes_give_resolution()
    ensures { PrimesGiveResolution }
{}
