//! Functions of points by their values at all points.
ghost use Rattle.std.specs.Prelude.{◌≡◌, ◌≤◌, List, Bool, length, slice_index_or};
ghost use Rattle.trit_cubes.specs.declared.trits.Trit.{Trit as TritOf};
ghost use Rattle.trit_cubes.specs.declared.trits.Trit.TheVariants.{Unknown};
ghost use Rattle.trit_cubes.specs.Resolution.{res};
ghost use Rattle.trit_cubes.specs.Sets.{AreValuesOf};

use trit_cubes::{Trit, resolve};

/// The value that a function gives on every filling of these places, else unknown, by its values at all points, each at the
/// number of its point.
pub fn tabled(values: &[Trit], places: &[Trit]) -> Trit
    requires { length places.now ≤ 10 }
    ensures { (f : List Bool → TritOf) → AreValuesOf (length places.now) f values.now → result ≡ res f places.now }
{
    resolve(places, &|number: u16| { value_at(values, number) })
}

/// The value with this number, unknown where there is none.
fn value_at(values: &[Trit], number: u16) -> Trit
    ensures { result ≡ slice_index_or values.now number Unknown }
{
    match values.get(usize::from(number)) {
        Some(value) => *value,
        None => Trit::Unknown,
    }
}
