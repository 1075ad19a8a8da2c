//! The resolution of functions of points.
ghost use Rattle.std.specs.Prelude.{◌≡◌, ◌≤◌, Bool, List, length};
ghost use Rattle.std.specs.Fn.{FnReturnsAt};
ghost use Rattle.trit_cubes.specs.declared.trits.Trit.{Trit};
ghost use Rattle.trit_cubes.specs.Resolution.{res};
ghost use Rattle.trit_cubes.specs.Sets.{Gives, AreValuesOf, point_of};

use cell_machine::{Few, numbered_value};
use trit_cubes::{Trit, point_of, resolve};

/// The value of a function at the point with this number.
fn at_number<F: Fn(&[bool]) -> Trit>(function: &F, places: usize, number: u16) -> Trit
    requires callable { F.IsAlwaysCallable function.now }
    requires few { places ≤ 10 }
    ensures { (t : Trit) → t ≡ result → FnReturnsAt F.Fn function.now (point_of places number) t }
{
    let point = point_of(number as u32);
    function(&point[..places])
}

/// The values of a function of points at all points of so many places, by their numbers.
pub(crate) fn values_at<F: Fn(&[bool]) -> Trit>(places: usize, function: &F) -> Few<Trit, 1024>
    requires callable { F.IsAlwaysCallable function.now }
    requires few { places ≤ 10 }
    ensures { (f : List Bool → Trit) → Gives (λ p t. FnReturnsAt F.Fn function.now p t) places f → AreValuesOf places f result }
{
    let mut values = Few::new(Trit::Unknown);
    for number in 0..1u16 << places {
        values.push(at_number(function, places, number));
    }
    values
}

/// The value that a function of points gives on every filling of the places, else unknown, by its values at all points, each at
/// the number of its point.
pub(crate) fn tabled(values: &[Trit], places: &[Trit]) -> Trit
    requires few { length places.now ≤ 10 }
    ensures { (f : List Bool → Trit) → AreValuesOf (length places.now) f values.now → result ≡ res f places.now }
{
    resolve(
        places,
        &|number: u16| { numbered_value(values, usize::from(number)) },
    )
}
