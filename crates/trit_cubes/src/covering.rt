//! When one cube covers another.

ghost use Rattle.std.specs.Prelude.{◌≡◌};
ghost use Rattle.trit_cubes.specs.Filling.{covers};

use crate::cubes::Cube;

/// Whether the cubes are equally long and each fixed place of `wide` is equal in `narrow`.
pub fn covers(wide: &Cube, narrow: &Cube) -> bool
    ensures { result ≡ covers wide.now narrow.now }
{
    if wide.len() != narrow.len() {
        return false;
    }
    let (wide_fixed, wide_values) = wide.words();
    let (narrow_fixed, narrow_values) = narrow.words();
    if wide_fixed & narrow_fixed != wide_fixed {
        return false;
    }
    wide_fixed & narrow_values == wide_values
}
