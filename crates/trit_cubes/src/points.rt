//! Points by their numbers.

ghost use Rattle.std.specs.Prelude.{◌≡◌};
ghost use Rattle.trit_cubes.specs.Sets.{point_of};

/// The first ten places of the point with this number, in which place i weighs 2 to the power i.
pub fn point_of(number: u32) -> [bool; 10]
    ensures { result ≡ point_of 10 number }
{
    let mut point = [false; 10];
    for i in 0..10u32 {
        point[i as usize] = (number >> i) & 1 == 1;
    }
    point
}
