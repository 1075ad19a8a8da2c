//! Points of the inputs of a group.
ghost use Rattle.std.specs.Prelude.{◌≡◌, ◌≢◌, ℕ, ◌≤◌, ◌<◌, ◌^◌, None, IfSome};
ghost use Rattle.trit_cubes.specs.Sets.{point_of as point_with};
ghost use Rattle.step_tables.specs.Turned.{turned as turned_point};

use cell_machine::Few;

/// The most places of a group's support.
pub const MOST_PLACES: usize = 8;

/// So many places of the point with this number, in which place i weighs 2 to the power i.
pub fn point_of<const N: usize>(places: usize, number: usize) -> Few<bool, N>
    requires { places ≤ N }
    ensures { result ≡ point_with places number }
{
    let mut point = Few::new(false);
    let mut rest = number;
    for _place in 0..places {
        point.push(rest % 2 == 1);
        rest /= 2;
    }
    point
}

/// How many points there are over so many places.
pub fn point_count(places: usize) -> usize
    requires { places ≤ 8 }
    ensures is { result ≡ 2 ^ places }
    ensures few { result ≤ 256 }
{
    1 << places
}

/// What a place of a point weighs in its number.
fn weight(place: usize) -> usize
    requires { place < 8 }
    ensures { result ≡ 2 ^ place }
{
    1 << place
}

/// The number of the point that differs in this place alone; the number itself where there is no such place.
pub fn turned(places: usize, place: usize, number: usize) -> usize
    requires places { places ≤ 8 }
    requires number { number < 2 ^ places }
    ensures is { point_with places result ≡ turned_point place (point_with places number) }
    ensures small { result < 2 ^ places }
{
    if place < places {
        number ^ weight(place)
    } else {
        number
    }
}

/// The place in which the points with these numbers differ over so many places, and the number of places where they are one;
/// none exactly where they differ in more places.
pub fn changed_place(places: usize, before: usize, after: usize) -> Option<usize>
    requires places { places ≤ 8 }
    requires before { before < 2 ^ places }
    requires after { after < 2 ^ places }
    ensures one { IfSome result (λ place. (place < 9)
        × (point_with places before ≡ turned_point place (point_with places after))) }
    ensures more { result ≡ None → (place : ℕ) → point_with places before ≢ turned_point place (point_with places after) }
{
    if before == after {
        return Some(places);
    }
    let place = (before ^ after).trailing_zeros() as usize;
    if place >= places {
        return None;
    }
    let turn = weight(place);
    if after ^ turn == before {
        Some(place)
    } else {
        None
    }
}
