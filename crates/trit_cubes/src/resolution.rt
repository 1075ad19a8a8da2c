//! The value that a function gives on every filling of a list of trits, else unknown.

ghost use Rattle.std.specs.Prelude.{◌≡◌, ◌+◌, ◌*◌, ◌^◌, ◌<◌, ◌≤◌, Bool, List, length};
ghost use Rattle.trit_cubes.specs.declared.trits.Trit.{Trit};
ghost use Rattle.trit_cubes.specs.Filling.{number};
ghost use Rattle.trit_cubes.specs.Resolution.{res, Computes};

use crate::trits::Trit;

/// The value that `f` gives on every filling of the places, else unknown. A point is a number in which place i weighs 2
/// to the power i.
pub fn resolve<F: Fn(u16) -> Trit>(places: &[Trit], f: &F) -> Trit
    requires callable { F.IsAlwaysCallable f.now }
    requires short { length places.now ≤ 10 }
    ensures { (g : List Bool → Trit) → Computes (F.post f.now) g places.now → result ≡ res g places.now }
{
    resolve_from(places, f, 1, 0)
}

/// The same for the last places of points: the first of them weighs `weight`, and the places before it give `at`.
fn resolve_from<F: Fn(u16) -> Trit>(places: &[Trit], f: &F, weight: u16, at: u16) -> Trit
    requires callable { F.IsAlwaysCallable f.now }
    requires room { weight * 2 ^ length places.now ≤ 1024 }
    requires below { at < weight }
    ensures { (g : List Bool → Trit) → Computes (λ n v. F.post f.now (at + weight * n) v) g places.now
        → result ≡ res g places.now }
{
    let Some((first, rest)) = places.split_first() else {
        return f(at);
    };
    match *first {
        Trit::Zero => resolve_from(rest, f, 2 * weight, at),
        Trit::One => resolve_from(rest, f, 2 * weight, at + weight),
        Trit::Unknown => {
            let zero = resolve_from(rest, f, 2 * weight, at);
            let one = resolve_from(rest, f, 2 * weight, at + weight);
            zero.agreed(one)
        }
    }
}
