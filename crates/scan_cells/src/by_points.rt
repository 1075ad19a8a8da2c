//! The first difference of a part of a cell and the same part of its view, over points in the order of their numbers.
ghost use Rattle.std.specs.Prelude.{◌≡◌, ℕ, ◌+◌, ◌*◌, ◌^◌, ◌<◌, ◌≤◌, None};
ghost use Rattle.std.specs.List.{range_with_len};
ghost use Rattle.scan_cells.specs.Comparison.{first_some};

use crate::answers::Difference;
use crate::points::weight;

/// A part of a cell and the same part of its view.
pub trait Compared {
    ghost use Rattle.std.specs.Prelude.{◌≡◌, ℕ, ◌<◌, Option, None, true, bit_and};
    ghost use Rattle.scan_cells.specs.declared.answers.Difference.{Difference};

    /// What differs first at each point.
    ghost at: { Self → ℕ → Option Difference };

    /// Whether a point has 1 at a place that the cell's part does not depend on and at one that the view's does not. Then no
    /// point with 1 wherever this one has is the first one at which the two differ.
    fn is_mixed(&self, point: u32) -> bool
        ensures { result ≡ true → (later : ℕ) → bit_and later point ≡ point → ((p : ℕ) → p < later → at self.now p ≡ None)
            → at self.now later ≡ None };

    /// What differs first at a point, where nothing differs at the points before it.
    fn difference_at(&self, point: u32) -> Option<Difference>
        requires { (p : ℕ) → p < point → at self.now p ≡ None }
        ensures { result ≡ at self.now point };
}

/// The first difference at the points from this one on that have the same values behind the first places, of which there are so
/// many, where nothing differs at the points before this one.
pub fn first_from<P: Compared>(pair: &P, point: u32, places: usize) -> Option<Difference>
    requires places { places ≤ 20 }
    requires whole { (count : ℕ) × (point ≡ count * 2 ^ places) }
    requires few { point + 2 ^ places ≤ 2 ^ 20 }
    requires before { (p : ℕ) → p < point → P.at pair.now p ≡ None }
    ensures { result ≡ first_some (P.at pair.now) (range_with_len point (2 ^ places)) }
{
    if pair.is_mixed(point) {
        return None;
    }
    if places == 0 {
        return pair.difference_at(point);
    }
    let rest = places - 1;
    match first_from(pair, point, rest) {
        Some(difference) => Some(difference),
        None => first_from(pair, point + weight(rest), rest),
    }
}
