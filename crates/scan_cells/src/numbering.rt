//! The numbers that points over the places of a comparison have over a support.
ghost use Rattle.std.specs.Prelude.{◌≡◌, ◌<◌, ◌≤◌, ◌^◌, length, map};
ghost use Rattle.trit_cubes.specs.Filling.{number};
ghost use Rattle.scan_cells.specs.Weights.{weight_of as weight_of_source, weighed, IsSplit, numbers_of as numbers_of_multiples};

use crate::points::{Weights, weights_of};
use cell_machine::{Few, Source};

/// The number that a point has over the places with these weights.
fn number_at(weights: &[u32], point: u32) -> u16
    requires { length weights.now ≤ 10 }
    ensures is { result ≡ number (weighed weights.now point) }
    ensures small { result < 2 ^ length weights.now }
{
    let Some((first, rest)) = weights.split_first() else {
        return 0;
    };
    let behind = number_at(rest, point);
    u16::from(point & *first != 0) + 2 * behind
}

/// The points of a byte.
const BYTE: u32 = 256;

/// The most numbers that are kept of a byte's points.
const MOST_NUMBERS: usize = 256;

/// The numbers of points of a byte.
type Numbers = Few<u16, MOST_NUMBERS>;

/// How many points there are over the first eight of so many places.
fn point_count(places: usize) -> u32
    ensures { result ≤ 256 }
{
    1 << places.min(8)
}

/// The numbers that the first so many multiples of a point have over the places with these weights.
fn numbers_of(weights: &[u32], unit: u32, count: u32) -> Numbers
    requires weights { length weights.now ≤ 10 }
    requires unit { unit ≤ 256 }
    requires count { count ≤ 256 }
    ensures { result ≡ numbers_of_multiples weights.now unit count }
{
    let mut numbers = Few::new(0);
    for k in 0..count {
        numbers.push(number_at(weights, unit * k));
    }
    numbers
}

/// What the sources of a support weigh, and the numbers of points over it.
#[derive(Drop)]
pub struct Numbering {
    weights: Weights,
    /// The numbers of the points with 1 among the first eight places alone.
    low: Numbers,
    /// Those of the points with 1 among the eight places behind them alone.
    high: Numbers,
    ghost is_split: { IsSplit weights },
    ghost are_low: { low ≡ numbers_of_multiples weights 1 (length low) },
    ghost are_high: { high ≡ numbers_of_multiples weights 256 (length high) },
    ghost few: { length weights ≤ 10 },
}

impl Numbering {
    /// The numbers over a support as it stands among these places.
    pub fn of(places: &[Source], support: &[Source]) -> Numbering
        requires places { length places.now ≤ 20 }
        requires support { length support.now ≤ 10 }
        ensures { result.weights ≡ map (weight_of_source places.now) support.now }
    {
        let weights = weights_of(places, support);
        let low = point_count(places.len());
        let high = point_count(places.len().saturating_sub(8));
        Numbering {
            low: numbers_of(weights.as_slice(), 1, low),
            high: numbers_of(weights.as_slice(), BYTE, high),
            weights,
        }
    }

    /// The number that a point has over the support.
    pub fn number(&self, point: u32) -> usize
        ensures is { result ≡ number (weighed self.now.weights point) }
        ensures small { result < 2 ^ length self.now.weights }
    {
        let low = (point % BYTE) as usize;
        let high = (point / BYTE) as usize;
        let lows = self.low.as_slice();
        let highs = self.high.as_slice();
        if low >= lows.len() || high >= highs.len() {
            return usize::from(number_at(self.weights.as_slice(), point));
        }
        usize::from(lows[low] + highs[high])
    }
}
