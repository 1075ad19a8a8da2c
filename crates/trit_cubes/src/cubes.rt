//! Packed cubes: lists of at most ten trits in two words.

ghost use Rattle.std.specs.Prelude.{◌≡◌, ◌↔◌, ◌<◌, ◌≤◌, [], ◌∷◌, ◌++◌, length, replicate, slice_get, IsNone, IfSome};
ghost use Rattle.trit_cubes.specs.Words.{fixed_word, value_word};

use crate::trits::Trit;
use std::marker::Model;

/// A list of at most ten trits, as two words: which places are fixed, and their values.
#[derive(Clone, Copy)]
pub struct Cube {
    len: usize,
    fixed: u16,
    values: u16,
}

impl Model for Cube {
    ghost use Rattle.std.specs.Prelude.{◌≡◌, ◌≤◌, ℕ, List, length};
    ghost use Rattle.std.proofs.Common.{sym};
    ghost use Rattle.trit_cubes.specs.declared.trits.Trit.{Trit};
    ghost use Rattle.trit_cubes.specs.Words.{trits_of, fixed_word, value_word};

    ghost Value = { List Trit };

    ghost view = { λ c. trits_of c.len c.fixed c.values };

    ghost invariant = { λ c. (c.len ≤ 10) × (c.len ≡ length (trits_of c.len c.fixed c.values))
        × (c.fixed ≡ fixed_word (trits_of c.len c.fixed c.values)) × (c.values ≡ value_word (trits_of c.len c.fixed c.values)) };

    ghost inverse = { λ ts. record { len = length ts; fixed = fixed_word ts; values = value_word ts } };

    ghost inverse_ok = { λ a h. λ i. record { len = sym h.1 i; fixed = sym h.2 i; values = sym h.3 i } };
}

impl Cube {
    /// The most places of a cube.
    pub const MOST_PLACES: usize = 10;

    /// The cube of no places.
    pub fn empty() -> Cube
        ensures { result ≡ [] }
    {
        Cube {
            len: 0,
            fixed: 0,
            values: 0,
        }
    }

    /// The cube of `n` free places.
    pub fn free(n: usize) -> Cube
        requires { n ≤ 10 }
        ensures { result ≡ replicate n Trit.Unknown }
    {
        Cube {
            len: n,
            fixed: 0,
            values: 0,
        }
    }

    /// The cube of these places, none exactly where there are more than ten.
    pub fn new(places: &[Trit]) -> Option<Cube>
        ensures none { IsNone result ↔ (10 < length places.now) }
        ensures some { IfSome result (λ cube. cube ≡ places.now) }
    {
        if places.len() > Cube::MOST_PLACES {
            return None;
        }
        let mut cube = Cube::empty();
        let mut left = places.len();
        while left > 0 {
            left -= 1;
            cube = cube.after(places[left]);
        }
        Some(cube)
    }

    /// The number of places.
    pub fn len(&self) -> usize
        ensures value { result ≡ length self.now }
        ensures short { result ≤ 10 }
    {
        self.len
    }

    /// The trit at place `i`, from 0.
    pub fn place(&self, i: usize) -> Trit
        requires { i < length self.now }
        ensures { slice_get self.now i ≡ Some result }
    {
        if (self.fixed >> i) & 1 == 0 {
            Trit::Unknown
        } else if (self.values >> i) & 1 == 0 {
            Trit::Zero
        } else {
            Trit::One
        }
    }

    /// The word of the places that are fixed and the word of their values, place i at weight 2 to the power i. The
    /// values are 0 at free places.
    pub fn words(&self) -> (u16, u16)
        ensures fixed { result.0 ≡ fixed_word self.now }
        ensures values { result.1 ≡ value_word self.now }
        ensures fixed_below { result.0 < 1024 }
        ensures values_below { result.1 < 1024 }
    {
        (self.fixed, self.values)
    }

    /// The cube with one more place in front.
    pub fn after(self, first: Trit) -> Cube
        requires { length self < 10 }
        ensures { result ≡ first ∷ self }
    {
        let (fixed, values) = self.words();
        let (fixed_bit, value_bit) = match first {
            Trit::Zero => (1, 0),
            Trit::One => (1, 1),
            Trit::Unknown => (0, 0),
        };
        Cube {
            len: self.len + 1,
            fixed: 2 * fixed + fixed_bit,
            values: 2 * values + value_bit,
        }
    }

    /// The cube with one more place at the end.
    pub(crate) fn before(self, last: Trit) -> Cube
        requires { length self < 10 }
        ensures { result ≡ self ++ last ∷ [] }
    {
        let (fixed, values) = self.words();
        let (fixed_bit, value_bit) = last.bits();
        Cube {
            len: self.len + 1,
            fixed: fixed + (fixed_bit << self.len),
            values: values + (value_bit << self.len),
        }
    }
}
