//! A value for each name of a cell.
ghost use Rattle.std.specs.Prelude.{◌≡◌, ◌<◌, ◌≤◌, false, length, slice_index_or, slice_set};
ghost use Rattle.bool_functions.specs.Tree.{value_of, name_bound};
ghost use Rattle.cell_machine.specs.Values.{no_values, written, with_state, is_on, IsBounded};

use bool_functions::Function;
use std::marker::Model;

/// A value for each name of a cell: 64 pins, and two variables for each of 16 groups. Contracts see the list of them.
#[derive(Clone, Copy)]
pub struct Values {
    bits: [bool; Values::NAMES],
}

impl Model for Values {
    ghost use Rattle.std.specs.Prelude.{◌≡◌, List, Bool, length};

    ghost Value = { List Bool };

    ghost view = { λ v. v.bits };

    ghost invariant = { λ v. length v.bits ≡ 96 };

    ghost inverse = { λ bits. record { bits = bits } };
}

impl Values {
    /// The most names of a cell.
    const NAMES: usize = 96;

    /// All 0.
    pub fn new() -> Values
        ensures { result ≡ no_values }
    {
        Values {
            bits: [false; Values::NAMES],
        }
    }

    /// The value of a name, 0 where there is no such name.
    pub fn get(&self, name: usize) -> bool
        ensures { result ≡ slice_index_or self.now name false }
    {
        if name < Values::NAMES {
            self.bits[name]
        } else {
            false
        }
    }

    /// The values with another one for a name.
    pub fn with(self, name: usize, value: bool) -> Values
        ensures { result ≡ slice_set self name value }
    {
        let mut bits = self.bits;
        if name < Values::NAMES {
            bits[name] = value;
        }
        Values { bits }
    }

    /// Gives a name another value.
    pub(crate) fn set(&mut self, name: usize, value: bool)
        ensures { self.new ≡ slice_set self.old name value }
    {
        if name < Values::NAMES {
            self.bits[name] = value;
        }
    }

    /// The values with those of a point for these names.
    pub fn written(self, names: &[usize], point: &[bool]) -> Values
        requires { length names.now ≡ length point.now }
        ensures { result ≡ written self names.now point.now }
    {
        let mut values = self;
        for i in 0..names.len() {
            values.set(names[i], point[i]);
        }
        values
    }

    /// The values with a state under its name and its inverse under the name after it.
    pub fn with_state(self, name: usize, state: bool) -> Values
        requires { name < 96 }
        ensures { result ≡ with_state name state self }
    {
        self.with(name, state).with(name + 1, !state)
    }

    /// The value of a function.
    pub fn value(&self, function: &Function) -> bool
        requires { name_bound function.now ≤ 96 }
        ensures { result ≡ value_of self.now function.now }
    {
        function.value(&self.bits)
    }

    /// The value of a function that may be absent: an absent one is 0.
    pub fn is_on(&self, function: &Option<Function>) -> bool
        requires { IsBounded function.now }
        ensures { result ≡ is_on self.now function.now }
    {
        match function {
            Some(function) => self.value(function),
            None => false,
        }
    }
}
