//! The groups of a cell that hold a state.
ghost use Rattle.std.specs.Prelude.{◌≡◌, ◌<◌};
ghost use Rattle.cell_machine.specs.Step.{clocked_value, clocked_step, gated_value, gated_step, KindIsBounded};

use crate::shared::Shared;
use crate::steps::cleared_by;
use crate::values::Values;
use bool_functions::Function;
use sqlite_items::Items;
use statetables::StateTable;
use trit_cubes::Trit;

/// What a variable of an `ff` or `latch` group becomes where `clear` and `preset` are both 1. (Liberty Reference
/// Manual, `clear_preset_var1` and `clear_preset_var2`.)
#[derive(Clone, Copy)]
pub enum Both {
    /// `L`: 0.
    Low,
    /// `H`: 1.
    High,
    /// `N`: what it was. Not of the second variable.
    Keep,
    /// `X`: unknown. An attribute that is not written counts as this (this project's rule).
    Unknown,
}

/// An `ff` group. (Liberty Reference Manual, `ff` group.)
#[derive(Drop)]
pub struct Clocked {
    /// The state after a rise of `clocked_on`.
    pub next_state: Function,
    /// The function whose rise from 0 to 1 lets `next_state` in.
    pub clocked_on: Function,
    /// Where it is 1 the state becomes 0; always 0 where it is not written.
    pub clear: Option<Function>,
    /// Where it is 1 the state becomes 1; always 0 where it is not written.
    pub preset: Option<Function>,
    /// The first variable where both are 1.
    pub both1: Both,
    /// The second variable where both are 1.
    pub both2: Both,
}

impl Clocked {
    /// What the texts give for the variable with this name: the clock, then the state.
    fn value(&self, name: usize, before: &Values, after: &Values, state: bool) -> Trit
        requires name { name < 96 }
        requires bounded { KindIsBounded (GroupKind.Ff self.now) }
        ensures { result ≡ clocked_value self.now name before.now after.now state }
    {
        if !before.value(&self.clocked_on) && after.value(&self.clocked_on) {
            Trit::from(after.with_state(name, state).value(&self.next_state))
        } else {
            Trit::from(state)
        }
    }

    /// The next state, whose variable has this name: clear and preset, then the clock, then the state.
    pub fn step(&self, name: usize, before: &Values, after: &Values, state: bool) -> Trit
        requires name { name < 96 }
        requires bounded { KindIsBounded (GroupKind.Ff self.now) }
        ensures { result ≡ clocked_step self.now name before.now after.now state }
    {
        let otherwise = self.value(name, before, after, state);
        let clear = after.is_on(&self.clear);
        let preset = after.is_on(&self.preset);
        cleared_by(clear, preset, self.both1, state, otherwise)
    }
}

/// A `latch` group. (Liberty Reference Manual, `latch` group.)
#[derive(Drop)]
pub struct Gated {
    /// The state while `enable` is 1. There exactly where `enable` is.
    pub data_in: Option<Function>,
    /// The function that lets `data_in` in while it is 1; always 0 where it is not written.
    pub enable: Option<Function>,
    /// Where it is 1 the state becomes 0; always 0 where it is not written.
    pub clear: Option<Function>,
    /// Where it is 1 the state becomes 1; always 0 where it is not written.
    pub preset: Option<Function>,
    /// The first variable where both are 1.
    pub both1: Both,
    /// The second variable where both are 1.
    pub both2: Both,
}

impl Gated {
    /// What the texts give for the variable with this name: the enable, then the state.
    fn value(&self, name: usize, after: &Values, state: bool) -> Trit
        requires name { name < 96 }
        requires bounded { KindIsBounded (GroupKind.Latch self.now) }
        ensures { result ≡ gated_value self.now name after.now state }
    {
        if after.is_on(&self.enable) {
            Trit::from(after.with_state(name, state).is_on(&self.data_in))
        } else {
            Trit::from(state)
        }
    }

    /// The next state, whose variable has this name: clear and preset, then the enable, then the state.
    pub fn step(&self, name: usize, after: &Values, state: bool) -> Trit
        requires name { name < 96 }
        requires bounded { KindIsBounded (GroupKind.Latch self.now) }
        ensures { result ≡ gated_step self.now name after.now state }
    {
        let otherwise = self.value(name, after, state);
        let clear = after.is_on(&self.clear);
        let preset = after.is_on(&self.preset);
        cleared_by(clear, preset, self.both1, state, otherwise)
    }
}

/// How the state of a group is made.
#[derive(Drop)]
pub enum GroupKind {
    /// An `ff` group.
    Ff(Clocked),
    /// A `latch` group.
    Latch(Gated),
    /// One node of a `statetable` group.
    Table {
        /// The table, which all its nodes hold.
        table: Shared<StateTable>,
        /// The node's number among the table's nodes.
        node: usize,
        /// For each input of the table the number of its pin.
        inputs: Items<usize>,
    },
}

/// A group of a cell that holds one state. The state is the first variable of an `ff` or `latch`, or the node.
#[derive(Drop)]
pub struct StateGroup {
    /// How the state is made.
    pub kind: GroupKind,
    /// The numbers of the input pins that the group's texts name, ascending.
    pub support: Items<usize>,
}
