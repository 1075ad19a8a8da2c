//! The parts of a cell whose values take no state of their own.

/// A part of a cell whose value takes no state of its own.
#[derive(Clone, Copy)]
pub enum Part {
    /// The output with this number among the outputs, from 0.
    Output(usize),
    /// The condition with this number, from 0, in the order of first use: checks before arcs, equal trees once.
    Condition(usize),
}
