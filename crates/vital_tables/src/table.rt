//! The tables of VITAL as data.
use sqlite_items::Items;
use trit_cubes::Trit;

/// Which values a level of a table stands for. (IEEE 1076.4-2000, VITAL table symbols.)
#[derive(Clone, Copy)]
pub enum Trits {
    /// `'0'`.
    Zero,
    /// `'1'`.
    One,
    /// `'X'`.
    Unknown,
    /// `'-'`: all three.
    Any,
    /// `'B'`: 0 and 1.
    Binary,
}

/// A truth table. (IEEE 1076.4-2000, VitalTruthTable.)
#[derive(Drop)]
pub struct TruthTable {
    /// The rows, in order.
    pub rows: Items<TruthRow>,
}

/// A state table of one state. (IEEE 1076.4-2000, VitalStateTable.)
#[derive(Drop)]
pub struct VStateTable {
    /// The rows, in order.
    pub rows: Items<VStateRow>,
}

/// A row of a truth table.
#[derive(Drop)]
pub struct TruthRow {
    /// A level for each input.
    pub inputs: Items<Trits>,
    /// What the row gives.
    pub result: Trit,
}

/// A row of a state table.
#[derive(Drop)]
pub struct VStateRow {
    /// A symbol for each input column.
    pub inputs: Items<VSymbol>,
    /// What the state has to be.
    pub state: Trits,
    /// The next state.
    pub result: VNext,
}

/// The symbol of one input column in a row of a state table. (IEEE 1076.4-2000, VITAL table symbols.)
#[derive(Clone, Copy)]
pub enum VSymbol {
    /// The column has one of the values of the level.
    Level(Trits),
    /// `'S'`: the column keeps its value.
    Steady,
    /// `'/'`: an edge from 0 to 1.
    Rise,
    /// `'\'`: an edge from 1 to 0.
    Fall,
    /// `'P'`: any edge to 1.
    To1,
    /// `'N'`: any edge to 0.
    To0,
    /// `'p'`: any edge from 0.
    From0,
    /// `'n'`: any edge from 1.
    From1,
    /// `'*'`: any edge.
    Change,
}

/// What a row of a state table gives.
#[derive(Clone, Copy)]
pub enum VNext {
    /// `'0'`.
    Zero,
    /// `'1'`.
    One,
    /// `'X'`.
    Unknown,
    /// `'S'`: the state stays.
    Keep,
}
