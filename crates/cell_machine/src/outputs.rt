//! The outputs of a cell.
use bool_functions::Function;
use sqlite_items::Items;

/// What an output depends on.
#[derive(Clone, Copy)]
pub enum Source {
    /// The input pin with this number.
    Pin(usize),
    /// The state of the group with this number.
    State(usize),
}

/// An output pin and its function.
#[derive(Drop)]
pub struct OutputPin {
    /// The number of the pin.
    pub pin: usize,
    /// The function, over the names of the cell.
    pub function: Function,
    /// What the function names: input pins ascending, then states ascending. A second variable counts as its state and,
    /// where both `clear` and `preset` are written, as the pins of both.
    pub support: Items<Source>,
}
