//! The values of a cell's input pins, of the values of its inputs.
ghost use Rattle.std.specs.Prelude.{◌≡◌, ◌≤◌, map, length, count_by, take, slice_index_or};
ghost use Rattle.trit_cubes.specs.declared.trits.Trit.TheVariants.{Unknown};
ghost use Rattle.cell_machine.specs.CellRules.{is_input};
ghost use Rattle.cell_machine.specs.Inputs.{is_input_at, input_number, numbered_value, pin_value, pin_values};

use crate::few::Few;
use crate::pins::{Direction, Pin};
use trit_cubes::Trit;

impl Pin {
    /// Whether the pin is an input.
    pub(crate) fn is_input(&self) -> bool
        ensures { result ≡ is_input_at self.now }
    {
        match self.direction {
            Direction::Input => true,
            Direction::Output => false,
            Direction::Internal => false,
        }
    }
}

/// The number of a pin among the inputs: how many inputs stand before it.
pub fn input_number(pins: &[Pin], pin: usize) -> usize
    ensures { result ≡ input_number pins.now pin }
{
    pins.iter().take(pin).filter(|pin| pin.is_input()).count()
}

/// The value of an input pin.
pub fn pin_value(pins: &[Pin], inputs: &[Trit], pin: usize) -> Trit
    ensures { result ≡ pin_value pins.now inputs.now pin }
{
    numbered_value(inputs, input_number(pins, pin))
}

/// The value that has this number, unknown where there is none.
pub fn numbered_value(values: &[Trit], i: usize) -> Trit
    ensures { result ≡ numbered_value values.now i }
{
    match values.get(i) {
        Some(value) => *value,
        None => Trit::Unknown,
    }
}

/// The values of the pins of a group's support, of which there are at most eight, in their order.
pub fn support_values(pins: &[Pin], inputs: &[Trit], support: &[usize]) -> Few<Trit, 8>
    requires { length support.now ≤ 8 }
    ensures { result ≡ pin_values pins.now inputs.now support.now }
{
    let mut values = Few::new(Trit::Unknown);
    for pin in support {
        values.push(pin_value(pins, inputs, *pin));
    }
    values
}
