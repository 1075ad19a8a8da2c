//! The pins of a test view, found in its scan cell.
ghost use Rattle.std.specs.Prelude.{◌≡◌, ◌||◌, not, IfOk};
ghost use Rattle.std.specs.List.{list_all, list_any};
ghost use Rattle.cell_machine.specs.CellRules.{is_output as is_output_of};
ghost use Rattle.cell_machine.specs.CellData.{data_of};
ghost use Rattle.scan_cells.specs.Views.{same_direction as same_direction_of, same_pin as same_pin_of};
ghost use Rattle.scan_cells.specs.Views.{number_of as number_of_pin, is_among, numbers_of as numbers_of_pins};
ghost use Rattle.scan_cells.specs.Views.{is_output_named as is_output_named_of, outputs_within as outputs_within_of};
ghost use Rattle.scan_cells.specs.Views.{same_outline as same_outline_of};

use cell_machine::{Cell, Direction, Pin};
use sqlite_items::Items;
use std::alloc::{AllocError, Global};

/// Whether two directions are equal.
fn same_direction(direction: Direction, other: Direction) -> bool
    ensures { result ≡ same_direction_of direction other }
{
    match (direction, other) {
        (Direction::Input, Direction::Input) => true,
        (Direction::Output, Direction::Output) => true,
        (Direction::Internal, Direction::Internal) => true,
        _ => false,
    }
}

/// Whether two pins have the same name and the same direction.
fn same_pin(pin: &Pin, other: &Pin) -> bool
    ensures { result ≡ same_pin_of pin.now other.now }
{
    pin.name.as_slice() == other.name.as_slice() && same_direction(pin.direction, other.direction)
}

/// The number of the pin with the name and the direction of another one, where there is one.
fn number_of(pins: &[Pin], pin: &Pin) -> Option<usize>
    ensures { result ≡ number_of_pin pins.now pin.now }
{
    pins.iter().position(|other| same_pin(pin, other))
}

/// Whether there is such a pin for each of the view's.
pub fn are_among(pins: &[Pin], of_view: &[Pin]) -> bool
    ensures { result ≡ list_all (is_among pins.now) of_view.now }
{
    of_view.iter().all(|pin| number_of(pins, pin).is_some())
}

/// The numbers of such pins.
pub fn numbers_of(alloc: Global, pins: &[Pin], of_view: &[Pin]) -> Result<Items<usize>, AllocError>
    ensures { IfOk result (λ numbers. numbers ≡ numbers_of_pins pins.now of_view.now) }
{
    let mut numbers = Items::new(alloc);
    for pin in of_view {
        numbers.push(number_of(pins, pin).unwrap_or(0))?;
    }
    Ok(numbers)
}

/// Whether a pin is an output.
fn is_output(pin: &Pin) -> bool
    ensures { result ≡ is_output_of pin.now.direction }
{
    match pin.direction {
        Direction::Input => false,
        Direction::Output => true,
        Direction::Internal => false,
    }
}

/// Whether a pin is an output with this name.
fn is_output_named(name: &[u8], pin: &Pin) -> bool
    ensures { result ≡ is_output_named_of name.now pin.now }
{
    is_output(pin) && name == pin.name.as_slice()
}

/// Whether an output among these pins has this name.
fn has_output(name: &[u8], pins: &[Pin]) -> bool
    ensures { result ≡ list_any (is_output_named_of name.now) pins.now }
{
    pins.iter().any(|pin| is_output_named(name, pin))
}

/// Whether a pin that is an output has its name among the outputs of others.
fn is_within(pin: &Pin, others: &[Pin]) -> bool
    ensures { result ≡ (not (is_output_of pin.now.direction) || list_any (is_output_named_of pin.now.name) others.now) }
{
    !is_output(pin) || has_output(pin.name.as_slice(), others)
}

/// Whether each output pin has its name among the outputs of others.
fn outputs_within(pins: &[Pin], others: &[Pin]) -> bool
    ensures { result ≡ outputs_within_of pins.now others.now }
{
    pins.iter().all(|pin| is_within(pin, others))
}

/// Whether two cells have as many state groups, and the same set of names of outputs.
pub fn same_outline(cell: &Cell, other: &Cell) -> bool
    ensures { result ≡ same_outline_of (data_of cell.now) (data_of other.now) }
{
    let pins = cell.pins.as_slice();
    let others = other.pins.as_slice();
    cell.groups.len() == other.groups.len()
        && outputs_within(pins, others)
        && outputs_within(others, pins)
}
