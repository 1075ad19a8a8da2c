//! The names of a cell's ports.
ghost use Rattle.std.specs.Prelude.{◌≡◌, IfOk};
ghost use Rattle.library_simulation.specs.PinNames.{AreNamedApart, same_direction as same_direction_of};
ghost use Rattle.library_simulation.specs.PinNames.{directed_names as directed_names_of, named_ports as named_ports_of};

use bool_functions::Names;
use cell_attributes::held::both_made;
use cell_machine::{Direction, Pin};
use std::alloc::{AllocError, Global};
use stimulus::{Ports, Standing};

/// The ports of a cell that stands so, by the names of these pins, of which no two have one name, numbered as its machine numbers
/// them.
pub(crate) fn named_ports(
    alloc: Global,
    standing: Standing,
    pins: &[Pin],
) -> Result<Ports, AllocError>
    requires { AreNamedApart pins.now }
    ensures { IfOk result (λ ports. ports ≡ named_ports_of standing pins.now) }
{
    let inputs = directed_names(alloc, Direction::Input, pins);
    let outputs = directed_names(alloc, Direction::Output, pins);
    let (inputs, outputs) = both_made(inputs, outputs)?;
    Ok(Ports {
        standing,
        inputs,
        outputs,
    })
}

/// The names of those of these pins, of which no two have one name, that have this direction, in their order.
fn directed_names(alloc: Global, direction: Direction, pins: &[Pin]) -> Result<Names, AllocError>
    requires { AreNamedApart pins.now }
    ensures { IfOk result (λ names. names ≡ directed_names_of direction pins.now) }
{
    let mut names = Names::new(alloc);
    for pin in pins {
        if same_direction(direction, pin.direction) {
            names.add(pin.name.as_slice())?;
        }
    }
    Ok(names)
}

/// Whether two directions are the same.
fn same_direction(one: Direction, other: Direction) -> bool
    ensures { result ≡ same_direction_of one other }
{
    one == other
}
