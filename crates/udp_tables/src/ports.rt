//! The ports of a cell's models by their numbers.
ghost use Rattle.std.specs.Prelude.{◌≡◌};
ghost use Rattle.udp_tables.specs.Ports.{is_port, port_number, event_of, is_input_port};

use crate::models::VPort;
use cell_machine::{Direction, Event, Pin};

/// Whether a pin is a port of the models of its cell: an input or an output.
pub fn is_port(pin: &Pin) -> bool
    ensures { result ≡ is_port pin.now }
{
    match pin.direction {
        Direction::Input | Direction::Output => true,
        Direction::Internal => false,
    }
}

/// The number of a pin among the ports, from 0: how many ports stand before it.
pub fn port_number(pins: &[Pin], pin: usize) -> usize
    ensures { result ≡ port_number pins.now pin }
{
    pins.iter().take(pin).filter(|pin| is_port(pin)).count()
}

/// The event of a pin as one of its port.
pub fn event_of(pins: &[Pin], event: Event) -> Event
    ensures { result ≡ event_of pins.now event }
{
    Event {
        pin: port_number(pins, event.pin),
        edge: event.edge,
    }
}

/// Whether this is the number of an input port of a model.
pub fn is_input_port(ports: &[VPort], port: usize) -> bool
    ensures { result ≡ is_input_port ports.now port }
{
    match ports.get(port) {
        Some(port) => port.input,
        None => false,
    }
}
