//! The ports of a cell's module.
ghost use Rattle.std.specs.Prelude.{◌≡◌, IfOk};
ghost use Rattle.specify_blocks.specs.Ports.{port_name, port_of, ports_of};

use cell_machine::{Direction, Pin};
use cell_tables::numbered_name;
use sqlite_items::Items;
use std::alloc::{AllocError, Global};
use udp_tables::{SmallBytes, VPort, is_port};
use verilog_tokens::is_kept_port_name;

/// The ports of the module of a cell with these pins: its input and output pins in their order, with the names that Verilog
/// keeps, and `pin` with the port's number from 1 for the others.
pub fn verilog_ports(alloc: Global, pins: &[Pin]) -> Result<Items<VPort>, AllocError>
    ensures { IfOk result (λ ports. ports ≡ ports_of pins.now) }
{
    let mut ports = Items::new(alloc);
    for pin in pins {
        if is_port(pin) {
            ports.push(port_of(alloc, ports.len() + 1, pin)?)?;
        }
    }
    Ok(ports)
}

/// The port of a pin.
fn port_of(alloc: Global, number: usize, pin: &Pin) -> Result<VPort, AllocError>
    ensures { IfOk result (λ port. port ≡ port_of number pin.now) }
{
    Ok(VPort {
        name: port_name(alloc, number, pin.name.as_slice())?,
        input: pin.direction == Direction::Input,
    })
}

/// The name of a port: the pin's, or one by its number.
fn port_name(alloc: Global, number: usize, name: &[u8]) -> Result<SmallBytes, AllocError>
    ensures { IfOk result (λ port. port ≡ port_name number name.now) }
{
    if is_kept_port_name(name) {
        Ok(SmallBytes::from_slice(alloc, name)?)
    } else {
        let name = numbered_name(alloc, b"pin", number)?;
        Ok(SmallBytes::from_items(alloc, name)?)
    }
}
