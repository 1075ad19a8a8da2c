//! The ports of a cell's entity.
ghost use Rattle.std.specs.Prelude.{◌≡◌, IfOk};
ghost use Rattle.vital_models.specs.Kept.{port_name};
ghost use Rattle.vital_models.specs.Ports.{port_after, ports_of};

use crate::kept::is_kept_port_name;
use cell_machine::{Direction, Pin};
use sqlite_items::Items;
use std::alloc::{AllocError, Global};
use vhdl_tokens::numbered_name;
use vital_tables::primitives::{SmallBytes, VPort, is_port};

/// The ports of the entity with this name, of a cell with these pins: its input and output pins in their order, with the names
/// that VHDL keeps, and `pin` with the port's number from 1 for the others. A name is kept where it is a letter followed by
/// letters and digits and, whatever the case of its letters, no word of VHDL or of an entity's text, not begun with `vital`, not
/// `pin` followed by a number, and neither the entity's nor an earlier port's. `AllocError` comes only where memory is wanting.
pub fn vital_ports(alloc: Global, pins: &[Pin], entity: &[u8]) -> Result<Items<VPort>, AllocError>
    ensures { IfOk result (λ ports. ports ≡ ports_of entity.now pins.now) }
{
    let mut ports = Items::new(alloc);
    for pin in pins {
        if is_port(pin) {
            let port = port_after(alloc, entity, ports.as_slice(), pin)?;
            ports.push(port)?;
        }
    }
    Ok(ports)
}

/// The port of a pin, after these ports.
fn port_after(alloc: Global, entity: &[u8], ports: &[VPort], pin: &Pin) -> Result<VPort, AllocError>
    ensures { IfOk result (λ port. port ≡ port_after entity.now ports.now pin.now) }
{
    Ok(VPort {
        name: port_name(alloc, entity, ports, pin.name.as_slice())?,
        input: pin.direction == Direction::Input,
    })
}

/// The name of a port: the pin's, or one by its number.
fn port_name(
    alloc: Global,
    entity: &[u8],
    ports: &[VPort],
    name: &[u8],
) -> Result<SmallBytes, AllocError>
    ensures { IfOk result (λ port. port ≡ port_name entity.now ports.now name.now) }
{
    if is_kept_port_name(entity, ports, name) {
        Ok(SmallBytes::from_slice(alloc, name)?)
    } else {
        let name = numbered_name(alloc, b"pin", ports.len() + 1)?;
        Ok(SmallBytes::from_items(alloc, name)?)
    }
}
