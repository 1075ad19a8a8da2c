//! The names of driven outputs.
ghost use Rattle.std.specs.Prelude.{◌≡◌, IfOk};
ghost use Rattle.driver_texts.specs.NumberedPorts.{driven_names, numbered_ports};

use crate::numbered_ports::{Counts, counts_with, port_number};
use sqlite_items::Items;
use std::alloc::{AllocError, Global};
use udp_tables::VPort;

/// The names of the driven outputs among these ports, where these outputs are driven. An `Err` comes only where memory is
/// wanting.
pub fn driven_names(
    alloc: Global,
    ports: &[VPort],
    drives: &[usize],
) -> Result<Items<Items<u8>>, AllocError>
    ensures { IfOk result (λ names. names ≡ driven_names (numbered_ports drives.now 0 0 ports.now)) }
{
    let mut names = Items::new(alloc);
    let mut before = Counts {
        outputs: 0,
        driven: 0,
    };
    for port in ports {
        let number = port_number(drives, before, port);
        if number.is_some() {
            names.push(Items::from_slice(alloc, port.name.as_slice())?)?;
        }
        before = counts_with(before, port, number);
    }
    Ok(names)
}
