//! The ports of a driver, by recursive descent. (IEEE 1364-2005, 12.3.)

ghost use Rattle.grammar_reader.specs.Reading.{read, Reads};
ghost use Rattle.verilog_drivers.specs.DriverSections as spec;

use grammar_reader::{Read, Refusal, Stop, with_end};
use sqlite_items::Items;
use std::alloc::Global;
use udp_tables::VPort;
use verilog_grammar::{Inputs, module_inputs, module_outputs, some_ports};
use verilog_udp_reader::Cursor;

/// A place where a name stands next.
fn name_follows(cursor: &Cursor) -> Read<()>
    ensures { Reads (read spec.name_follows cursor.now) result cursor.now }
{
    if !cursor.is_next_name() {
        return Err(Stop::Refused(Refusal::Syntax));
    }
    Ok(())
}

/// The header of a driver, behind its name: it has a port.
#[tactic(auto, unfolding(crate::specs::DriverSections::driver_header))]
fn driver_header(cursor: &mut Cursor, alloc: Global) -> Read<Items<VPort>>
    ensures { Reads (read spec.driver_header cursor.old) result cursor.new }
{
    cursor.expect(b"(")?;
    name_follows(cursor)?;
    let ports = some_ports(cursor, alloc)?;
    with_end(cursor, &[b")", b";"], ports)
}

/// The ports of a driver, behind its name.
#[tactic(auto, unfolding(crate::specs::DriverSections::driver_ports))]
pub(crate) fn driver_ports(cursor: &mut Cursor, alloc: Global) -> Read<Items<VPort>>
    ensures { Reads (read spec.driver_ports cursor.old) result cursor.new }
{
    let plain = driver_header(cursor, alloc)?;
    let Inputs { ports, .. } = module_inputs(
        cursor,
        alloc,
        Inputs {
            ports: plain,
            behind: 0,
        },
    )?;
    module_outputs(cursor, ports.as_slice())?;
    Ok(ports)
}
