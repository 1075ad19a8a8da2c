//! The wires of a driver and the instance of its core, by recursive descent. (IEEE 1364-2005, 3.3 and 12.1.2.)

ghost use Rattle.grammar_reader.specs.Reading.{read, Reads};
ghost use Rattle.verilog_drivers.specs.DriverSections as spec;

use crate::language::{Cursor, VerilogDrivers};
use driver_models::{Cores, core_name, core_terminals, declared_wires};
use driver_texts::CoreCall;
use grammar_reader::{Read, with_end};
use std::alloc::Global;
use udp_tables::VPort;

/// The wires of a driver: how many lead to inputs of buffers.
#[tactic(auto, unfolding(crate::specs::DriverSections::driver_wires))]
pub(crate) fn driver_wires(cursor: &mut Cursor, alloc: Global) -> Read<usize>
    ensures { Reads (read spec.driver_wires cursor.old) result cursor.new }
{
    declared_wires::<VerilogDrivers>(cursor, alloc, b"wire", &[b";"])
}

/// The instance of the core.
#[tactic(auto, unfolding(crate::specs::DriverSections::core_call))]
pub(crate) fn core_call(
    cursor: &mut Cursor,
    alloc: Global,
    cores: &Cores<'_, VerilogDrivers>,
    ports: &[VPort],
    driven: usize,
) -> Read<CoreCall>
    ensures { Reads (read (spec.core_call cores.now ports.now driven) cursor.old) result cursor.new }
{
    let core = core_name(cursor, alloc, cores, ports, driven)?;
    cursor.this_name(b"lib_u")?;
    cursor.expect(b"(")?;
    let drives = core_terminals::<VerilogDrivers>(cursor, alloc, ports, driven)?;
    with_end(cursor, &[b")", b";"], CoreCall { core, drives })
}
