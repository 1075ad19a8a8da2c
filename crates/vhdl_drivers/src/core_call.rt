//! The signals of a driver and the instance of its core, by recursive descent. (IEEE 1076-1993, 4.3.1.2 and 9.6.)

ghost use Rattle.grammar_reader.specs.Reading.{read, Reads};
ghost use Rattle.vhdl_drivers.specs.DriverSections as spec;

use crate::language::VitalDrivers;
use driver_models::{Cores, core_name, core_terminals, declared_wires};
use driver_texts::CoreCall;
use grammar_reader::{Read, with_end};
use sqlite_items::Items;
use std::alloc::Global;
use udp_tables::VPort;
use vhdl_grammar::{Cursor, expect_all};

/// The signals of a driver: how many lead to inputs of buffers.
#[tactic(auto, unfolding(crate::specs::DriverSections::driver_signals))]
fn driver_signals(cursor: &mut Cursor, alloc: Global) -> Read<usize>
    ensures { Reads (read spec.driver_signals cursor.old) result cursor.new }
{
    declared_wires::<VitalDrivers>(cursor, alloc, b"signal", &[b":", b"std_ulogic", b";"])
}

/// What stands before the name of the core.
#[tactic(auto, unfolding(crate::specs::DriverSections::core_start))]
fn core_start(cursor: &mut Cursor) -> Read<()>
    ensures { Reads (read spec.core_start cursor.old) result cursor.new }
{
    cursor.expect(b"begin")?;
    cursor.this_name(b"u_1")?;
    expect_all(cursor, &[b":", b"entity", b"work", b"."])
}

/// What stands behind the name of the core of a driver with these ports and so many driven outputs.
#[tactic(auto, unfolding(crate::specs::DriverSections::port_map))]
fn port_map(
    cursor: &mut Cursor,
    alloc: Global,
    ports: &[VPort],
    driven: usize,
) -> Read<Items<usize>>
    ensures { Reads (read (spec.port_map ports.now driven) cursor.old) result cursor.new }
{
    expect_all(cursor, &[b"port", b"map", b"("])?;
    let drives = core_terminals::<VitalDrivers>(cursor, alloc, ports, driven)?;
    with_end(cursor, &[b")", b";"], drives)
}

/// The signals, and the instance of the core, where the models that may be cores are these.
#[tactic(auto, unfolding(crate::specs::DriverSections::section_core, crate::specs::DriverSections::core_call))]
pub(crate) fn section_core(
    cursor: &mut Cursor,
    alloc: Global,
    cores: &Cores<'_, VitalDrivers>,
    ports: &[VPort],
) -> Read<CoreCall>
    ensures { Reads (read (spec.section_core cores.now ports.now) cursor.old) result cursor.new }
{
    let driven = driver_signals(cursor, alloc)?;
    core_start(cursor)?;
    let core = core_name(cursor, alloc, cores, ports, driven)?;
    let drives = port_map(cursor, alloc, ports, driven)?;
    Ok(CoreCall { core, drives })
}
