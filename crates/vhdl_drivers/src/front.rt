//! What a section begins with, by recursive descent: the name of a driver and its ports. (IEEE 1076-1993, 1.1, 1.2 and 10.4.)

ghost use Rattle.grammar_reader.specs.Reading.{read, Reads};
ghost use Rattle.vhdl_drivers.specs.DriverSections as spec;

use crate::language::VitalDrivers;
use driver_models::KnownNames;
use driver_texts::{SectionFront, fresh_name};
use grammar_reader::{Read, Refusal, Stop};
use sqlite_items::Items;
use std::alloc::Global;
use udp_tables::VPort;
use vhdl_declarations_reader::{packages, port_list};
use vhdl_grammar::{Cursor, expect_all};

/// The packages that a driver uses.
#[tactic(auto, unfolding(crate::specs::DriverSections::driver_packages))]
fn driver_packages(cursor: &mut Cursor) -> Read<()>
    ensures { Reads (read spec.driver_packages cursor.old) result cursor.new }
{
    expect_all(cursor, &[b"use", b"work", b".", b"all", b";", b"library"])?;
    packages(cursor)
}

/// A place where the word of a driver's architecture does not stand next.
fn not_driven(cursor: &Cursor) -> Read<()>
    ensures { Reads (read spec.not_driven cursor.now) result cursor.now }
{
    if cursor.left() == 0 || cursor.is_next(b"driven") {
        return Err(Stop::Refused(Refusal::Syntax));
    }
    Ok(())
}

/// The name of the driver, which is none of these.
#[tactic(auto, unfolding(crate::specs::DriverSections::driver_name))]
fn driver_name(
    cursor: &mut Cursor,
    alloc: Global,
    names: &KnownNames<VitalDrivers>,
) -> Read<Items<u8>>
    ensures { Reads (read (spec.driver_name names.now) cursor.old) result cursor.new }
{
    not_driven(cursor)?;
    fresh_name(cursor, alloc, names)
}

/// The name of this driver again.
#[tactic(auto, unfolding(crate::specs::DriverSections::this_driver))]
fn this_driver(cursor: &mut Cursor, name: &[u8]) -> Read<()>
    ensures { Reads (read (spec.this_driver name.now) cursor.old) result cursor.new }
{
    not_driven(cursor)?;
    cursor.this_name(name)
}

/// The end of the header of this driver, and the header of its architecture.
#[tactic(auto, unfolding(crate::specs::DriverSections::header_end))]
fn header_end(cursor: &mut Cursor, name: &[u8]) -> Read<()>
    ensures { Reads (read (spec.header_end name.now) cursor.old) result cursor.new }
{
    cursor.expect(b"end")?;
    this_driver(cursor, name)?;
    expect_all(cursor, &[b";", b"architecture", b"driven", b"of"])?;
    this_driver(cursor, name)?;
    cursor.expect(b"is")
}

/// The ports of a driver.
#[tactic(auto, unfolding(crate::specs::DriverSections::driver_ports))]
fn driver_ports(cursor: &mut Cursor, alloc: Global) -> Read<Items<VPort>>
    ensures { Reads (read spec.driver_ports cursor.old) result cursor.new }
{
    cursor.expect(b"port")?;
    let ports = port_list(cursor, alloc, b"")?;
    Ok(ports.into_items())
}

/// What a section begins with, where these names are taken.
#[tactic(auto, unfolding(crate::specs::DriverSections::section_front))]
pub(crate) fn section_front(
    cursor: &mut Cursor,
    alloc: Global,
    names: &KnownNames<VitalDrivers>,
) -> Read<SectionFront>
    ensures { Reads (read (spec.section_front names.now) cursor.old) result cursor.new }
{
    driver_packages(cursor)?;
    cursor.expect(b"entity")?;
    let name = driver_name(cursor, alloc, names)?;
    cursor.expect(b"is")?;
    let ports = driver_ports(cursor, alloc)?;
    header_end(cursor, name.as_slice())?;
    Ok(SectionFront { name, ports })
}
