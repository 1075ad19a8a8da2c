//! A section behind its core, by recursive descent. (IEEE 1076-1993, 9.2.)

ghost use Rattle.grammar_reader.specs.Reading.{read, Reads, Token};
ghost use Rattle.grammar_reader.specs.declared.refusal.Refusal.TheVariants.{Syntax};
ghost use Rattle.vhdl_drivers.specs.DriverSections as spec;

use crate::buffers::{buffers, process_start};
use crate::driven_lines::Outputs;
use crate::variables::driven_variables;
use driven_traces::DrivePath;
use driver_models::DriverModel;
use driver_texts::{CoreCall, SectionFront, driven_names, driver_of, nothing_left};
use grammar_reader::{Read, Stop};
use sqlite_items::Items;
use std::alloc::Global;
use udp_tables::VPort;
use vhdl_grammar::{Cursor, expect_all};

/// The statements of a driver with these ports, of whose outputs these are driven: the paths to them.
#[tactic(auto, unfolding(crate::specs::DriverSections::statements))]
fn statements(
    cursor: &mut Cursor,
    alloc: Global,
    ports: &[VPort],
    drives: &[usize],
    glitches: &[bool],
) -> Read<Items<DrivePath>>
    ensures { Reads (read (spec.statements ports.now drives.now glitches.now) cursor.old) result cursor.new }
{
    cursor.expect(b"begin")?;
    buffers(cursor, drives.len())?;
    let names = driven_names(alloc, ports, drives)?;
    let outputs = Outputs {
        alloc,
        ports,
        glitches,
    };
    outputs.lines(cursor, names.as_slice())
}

/// The process of a driver with these ports, of whose outputs these are driven: the paths to them.
#[tactic(auto, unfolding(crate::specs::DriverSections::process))]
fn process(
    cursor: &mut Cursor,
    alloc: Global,
    ports: &[VPort],
    drives: &[usize],
) -> Read<Items<DrivePath>>
    ensures { Reads (read (spec.process ports.now drives.now) cursor.old) result cursor.new }
{
    process_start(cursor, alloc, ports, drives.len())?;
    let glitches = driven_variables(cursor, alloc, drives.len())?;
    statements(cursor, alloc, ports, drives, glitches.as_slice())
}

/// The end of the process, where a name would begin another statement.
fn process_end(cursor: &mut Cursor) -> Read<()>
    ensures { Reads (read (Token spec.is_end Syntax) cursor.old) result cursor.new }
{
    if !cursor.is_next(b"end") {
        return Err(Stop::Refused(cursor.no_name()));
    }
    cursor.skip();
    Ok(())
}

/// The end of a section, with nothing behind it.
#[tactic(auto, unfolding(crate::specs::DriverSections::section_end))]
fn section_end(cursor: &mut Cursor) -> Read<()>
    ensures { Reads (read spec.section_end cursor.old) result cursor.new }
{
    process_end(cursor)?;
    expect_all(cursor, &[b"process", b";", b"end", b"driven", b";"])?;
    nothing_left(cursor)
}

/// The rest of a section behind its core.
#[tactic(auto, unfolding(crate::specs::DriverSections::section_process))]
pub(crate) fn section_process(
    cursor: &mut Cursor,
    alloc: Global,
    front: SectionFront,
    call: CoreCall,
) -> Read<DriverModel>
    ensures { Reads (read (spec.section_process front call) cursor.old) result cursor.new }
{
    let paths = process(
        cursor,
        alloc,
        front.ports.as_slice(),
        call.drives.as_slice(),
    )?;
    section_end(cursor)?;
    Ok(driver_of(front, call, paths))
}
