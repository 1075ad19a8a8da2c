//! A section, by recursive descent. (IEEE 1364-2005, 12.1 and 19.1.)

ghost use Rattle.grammar_reader.specs.Reading.{read, Reads, ReadsAs};
ghost use Rattle.verilog_drivers.specs.DriverSections as spec;
ghost use Rattle.verilog_drivers.specs.Sections.{body_of};

use crate::core_call::{core_call, driver_wires};
use crate::drive_paths::DriverPaths;
use crate::language::{Cursor, VerilogDrivers};
use crate::ports::driver_ports;
use crate::read_buffers::buffers;
use driven_traces::DrivePath;
use driver_models::{Cores, DriverModel, KnownNames};
use driver_texts::{
    CoreCall, DriverSections, SectionFront, driven_names, driver_of, fresh_name, nothing_left,
};
use grammar_reader::Read;
use lexer::Scan;
use sqlite_items::Items;
use std::alloc::{AllocError, Global};
use udp_tables::VPort;
use verilog_tokens::scan;

/// What stands behind the ports: the core, and the paths.
#[derive(Drop)]
struct SectionBody {
    call: CoreCall,
    paths: Items<DrivePath>,
}

/// What stands behind these ports, where the models that may be cores are these.
#[tactic(auto, unfolding(crate::specs::DriverSections::section_body))]
fn section_body(
    cursor: &mut Cursor,
    alloc: Global,
    cores: &Cores<'_, VerilogDrivers>,
    ports: &[VPort],
) -> Read<SectionBody>
    ensures { ReadsAs body_of (read (spec.section_body cores.now ports.now) cursor.old) result cursor.new }
{
    let driven = driver_wires(cursor, alloc)?;
    let call = core_call(cursor, alloc, cores, ports, driven)?;
    let outputs = driven_names(alloc, ports, call.drives.as_slice())?;
    buffers(cursor, alloc, outputs.as_slice())?;
    let lines = DriverPaths {
        alloc,
        ports,
        drives: call.drives.as_slice(),
    };
    let paths = lines.read(cursor)?;
    Ok(SectionBody { call, paths })
}

/// The end of a section, with nothing behind it.
#[tactic(auto, unfolding(crate::specs::DriverSections::section_end))]
fn section_end(cursor: &mut Cursor) -> Read<()>
    ensures { Reads (read spec.section_end cursor.old) result cursor.new }
{
    cursor.expect(b"endmodule")?;
    cursor.expect(b"`endcelldefine")?;
    nothing_left(cursor)
}

impl DriverSections for VerilogDrivers {
    ghost use Rattle.verilog_drivers.specs.DriverSections.{verilog_section_grammar};

    ghost grammar = { verilog_section_grammar };

    fn scan(alloc: Global, text: &[u8]) -> Result<Scan, AllocError> {
        scan(alloc, text)
    }

    #[tactic(auto, unfolding(crate::specs::DriverSections::section_front))]
    fn front(
        cursor: &mut Cursor,
        alloc: Global,
        names: &KnownNames<VerilogDrivers>,
    ) -> Read<SectionFront> {
        cursor.expect(b"`celldefine")?;
        cursor.expect(b"module")?;
        let name = fresh_name(cursor, alloc, names)?;
        let ports = driver_ports(cursor, alloc)?;
        Ok(SectionFront { name, ports })
    }

    #[tactic(auto, unfolding(crate::specs::DriverSections::section_rest))]
    fn rest(
        cursor: &mut Cursor,
        alloc: Global,
        cores: &Cores<'_, VerilogDrivers>,
        front: SectionFront,
    ) -> Read<DriverModel> {
        let body = section_body(cursor, alloc, cores, front.ports.as_slice())?;
        section_end(cursor)?;
        Ok(driver_of(front, body.call, body.paths))
    }
}
