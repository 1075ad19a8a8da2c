//! The paths of a driver, by recursive descent. (IEEE 1364-2005, 14.2 and 14.3.)

ghost use Rattle.grammar_reader.specs.Reading.{read, Reads};
ghost use Rattle.verilog_grammar.specs.VerilogBlocks.{a_number};
ghost use Rattle.verilog_drivers.specs.DriverSections as spec;

use crate::language::Cursor;
use driven_traces::DrivePath;
use driver_models::{path_from, path_to};
use grammar_reader::{Read, with_end};
use sqlite_items::Items;
use std::alloc::Global;
use udp_tables::VPort;
use verilog_tokens::number_of;

/// The number that stands next.
#[tactic(auto, using(grammar_reader::proofs::Values::valued_found), unfolding(verilog_grammar::specs::VerilogBlocks::a_number))]
fn number(cursor: &mut Cursor) -> Read<u64>
    ensures { Reads (read a_number cursor.old) result cursor.new }
{
    let found = number_of(cursor.bytes());
    cursor.value(found)
}

/// What the paths of a driver are read by: its ports, and which of its outputs are driven.
#[derive(Clone, Copy)]
pub(crate) struct DriverPaths<'a> {
    pub(crate) alloc: Global,
    pub(crate) ports: &'a [VPort],
    pub(crate) drives: &'a [usize],
}

impl DriverPaths<'_> {
    /// A path, behind its first bracket.
    #[tactic(auto, unfolding(crate::specs::DriverSections::drive_path))]
    fn path(&self, cursor: &mut Cursor) -> Read<DrivePath>
        ensures { Reads (read (spec.drive_path self.now.ports.now self.now.drives.now) cursor.old) result cursor.new }
    {
        let from = path_from(cursor, self.ports)?;
        cursor.expect(b"=>")?;
        let drive = path_to(cursor, self.ports, self.drives)?;
        cursor.expect(b")")?;
        cursor.expect(b"=")?;
        cursor.expect(b"(")?;
        let rise = number(cursor)?;
        cursor.expect(b",")?;
        let fall = number(cursor)?;
        let path = DrivePath {
            from,
            drive,
            rise,
            fall,
        };
        with_end(cursor, &[b")", b";"], path)
    }

    /// The paths of a specify block, behind its word, and its end.
    #[tactic(auto, using(grammar_reader::proofs::Repeats::turns), unfolding(crate::specs::DriverSections::drive_block, crate::specs::DriverSections::next_drive_path))]
    fn block(&self, cursor: &mut Cursor) -> Read<Items<DrivePath>>
        ensures { Reads (read (spec.drive_block self.now.ports.now self.now.drives.now) cursor.old) result cursor.new }
    {
        let mut paths = Items::new(self.alloc);
        for _turn in 0..cursor.left() {
            if !cursor.is_next(b"(") {
                break;
            }
            cursor.skip();
            paths.push(self.path(cursor)?)?;
        }
        with_end(cursor, &[b"endspecify"], paths)
    }

    /// The paths of a driver, where it has a specify block.
    #[tactic(auto, using(grammar_reader::proofs::Repeats::choose_begun, grammar_reader::proofs::Repeats::choose_other), unfolding(crate::specs::DriverSections::drive_paths))]
    pub(crate) fn read(&self, cursor: &mut Cursor) -> Read<Items<DrivePath>>
        ensures { Reads (read (spec.drive_paths self.now.ports.now self.now.drives.now) cursor.old) result cursor.new }
    {
        if !cursor.is_next(b"specify") {
            return Ok(Items::new(self.alloc));
        }
        cursor.skip();
        self.block(cursor)
    }
}
