//! The buffers of a driver, by recursive descent. (IEEE 1364-2005, 7.4.)

ghost use Rattle.std.specs.Prelude.{◌<◌};
ghost use Rattle.grammar_reader.specs.Reading.{read, Reads};
ghost use Rattle.verilog_drivers.specs.DriverSections as spec;

use crate::language::Cursor;
use grammar_reader::{Read, RepeatedPart, Stop, while_next, with_end};
use sqlite_items::Items;
use std::alloc::Global;
use verilog_udp_reader::Verilog;
use vhdl_tokens::numbered_name;

/// The name of a word and a number.
fn numbered(cursor: &mut Cursor, alloc: Global, word: &[u8], number: usize) -> Read<()>
    ensures { Reads (read (spec.numbered_name word.now number) cursor.old) result cursor.new }
{
    let name = numbered_name(alloc, word, number)?;
    cursor.this_name(name.as_slice())
}

/// The data and the enable of the buffer with a number, from 0, behind its output: the number of the next one.
#[tactic(auto, unfolding(crate::specs::DriverSections::buffer_inputs))]
fn buffer_inputs(cursor: &mut Cursor, alloc: Global, number: usize) -> Read<usize>
    requires { number < 9223372036854775808 }
    ensures { Reads (read (spec.buffer_inputs number) cursor.old) result cursor.new }
{
    cursor.expect(b",")?;
    numbered(cursor, alloc, b"lib_d", number + 1)?;
    cursor.expect(b",")?;
    numbered(cursor, alloc, b"lib_e", number + 1)?;
    with_end(cursor, &[b")", b";"], number + 1)
}

/// A buffer, behind its word: at the next of these outputs.
#[derive(Drop)]
struct Buffer<'a> {
    alloc: Global,
    outputs: &'a [Items<u8>],
}

impl RepeatedPart<Verilog> for Buffer<'_> {
    type Found = usize;

    ghost use Rattle.grammar_reader.specs.Reading.{read};
    ghost use Rattle.verilog_drivers.specs.DriverSections as spec;

    ghost reading = { λ buffer number s. read (spec.buffer buffer.outputs.now number) s };

    #[tactic(auto, unfolding(crate::specs::DriverSections::buffer))]
    fn next(&self, cursor: &mut Cursor<'_>, number: usize) -> Read<usize> {
        cursor.expect(b"(")?;
        let Some(name) = self.outputs.get(number) else {
            return Err(Stop::Refused(cursor.no_name()));
        };
        cursor.this_name(name.as_slice())?;
        buffer_inputs(cursor, self.alloc, number)
    }
}

/// The buffers at these outputs, behind the core.
#[tactic(auto, unfolding(crate::specs::DriverSections::buffers))]
pub(crate) fn buffers(cursor: &mut Cursor, alloc: Global, outputs: &[Items<u8>]) -> Read<()>
    ensures { Reads (read (spec.buffers outputs.now) cursor.old) result cursor.new }
{
    let number = while_next(cursor, b"bufif1", &Buffer { alloc, outputs }, 0)?;
    cursor.go_on_where(number == outputs.len())
}
