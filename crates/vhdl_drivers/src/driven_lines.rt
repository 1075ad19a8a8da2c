//! The lines of driven outputs, by recursive descent. (IEEE 1076.4-2000, VitalPathDelay01; IEEE 1076-1993, 8.4.)

ghost use Rattle.std.specs.Prelude.{◌≡◌, ◌<◌, ◌^◌, []};
ghost use Rattle.grammar_reader.specs.Reading.{read, Reads, ReadsAs};
ghost use Rattle.vhdl_drivers.specs.DriverSections as spec;

use crate::buffers::numbered_word;
use crate::path_calls::path_call;
use driven_traces::DrivePath;
use grammar_reader::Read;
use sqlite_items::Items;
use std::alloc::Global;
use udp_tables::VPort;
use vhdl_grammar::Cursor;

/// The assignment of the driven output with this number, from 0, and this name, which has no paths.
#[tactic(auto, unfolding(crate::specs::DriverSections::assignment))]
fn assignment(cursor: &mut Cursor, number: usize, name: &[u8]) -> Read<()>
    requires { number < 2 ^ 63 }
    ensures { Reads (read (spec.assignment number name.now) cursor.old) result cursor.new }
{
    cursor.this_name(name)?;
    cursor.expect(b"<=")?;
    numbered_word(cursor, b"z_", number + 1)?;
    cursor.expect(b";")
}

/// Whether the driven output with this number, from 0, has data of its delays.
fn has_glitch(glitches: &[bool], number: usize) -> bool
    ensures { result ≡ spec.has_glitch glitches.now number }
{
    match glitches.get(number) {
        Some(has) => *has,
        None => false,
    }
}

/// What the lines of driven outputs are read by: the ports, and for each driven output whether it has data of its delays.
#[derive(Drop)]
pub(crate) struct Outputs<'a> {
    pub(crate) alloc: Global,
    pub(crate) ports: &'a [VPort],
    pub(crate) glitches: &'a [bool],
}

impl Outputs<'_> {
    /// The line of the driven output with this number, from 0, and this name. Its paths stand behind those found before then.
    fn line(
        &self,
        cursor: &mut Cursor,
        number: usize,
        name: &[u8],
        found: &mut Items<DrivePath>,
    ) -> Read<()>
        requires { number < 2 ^ 63 }
        ensures { ReadsAs (λ _. found.new) (read (spec.line_by self.now.ports.now number name.now found.old
            (spec.has_glitch self.now.glitches.now number)) cursor.old) result cursor.new }
    {
        if has_glitch(self.glitches, number) {
            return path_call(cursor, self.alloc, self.ports, number, name, found);
        }
        assignment(cursor, number, name)?;
        Ok(())
    }

    /// The lines of the driven outputs with these names: the paths to them.
    pub(crate) fn lines(&self, cursor: &mut Cursor, names: &[Items<u8>]) -> Read<Items<DrivePath>>
        ensures { Reads (read (spec.driven_lines self.now.ports.now self.now.glitches.now 0 names.now []) cursor.old) result
            cursor.new }
    {
        let mut found = Items::new(self.alloc);
        for (number, name) in names.iter().enumerate() {
            self.line(cursor, number, name.as_slice(), &mut found)?;
        }
        Ok(found)
    }
}
