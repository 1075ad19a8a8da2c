//! The calls of the paths of driven outputs, by recursive descent. (IEEE 1076.4-2000, VitalPathDelay01.)

ghost use Rattle.std.specs.Prelude.{◌<◌, ◌^◌};
ghost use Rattle.grammar_reader.specs.Reading.{read, Reads, ReadsAs};
ghost use Rattle.vhdl_drivers.specs.DriverSections as spec;

use crate::buffers::numbered_word;
use driven_traces::DrivePath;
use driver_models::path_from;
use grammar_reader::{Read, Refusal, RepeatedPart, Stop, one_or_more};
use sqlite_items::Items;
use std::alloc::Global;
use udp_tables::VPort;
use vhdl_grammar::{Cursor, Vhdl, expect_all, this_number};
use vhdl_outputs_reader::delays;
use vhdl_tokens::is_quoted;

/// A path from one of these ports to the driven output with this number, from 0.
#[derive(Drop)]
struct NextPath<'a> {
    ports: &'a [VPort],
    drive: usize,
}

impl RepeatedPart<Vhdl> for NextPath<'_> {
    type Found = Items<DrivePath>;

    ghost reading = { λ path paths s. read (spec.drive_path path.ports.now path.drive paths) s };

    #[tactic(auto, unfolding(crate::specs::DriverSections::drive_path))]
    fn next(&self, cursor: &mut Cursor<'_>, mut paths: Items<DrivePath>) -> Read<Items<DrivePath>> {
        this_number(cursor, paths.len())?;
        expect_all(cursor, &[b"=>", b"("])?;
        let from = path_from(cursor, self.ports)?;
        expect_all(cursor, &[b"'", b"last_event", b","])?;
        let (rise, fall) = delays(cursor)?;
        expect_all(cursor, &[b"true", b")"])?;
        paths.push(DrivePath {
            from,
            drive: self.drive,
            rise,
            fall,
        })?;
        Ok(paths)
    }
}

/// The text of this name.
#[tactic(auto, using(crate::proofs::NamedTexts::text_fits, crate::proofs::NamedTexts::text_other))]
fn text_of_name(cursor: &mut Cursor, name: &[u8]) -> Read<()>
    ensures { Reads (read (spec.text_of_name name.now) cursor.old) result cursor.new }
{
    if !is_quoted(cursor.bytes(), name) {
        return Err(Stop::Refused(Refusal::Syntax));
    }
    cursor.skip();
    Ok(())
}

/// The start of the call of the paths of the driven output with this number, from 0, and this name.
#[tactic(auto, unfolding(crate::specs::DriverSections::path_call_start))]
fn path_call_start(cursor: &mut Cursor, number: usize, name: &[u8]) -> Read<()>
    requires { number < 2 ^ 63 }
    ensures { Reads (read (spec.path_call_start number name.now) cursor.old) result cursor.new }
{
    expect_all(cursor, &[b"(", b"OutSignal", b"=>"])?;
    cursor.this_name(name)?;
    expect_all(cursor, &[b",", b"GlitchData", b"=>"])?;
    numbered_word(cursor, b"g_", number + 1)?;
    expect_all(cursor, &[b",", b"OutSignalName", b"=>"])?;
    text_of_name(cursor, name)?;
    expect_all(cursor, &[b",", b"OutTemp", b"=>"])?;
    numbered_word(cursor, b"z_", number + 1)?;
    expect_all(cursor, &[b",", b"Paths", b"=>", b"("])
}

/// The call of the paths from these ports to the driven output with this number, from 0, and this name. They stand behind the
/// paths that were found before then.
#[tactic(auto, unfolding(crate::specs::DriverSections::path_call, crate::specs::DriverSections::drive_paths))]
pub(crate) fn path_call(
    cursor: &mut Cursor,
    alloc: Global,
    ports: &[VPort],
    number: usize,
    name: &[u8],
    found: &mut Items<DrivePath>,
) -> Read<()>
    requires { number < 2 ^ 63 }
    ensures { ReadsAs (λ _. found.new) (read (spec.path_call ports.now number name.now found.old) cursor.old) result cursor.new }
{
    cursor.this_name(b"VitalPathDelay01")?;
    path_call_start(cursor, number, name)?;
    let next = NextPath {
        ports,
        drive: number,
    };
    let own = one_or_more(cursor, b",", &next, Items::new(alloc))?;
    expect_all(
        cursor,
        &[b")", b",", b"Mode", b"=>", b"VitalTransport", b")", b";"],
    )?;
    found.append(own)?;
    Ok(())
}
