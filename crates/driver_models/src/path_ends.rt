//! The ends of a path.
ghost use Rattle.std.specs.Prelude.{◌≡◌, nat_eq, position};
ghost use Rattle.grammar_reader.specs.Reading.{read, Reads};
ghost use Rattle.grammar_reader.specs.Words.{known};
ghost use Rattle.driver_models.specs.PathEnds as spec;

use grammar_reader::{Cursor, Language, Read};
use udp_tables::VPort;

/// The number of the input of a name, among the inputs.
fn input_number<L: Language>(ports: &[VPort], name: &[u8]) -> Option<usize>
    ensures { result ≡ spec.input_number L.is_same ports.now name.now }
{
    let mut number = 0;
    for port in ports {
        if port.input {
            if L::is_same(name, port.name.as_slice()) {
                return Some(number);
            }
            number += 1;
        }
    }
    None
}

/// The number of the output of a name, among the outputs.
fn output_number<L: Language>(ports: &[VPort], name: &[u8]) -> Option<usize>
    ensures { result ≡ spec.output_from L.is_same 0 ports.now name.now }
{
    let mut number = 0;
    for port in ports {
        if !port.input {
            if L::is_same(name, port.name.as_slice()) {
                return Some(number);
            }
            number += 1;
        }
    }
    None
}

/// The number of a place among these.
fn place_among(drives: &[usize], place: usize) -> Option<usize>
    ensures { result ≡ position (λ driven. nat_eq driven place) drives.now }
{
    drives.iter().position(|driven| *driven == place)
}

/// The number of the driven output of a name, among the driven ones, which stand at these places.
fn drive_number<L: Language>(ports: &[VPort], drives: &[usize], name: &[u8]) -> Option<usize>
    ensures { result ≡ spec.drive_number L.is_same ports.now drives.now name.now }
{
    match output_number::<L>(ports, name) {
        None => None,
        Some(place) => place_among(drives, place),
    }
}

/// The start of a path: the number among the inputs of the input of this name.
pub fn path_from<L: Language>(cursor: &mut Cursor<'_, L>, ports: &[VPort]) -> Read<usize>
    ensures { Reads (read (known L.is_name (spec.input_number L.is_same ports.now)) cursor.old) result cursor.new }
{
    let found = input_number::<L>(ports, cursor.bytes());
    cursor.known(found)
}

/// The end of a path: the number among the driven outputs, which stand at these places, of the one of this name.
pub fn path_to<L: Language>(
    cursor: &mut Cursor<'_, L>,
    ports: &[VPort],
    drives: &[usize],
) -> Read<usize>
    ensures { Reads (read (known L.is_name (spec.drive_number L.is_same ports.now drives.now)) cursor.old) result cursor.new }
{
    let found = drive_number::<L>(ports, drives, cursor.bytes());
    cursor.known(found)
}
