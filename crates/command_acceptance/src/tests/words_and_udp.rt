//! Runs of `udp` and of words without a reading.
use super::words_runs::{USAGE, WordsRun, prints, unread};
use crate::tests::runs::{
    Left, Limits, Status, desk_of, done, library_alone, ran_without_files, run, run_sure, words_of,
};
use std::alloc::Global;
use std::test::Fail;
use table_tests::{Row, all_hold};
use text_io::{Memory, MemoryDesk, OutSlot, SureDesk};

/// The primitive of a conjunction.
pub(crate) const AND: &str = "primitive AND2 (q, i1, i2);
  output q;
  input i1;
  input i2;
  table
    1 1 : 1;
    0 ? : 0;
    ? 0 : 0;
  endtable
endprimitive
";

/// The primitive of a multiplexer.
const MUX: &str = "primitive MUX2 (q, i1, i2, i3);
  output q;
  input i1;
  input i2;
  input i3;
  table
    1 0 ? : 1;
    1 ? 1 : 1;
    ? 1 1 : 1;
    0 0 ? : 0;
    0 ? 0 : 0;
    ? 1 0 : 0;
  endtable
endprimitive
";

const PRINTED: [WordsRun<'static>; 2] = [
    prints!(["udp", "AND2", "A*B"], AND),
    prints!(["udp", "MUX2", "(A*!S)+(B*S)"], MUX),
];

#[test]
fn primitives_are_printed(rt: HostRuntime) -> Result<(), Fail> {
    all_hold(rt.alloc(), &PRINTED)
}

/// Whether a run printed a row for each of the values of ten names.
fn has_all_rows(left: &Left) -> bool {
    let report = left.desk.written(OutSlot::Report);
    left.status == Status::Done && report.iter().filter(|byte| **byte == b':').count() == 1024
}

/// Whether a function has a row for each of the values of ten names.
fn prints_all_rows(alloc: Global, function: &str) -> Result<bool, Memory> {
    let left = ran_without_files(alloc, &["udp", "XOR", function])?;
    Ok(has_all_rows(&left))
}

#[test]
fn ten_names_are_read(rt: HostRuntime) -> Result<(), Fail> {
    assert!(rt; prints_all_rows(rt.alloc(), "A^B^C^D^E^F^G^H^I^J")?);
    Ok(())
}

const UNREAD: [WordsRun<'static>; 8] = [
    unread!("udp", "XOR", "A^B^C^D^E^F^G^H^I^J^K"),
    unread!("udp", "", "A"),
    unread!("udp", "endmodule", "A"),
    unread!("udp", "lib_a", "A"),
    unread!("udp", "cell5", "A"),
    unread!("udp", "AND2", "1"),
    unread!("udp", "AND2", "A*"),
    unread!("translated", "AND2", "A"),
];

#[test]
fn words_without_a_reading_are_usage(rt: HostRuntime) -> Result<(), Fail> {
    all_hold(rt.alloc(), &UNREAD)
}

/// Whether a function of 4,097 bytes has no reading.
fn is_too_long(alloc: Global) -> Result<bool, Memory> {
    let mut function = String::new(alloc);
    for _ in 0..2048 {
        function.push_str("A*")?;
    }
    function.push_str("A")?;
    Ok(unread!("udp", "AND2", function.as_str()).holds(alloc))
}

#[test]
fn functions_have_a_greatest_length(rt: HostRuntime) -> Result<(), Fail> {
    assert!(rt; is_too_long(rt.alloc())?);
    Ok(())
}

/// A desk with the words of a conjunction, and this room in each output, in bytes.
fn desk_with_room(alloc: Global, room: usize) -> Result<MemoryDesk, Memory> {
    let limits = Limits {
        failing: &[],
        room,
        piece: usize::MAX,
    };
    desk_of(alloc, &["udp", "AND2", "A*B"], library_alone(b""), limits)
}

/// Whether a run that fills the room of the report ends with what there was room for.
fn ends_where_it_is_full(alloc: Global) -> Result<bool, Memory> {
    let mut desk = desk_with_room(alloc, 10)?;
    let status = run(alloc, &mut desk);
    let report = desk.written(OutSlot::Report);
    Ok(status.code() == 7 && report == b"primitive ".as_slice())
}

/// Whether a run over a desk on which no call fails is done.
fn is_done_for_sure(alloc: Global) -> Option<bool> {
    let words = words_of(alloc, &["udp", "AND2", "A*B"]).ok()?;
    let mut desk = SureDesk::new(words, Vec::new(alloc))?;
    Some(run_sure(alloc, &mut desk) == Status::Done)
}

#[test]
fn desks_that_are_full_or_sure(rt: HostRuntime) -> Result<(), Fail> {
    assert!(rt; ends_where_it_is_full(rt.alloc())?);
    assert!(rt; is_done_for_sure(rt.alloc()) == Some(true));
    Ok(())
}
