//! Files that are cut at each of their bytes.
use crate::tests::runs::{Files, Left, Status, ran};
use std::alloc::Global;

/// Which of the files is cut.
#[derive(Copy, Clone)]
pub(crate) enum File {
    Library,
    Verilog,
    Vital,
    Stimulus,
}

/// What a run comes to: the status, the report, and how the line of faults begins.
pub(crate) type Outcome = (Status, &'static str, &'static str);

/// What a run comes to where the file is cut to fewer bytes than this number.
pub(crate) type Cut = (usize, Outcome);

/// The bytes of a file.
fn bytes_of<'a>(files: Files<'a>, file: File) -> &'a [u8] {
    match file {
        File::Library => files.library,
        File::Verilog => files.verilog,
        File::Vital => files.vital,
        File::Stimulus => files.stimulus,
    }
}

/// These files with other bytes of one.
fn with_bytes<'a>(files: Files<'a>, file: File, bytes: &'a [u8]) -> Files<'a> {
    let mut changed = files;
    match file {
        File::Library => changed.library = bytes,
        File::Verilog => changed.verilog = bytes,
        File::Vital => changed.vital = bytes,
        File::Stimulus => changed.stimulus = bytes,
    }
    changed
}

/// The first of these cuts whose number is above a length.
fn cut_at(cuts: &[Cut], length: usize) -> Option<Cut> {
    for cut in cuts {
        if length < cut.0 {
            return Some(*cut);
        }
    }
    None
}

/// What words leave where a file is cut to this length and a call moves at most 7 bytes; nothing where memory is short.
fn left_by(
    alloc: Global,
    words: &[&str],
    files: Files<'_>,
    file: File,
    length: usize,
) -> Option<Left> {
    let front = bytes_of(files, file).get(..length)?;
    ran(alloc, words, with_bytes(files, file, front), &[], 7).ok()
}

/// Whether a run left what the first of these cuts says whose number is above a length.
fn is_cut_well(left: &Option<Left>, cuts: &[Cut], length: usize) -> bool {
    match (left, cut_at(cuts, length)) {
        (Some(left), Some((_, (status, report, faults)))) => left.begins(status, report, faults),
        _ => false,
    }
}

/// Whether words come to what they have to wherever a file is cut, and where it is whole.
pub(crate) fn is_each_cut_well(
    alloc: Global,
    words: &[&str],
    files: Files<'_>,
    file: File,
    cuts: &[Cut],
) -> bool {
    for length in 0..=bytes_of(files, file).len() {
        if !is_cut_well(&left_by(alloc, words, files, file, length), cuts, length) {
            return false;
        }
    }
    true
}
