//! A library that is cut at each of its bytes: the cells that ended before the cut are written.
use crate::tests::runs::{
    CORE_ENTITY, DRIVER_ENTITY, FIRST_ENTITY, FIRST_MODULE, Left, NO_MODULE, PIECES,
    SECOND_MODULES, Status, THREE_CELLS, THREE_ENTITIES, THREE_LINES, THREE_MODULES, TRANSLATE,
    library_alone, ran,
};
use std::alloc::Global;
use std::test::Fail;
use table_tests::{Row, all_hold};
use text_io::OutSlot;

/// The status, of how many cells the models are written, and how many lines the report has, where the library is cut to this
/// length.
fn cut_to(length: usize) -> (u8, usize, usize) {
    match length {
        0..=107 => (2, 0, 0),
        108..=219 => (2, 1, 1),
        220..=313 => (2, 2, 2),
        314..=315 => (2, 3, 3),
        _ => (0, 3, 4),
    }
}

/// Whether these texts were written, in Verilog and in VHDL.
fn has_texts(left: &Left, verilog: &[&str], vital: &[&str]) -> bool {
    left.wrote(OutSlot::VerilogText, verilog) && left.wrote(OutSlot::VitalText, vital)
}

/// Whether the models of so many cells were written.
fn has_models(left: &Left, count: usize) -> bool {
    match count {
        0 => has_texts(left, &[NO_MODULE], &[]),
        1 => has_texts(left, &[FIRST_MODULE], &[FIRST_ENTITY]),
        2 => has_texts(
            left,
            &[FIRST_MODULE, SECOND_MODULES],
            &[FIRST_ENTITY, CORE_ENTITY, DRIVER_ENTITY],
        ),
        _ => has_texts(left, &THREE_MODULES, &THREE_ENTITIES),
    }
}

/// Whether the report is so many lines of the whole one.
fn has_lines(left: &Left, count: usize) -> bool {
    let report = left.desk.written(OutSlot::Report);
    left.wrote_front(OutSlot::Report, &[THREE_LINES])
        && report.iter().filter(|byte| **byte == b'\n').count() == count
}

/// Translates the library of three cells, cut to this length, where a call moves at most `piece` bytes; nothing where memory is
/// short.
fn translated_to(alloc: Global, length: usize, piece: usize) -> Option<Left> {
    let library = THREE_CELLS.as_bytes().get(..length)?;
    ran(alloc, &TRANSLATE, library_alone(library), &[], piece).ok()
}

/// Whether a run left that for the library cut to this length.
fn is_left(left: &Left, length: usize) -> bool {
    let (code, models, lines) = cut_to(length);
    left.status.code() == code && has_models(left, models) && has_lines(left, lines)
}

/// Whether the library of three cells, cut to this length, comes to that, where a call moves at most `piece` bytes.
fn is_cut_well(alloc: Global, length: usize, piece: usize) -> bool {
    match &translated_to(alloc, length, piece) {
        Some(left) => is_left(left, length),
        None => false,
    }
}

/// How many bytes a call may move.
struct Piece(usize);

impl Row for Piece {
    fn holds(&self, alloc: Global) -> bool {
        for length in 0..=THREE_CELLS.len() {
            if !is_cut_well(alloc, length, self.0) {
                return false;
            }
        }
        true
    }
}

#[test]
fn cells_before_a_cut_are_written(rt: HostRuntime) -> Result<(), Fail> {
    all_hold(
        rt.alloc(),
        &[Piece(PIECES[0]), Piece(PIECES[1]), Piece(PIECES[2])],
    )
}

/// A length behind the end of the first cell, to which the library is cut, and the fault that is told then.
struct ToldCut(usize, &'static str);

impl ToldCut {
    /// Whether a run told it behind the first cell.
    fn is_told(&self, left: &Left) -> bool {
        left.is(Status::Library, "cell 1 INV ok\n", self.1)
    }
}

impl Row for ToldCut {
    fn holds(&self, alloc: Global) -> bool {
        match &translated_to(alloc, self.0, usize::MAX) {
            Some(left) => self.is_told(left),
            None => false,
        }
    }
}

const TOLD_CUTS: [ToldCut; 2] = [
    ToldCut(198, "library refused at 196: text not closed\n"),
    ToldCut(200, "library refused at 200: expected statement\n"),
];

#[test]
fn a_cut_is_told_where_it_is(rt: HostRuntime) -> Result<(), Fail> {
    all_hold(rt.alloc(), &TOLD_CUTS)
}
