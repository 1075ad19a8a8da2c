//! Each of the files of a simulation and of a replay cut at each of its bytes, and a stimulus of one byte.
use super::cuts::{Cut, File, Outcome, is_each_cut_well};
use super::inverter::{REPORT, START, VERILOG_REPORT, VITAL_REPORT, four_files};
use crate::tests::runs::{Left, REPLAY_VERILOG, REPLAY_VITAL, SIMULATE, Status, ran};
use std::alloc::Global;
use std::test::Fail;
use table_tests::{Row, all_hold};
use text_io::Memory;

/// What the whole files come to: of a simulation, and of replays of the module and of the entity.
const SIMULATED: Outcome = (Status::Done, REPORT, "");

const MODULE_RUN: Outcome = (Status::Done, VERILOG_REPORT, "");

const ENTITY_RUN: Outcome = (Status::Done, VITAL_REPORT, "");

/// What a file comes to that ends too soon, and what a whole file without a model comes to.
const NO_LIBRARY: Outcome = (Status::Library, "", "library refused at ");

const NO_VERILOG: Outcome = (Status::Model, "", "verilog refused at ");

const NO_VITAL: Outcome = (Status::Model, "", "vital refused at ");

const NO_MODULE: Outcome = (Status::Model, "", "verilog ports: INV\n");

const NO_ENTITY: Outcome = (Status::Model, "", "vital ports: INV\n");

/// What a stimulus comes to that has no line, or whose line is cut, or of a cell that has no model.
const NO_LINE: Outcome = (Status::Done, "", "");

const CUT_HEAD: Outcome = (Status::Stimulus, "", "stimulus line 1: form\n");

const NO_CELL: Outcome = (Status::Stimulus, "", "stimulus line 1: unknown cell\n");

const CUT_CHANGE: Outcome = (Status::Stimulus, "", "stimulus line 2: form\n");

/// What a stimulus without a change comes to.
const NO_CHANGE: Outcome = (Status::Done, START, "");

const MODULE_START: Outcome = (Status::Done, "cell INV\nV start : Y=x\n", "");

/// Words, a file of the inverter that is cut, and what its fronts come to.
struct CutFile(&'static [&'static str], File, &'static [Cut]);

impl Row for CutFile {
    fn holds(&self, alloc: Global) -> bool {
        is_each_cut_well(alloc, self.0, four_files(), self.1, self.2)
    }
}

/// What the fronts of the Verilog file come to: this without the module, and this where it is whole.
macro_rules! cut_verilog {
    ($words:expr; $without:expr, $whole:expr) => {
        CutFile(
            &$words,
            File::Verilog,
            &[(18, NO_VERILOG), (20, $without), (193, NO_VERILOG), (usize::MAX, $whole)],
        )
    };
}

/// What the fronts of the stimulus come to: this without the change, and this where it is whole.
macro_rules! cut_stimulus {
    ($words:expr; $without:expr, $whole:expr) => {
        CutFile(
            &$words,
            File::Stimulus,
            &[(1, NO_LINE), (6, CUT_HEAD), (8, NO_CELL), (10, $without), (14, CUT_CHANGE), (usize::MAX, $whole)],
        )
    };
}

/// A library is refused, unless only its last line feed is cut off. The first line of a Verilog file is a whole file without a
/// module, and no byte is a whole VHDL file without an entity. A stimulus is read as far as it goes.
const CUT_FILES: [CutFile; 7] = [
    CutFile(
        &SIMULATE,
        File::Library,
        &[(110, NO_LIBRARY), (usize::MAX, SIMULATED)],
    ),
    cut_verilog!(SIMULATE; NO_MODULE, SIMULATED),
    CutFile(
        &SIMULATE,
        File::Vital,
        &[(1, NO_ENTITY), (448, NO_VITAL), (usize::MAX, SIMULATED)],
    ),
    cut_stimulus!(SIMULATE; NO_CHANGE, SIMULATED),
    cut_verilog!(REPLAY_VERILOG; NO_CELL, MODULE_RUN),
    cut_stimulus!(REPLAY_VERILOG; MODULE_START, MODULE_RUN),
    CutFile(
        &REPLAY_VITAL,
        File::Vital,
        &[(1, NO_CELL), (448, NO_VITAL), (usize::MAX, ENTITY_RUN)],
    ),
];

#[test]
fn files_are_refused_unless_they_are_whole(rt: HostRuntime) -> Result<(), Fail> {
    all_hold(rt.alloc(), &CUT_FILES)
}

/// What words leave over the files of the inverter with a stimulus of the byte 255.
fn ran_over_one_byte(alloc: Global, words: &[&str]) -> Result<Left, Memory> {
    let mut files = four_files();
    files.stimulus = b"\xff";
    ran(alloc, words, files, &[], 7)
}

/// Words that find no line in that stimulus.
struct UnreadStimulus(&'static [&'static str]);

impl Row for UnreadStimulus {
    fn holds(&self, alloc: Global) -> bool {
        match &ran_over_one_byte(alloc, self.0) {
            Ok(left) => left.is(Status::Stimulus, "", "stimulus line 1: form\n"),
            Err(_) => false,
        }
    }
}

const UNREAD_STIMULI: [UnreadStimulus; 3] = [
    UnreadStimulus(&SIMULATE),
    UnreadStimulus(&REPLAY_VERILOG),
    UnreadStimulus(&REPLAY_VITAL),
];

#[test]
fn a_stimulus_of_one_byte_is_no_line(rt: HostRuntime) -> Result<(), Fail> {
    all_hold(rt.alloc(), &UNREAD_STIMULI)
}
