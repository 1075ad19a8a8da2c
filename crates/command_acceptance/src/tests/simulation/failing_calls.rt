//! Calls on the desk that fail, each in turn: what was written then is the front of what is written without, and no call is made
//! behind it.
use super::inverter::{REPORT, START, VERILOG_REPORT, VITAL_REPORT, four_files};
use crate::tests::runs::{
    Files, Left, REPLAY_VERILOG, REPLAY_VITAL, SIMULATE, THREE_CELLS, Whole, done,
    leaves_fronts_in_pieces, leaves_nothing, translated,
};
use std::alloc::Global;
use std::test::Fail;
use table_tests::{Row, all_hold};
use text_io::OutSlot;

/// Words, and what they come to over the files of the inverter: each call that fails leaves a front of it, whatever a call moves.
struct FrontRun(&'static [&'static str], Whole);

impl Row for FrontRun {
    fn holds(&self, alloc: Global) -> bool {
        leaves_fronts_in_pieces(alloc, self.0, four_files(), &self.1)
    }
}

const SIMULATION_FRONTS: [FrontRun; 1] = [FrontRun(&SIMULATE, done!(REPORT))];

#[test]
fn each_call_of_a_simulation_that_fails_leaves_a_front(rt: HostRuntime) -> Result<(), Fail> {
    all_hold(rt.alloc(), &SIMULATION_FRONTS)
}

const REPLAY_FRONTS: [FrontRun; 2] = [
    FrontRun(&REPLAY_VERILOG, done!(VERILOG_REPORT)),
    FrontRun(&REPLAY_VITAL, done!(VITAL_REPORT)),
];

#[test]
fn each_call_of_a_replay_that_fails_leaves_a_front(rt: HostRuntime) -> Result<(), Fail> {
    all_hold(rt.alloc(), &REPLAY_FRONTS)
}

/// Whether that holds of a simulation of the first of three cells beside these models, without a change.
fn leaves_fronts_beside(alloc: Global, models: &Left) -> bool {
    let files = Files {
        library: THREE_CELLS.as_bytes(),
        verilog: models.desk.written(OutSlot::VerilogText),
        vital: models.desk.written(OutSlot::VitalText),
        stimulus: b"cell INV",
    };
    leaves_fronts_in_pieces(alloc, &SIMULATE, files, &done!(START))
}

/// Whether that holds beside the models of all three.
fn simulates_fronts(alloc: Global) -> bool {
    match &translated(alloc, THREE_CELLS) {
        Ok(models) => leaves_fronts_beside(alloc, models),
        Err(_) => false,
    }
}

#[test]
fn each_call_of_a_simulation_beside_other_models_that_fails_leaves_a_front(rt: HostRuntime) {
    assert!(rt; simulates_fronts(rt.alloc()));
}

/// A call of a simulation that opens a file.
struct Opening(u64);

impl Row for Opening {
    fn holds(&self, alloc: Global) -> bool {
        leaves_nothing(alloc, &SIMULATE, four_files(), self.0)
    }
}

const OPENINGS: [Opening; 2] = [Opening(1), Opening(2)];

#[test]
fn a_file_that_cannot_be_opened_ends_the_run(rt: HostRuntime) -> Result<(), Fail> {
    all_hold(rt.alloc(), &OPENINGS)
}
