//! Calls on the desk that fail, each in turn: what was written then is the front of what is written without, and no call is made
//! behind it.
use super::runs_on_test_cells::TWO_CELLS;
use super::words_and_udp::AND;
use super::words_runs::{USAGE, WordsRun, prints, unread};
use crate::tests::runs::{
    Limits, Status, THREE_CELLS, THREE_ENTITIES, THREE_LINES, THREE_MODULES, TRANSLATE, Whole,
    desk_of, done, leaves_fronts, leaves_fronts_in_pieces, leaves_nothing, library_alone,
    run_gated,
};
use std::alloc::Global;
use std::test::Fail;
use table_tests::{Row, all_hold};
use text_io::{GatedDesk, Memory};

/// The library of three cells, translated.
const THREE_TRANSLATED: Whole = Whole {
    status: Status::Done,
    verilog: &THREE_MODULES,
    vital: &THREE_ENTITIES,
    report: THREE_LINES,
    faults: "",
};

/// Whether each call that fails leaves a front of a translation of three cells, whatever a call moves of bytes.
fn translates_fronts(alloc: Global) -> bool {
    let files = library_alone(THREE_CELLS.as_bytes());
    leaves_fronts_in_pieces(alloc, &TRANSLATE, files, &THREE_TRANSLATED)
}

/// A run of which a front is left wherever a call fails that moves at most seven bytes.
struct FrontRun(WordsRun<'static>);

impl Row for FrontRun {
    fn holds(&self, alloc: Global) -> bool {
        leaves_fronts(alloc, self.0.words, library_alone(b""), &self.0.whole, 7)
    }
}

const FRONT_RUNS: [FrontRun; 3] = [
    FrontRun(prints!(["udp", "AND2", "A*B"], AND)),
    FrontRun(prints!(["selftest", "2"], TWO_CELLS)),
    FrontRun(unread!("print")),
];

/// Whether nothing is written where the second call, that of the first output, fails.
fn leaves_outputs(alloc: Global) -> bool {
    leaves_nothing(alloc, &TRANSLATE, library_alone(THREE_CELLS.as_bytes()), 2)
}

#[test]
fn each_call_of_a_translation_that_fails_leaves_a_front(rt: HostRuntime) {
    assert!(rt; translates_fronts(rt.alloc()));
    assert!(rt; leaves_outputs(rt.alloc()));
}

#[test]
fn each_call_of_words_without_files_that_fails_leaves_a_front(rt: HostRuntime) -> Result<(), Fail> {
    all_hold(rt.alloc(), &FRONT_RUNS)
}

/// What a gate left: the status of the run, and how many calls failed.
fn gated(alloc: Global, failing: &[u64]) -> Result<(Status, u64), Memory> {
    let words = ["udp", "AND2", "A*B"];
    let limits = Limits {
        failing,
        room: 1000,
        piece: 7,
    };
    let mut gate = GatedDesk::new(desk_of(alloc, &words, library_alone(b""), limits)?);
    let ended = run_gated(alloc, &mut gate);
    Ok((ended, gate.failures()))
}

/// Calls that fail behind a gate, the status with which the run ends, and how many are counted.
struct GatedRun(&'static [u64], Status, u64);

impl Row for GatedRun {
    fn holds(&self, alloc: Global) -> bool {
        matches!(gated(alloc, self.0), Ok((status, failures)) if status == self.1 && failures == self.2)
    }
}

const GATED_RUNS: [GatedRun; 2] = [
    GatedRun(&[3], Status::Outside, 1),
    GatedRun(&[], Status::Done, 0),
];

#[test]
fn a_gate_counts_the_call_that_failed(rt: HostRuntime) -> Result<(), Fail> {
    all_hold(rt.alloc(), &GATED_RUNS)
}
