//! A section on which a flip-flop and its module differ.
use super::simulations::{Models, Simulation};
use crate::tests::runs::{FLIP_FLOP, Status};
use std::test::Fail;
use table_tests::all_hold;

/// A section of eight changes.
const STIMULUS: &str = "cell DFF
10 D 1
20 CK 0
30 CK 1
40 CK 0
50 CK x
60 CK 0
70 D 0
80 CK x
";

/// Its report where the module takes the other value at the third change, so that an unknown clock may take another one again.
const DIFFERENCE: &str = "cell DFF
L start : Q=x
V start : Q=x
H start : Q=x
L 10 D 1 : Q=x
V 10 D 1 : Q=x
H 10 D 1 : Q=x
L 20 CK 0 : Q=x
V 20 CK 0 : Q=x
H 20 CK 0 : Q=x
L 30 CK 1 : Q=1@0
V 30 CK 1 : Q=0@0
H 30 CK 1 : Q=1@0
L 40 CK 0 : Q=1
V 40 CK 0 : Q=0
H 40 CK 0 : Q=1
L 50 CK x : Q=1
V 50 CK x : Q=x@0
H 50 CK x : Q=1
L 60 CK 0 : Q=1
V 60 CK 0 : Q=x
H 60 CK 0 : Q=1
L 70 D 0 : Q=1
V 70 D 0 : Q=x
H 70 D 0 : Q=1
L 80 CK x : Q=x@0
V 80 CK x : Q=x
H 80 CK x : Q=x@0
differs at change 3
";

/// The row of the flip-flop's module that takes its data where they are 1, and one that gives another value.
const ROWS: (&str, &str) = ("(01) 1 : ? : 1;", "(01) 1 : ? : 0;");

/// The flip-flop beside its module with the other row and its own entity.
const DIFFERENT: [Simulation; 1] = [Simulation {
    library: FLIP_FLOP,
    verilog: Models::Edited(FLIP_FLOP, ROWS),
    vital: Models::Of(FLIP_FLOP),
    stimulus: STIMULUS,
    status: Status::Differ,
    report: DIFFERENCE,
    faults: "",
}];

#[test]
fn the_first_difference_is_told(rt: HostRuntime) -> Result<(), Fail> {
    all_hold(rt.alloc(), &DIFFERENT)
}
