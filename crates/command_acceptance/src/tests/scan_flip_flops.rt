//! A scan flip-flop as libraries have it, with tables of seven by seven entries and groups that are skipped: the end of its
//! module and the line on its test cell.
use super::translations::{TranslationEnd, ends_with};
use crate::tests::runs::Status;
use std::alloc::Global;
use std::test::Fail;
use table_tests::{Row, all_hold};

/// The library of the flip-flop, with the six rows and the six entries that are least in a table of positive entries, and those of
/// a table of negative ones.
macro_rules! scan_library {
    ($low:literal, $negative:literal) => {
        concat!(
            "library (L) { time_unit : \"1ns\";\ncell (SDFFR) {\narea : 6.65;\n",
            "pg_pin (VDD) { voltage_name : VDD; pg_type : primary_power; }\n",
            "pg_pin (VSS) { voltage_name : VSS; pg_type : primary_ground; }\n",
            "pin (D) { direction : input; capacitance : 0.0011;\n",
            "internal_power () { rise_power (p) { values (",
            $low,
            "0.07\"); } }\n",
            "timing () { timing_type : setup_rising; related_pin : \"CK\";\nrise_constraint (s) { values (",
            $low,
            "0.0612\"); }\nfall_constraint (s) { values (",
            $low,
            "0.0503\"); } }\n",
            "timing () { timing_type : hold_rising; related_pin : \"CK\";\nrise_constraint (s) { values (",
            $negative,
            "-0.012\"); }\nfall_constraint (s) { values (",
            $negative,
            "-0.0178\"); } }\n}\n",
            "pin (SI SE CK RN) { direction : input; }\n",
            "ff (IQ, IQN) { next_state : \"(SE*SI)+(D*!SE)\"; clocked_on : \"CK\"; clear : \"!RN\"; }\n",
            "pin (Q) { direction : output; function : \"IQ\";\n",
            "internal_power () { related_pin : \"CK\"; rise_power (p) { values (",
            $low,
            "0.08\"); } }\n",
            "timing () { related_pin : \"CK\"; when : \"SE\";\ncell_rise (s) { values (",
            $low,
            "0.1105\"); }\ncell_fall (s) { values (",
            $low,
            "0.0981\"); } }\n",
            "timing () { related_pin : \"CK\"; when : \"!SE\";\ncell_rise (s) { values (",
            $low,
            "0.1082\"); }\ncell_fall (s) { values (",
            $low,
            "0.0990\"); } }\n",
            "timing () { related_pin : \"CK\";\ncell_rise (s) { values (",
            $low,
            "0.1105\"); }\ncell_fall (s) { values (",
            $low,
            "0.0990\"); } }\n}\n",
            "test_cell () {\npin (D CK RN) { direction : input; }\n",
            "pin (SI) { direction : input; signal_type : test_scan_in; }\n",
            "pin (SE) { direction : input; signal_type : test_scan_enable; }\n",
            "ff (IQ, IQN) { next_state : \"D\"; clocked_on : \"CK\"; clear : \"!RN\"; }\n",
            "pin (Q) { direction : output; function : \"IQ\"; signal_type : test_scan_out; }\n}\n} }\n"
        )
    };
}

/// With the plain flip-flop in the test cell.
pub(crate) const SCAN_FLIP_FLOP: &str = scan_library!(
    "\"0.01, 0.02, 0.03, 0.04, 0.05, 0.06, 0.05\", \\
\"0.01, 0.02, 0.03, 0.04, 0.05, 0.06, 0.05\", \\
\"0.01, 0.02, 0.03, 0.04, 0.05, 0.06, 0.05\", \\
\"0.01, 0.02, 0.03, 0.04, 0.05, 0.06, 0.05\", \\
\"0.01, 0.02, 0.03, 0.04, 0.05, 0.06, 0.05\", \\
\"0.01, 0.02, 0.03, 0.04, 0.05, 0.06, 0.05\", \\
\"0.01, 0.02, 0.03, 0.04, 0.05, 0.06, ",
    "\"-0.07, -0.06, -0.05, -0.04, -0.03, -0.02, -0.03\", \\
\"-0.07, -0.06, -0.05, -0.04, -0.03, -0.02, -0.03\", \\
\"-0.07, -0.06, -0.05, -0.04, -0.03, -0.02, -0.03\", \\
\"-0.07, -0.06, -0.05, -0.04, -0.03, -0.02, -0.03\", \\
\"-0.07, -0.06, -0.05, -0.04, -0.03, -0.02, -0.03\", \\
\"-0.07, -0.06, -0.05, -0.04, -0.03, -0.02, -0.03\", \\
\"-0.07, -0.06, -0.05, -0.04, -0.03, -0.02, "
);

/// A part of that library and what stands in its place, the report on the library, and the end of its module.
struct ScanCell((&'static str, &'static str), &'static str, &'static str);

impl ScanCell {
    /// Whether this library, with the edit, is translated so.
    fn is_translated(&self, alloc: Global, library: &str) -> bool {
        let (part, other) = self.0;
        match &library.replace(alloc, part, other) {
            Ok(library) => ends_with!(library.as_str(), self.1, self.2).holds(alloc),
            Err(_) => false,
        }
    }
}

impl Row for ScanCell {
    fn holds(&self, alloc: Global) -> bool {
        self.is_translated(alloc, SCAN_FLIP_FLOP)
    }
}

/// The reports: the plain flip-flop does the same; the other one differs first at a rise of CK where RN is 1 and D and SE are 0.
const SAME: &str = "cell 1 SDFFR ok\ntest 1 same\naccepted 1 refused 0\n";

const DIFFERS: &str = "cell 1 SDFFR ok
test 1 differs part 1 before 16 after 24 state 0
accepted 1 refused 0
";

const LEFT_OUT: &str = "cell 1 SDFFR ok\ntest 1 left-out\naccepted 1 refused 0\n";

/// The module: a hold time below zero makes no check.
const SCAN_FLIP_FLOP_MODULE: &str = "module SDFFR (D, SI, SE, CK, RN, Q);
  input D;
  input SI;
  input SE;
  input CK;
  input RN;
  output Q;
  wire lib_s1;
  wire lib_c1;
  wire lib_c2;
  reg lib_n;
  lib_1_1 (lib_s1, D, SI, SE, CK, RN, lib_n);
  lib_1_2 (lib_c1, SE);
  lib_1_3 (lib_c2, SE);
  lib_1_4 (Q, lib_s1);
  specify
    if (lib_c1) (CK => Q) = (111, 99);
    if (lib_c2) (CK => Q) = (109, 99);
    ifnone (CK => Q) = (111, 99);
    $setup(D, posedge CK, 62, lib_n);
  endspecify
endmodule
";

/// The library as it is; with a flip-flop in the test cell that takes the other value; with a scan enable that is active at 0; and
/// without a scan enable.
const SCAN_CELLS: [ScanCell; 4] = [
    ScanCell(("endmodule", "endmodule"), SAME, SCAN_FLIP_FLOP_MODULE),
    ScanCell(
        ("next_state : \"D\"", "next_state : \"!D\""),
        DIFFERS,
        "endmodule\n",
    ),
    ScanCell(
        (
            "enable; }\nff (IQ, IQN) { next_state : \"D\"",
            "enable_inverted; }\nff (IQ, IQN) { next_state : \"SI\"",
        ),
        SAME,
        "endmodule\n",
    ),
    ScanCell(
        ("signal_type : test_scan_enable;", ""),
        LEFT_OUT,
        "endmodule\n",
    ),
];

#[test]
fn a_scan_flip_flop_is_translated_and_its_test_cell_compared(rt: HostRuntime) -> Result<(), Fail> {
    all_hold(rt.alloc(), &SCAN_CELLS)
}
