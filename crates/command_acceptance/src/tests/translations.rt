//! Libraries that are translated, from bytes to bytes.
use super::tied_models::{
    LONE_TIE_ENTITY, LONE_TIE_MODULE, PORTS_ENTITY, PORTS_MODULE, SECOND_TIE_ENTITY, TIE_ENTITY,
    TIE_MODULE,
};
use crate::tests::runs::{
    CLOCK_GATE, FLIP_FLOP, Left, NO_MODULE, REGISTER_WITH_WIDE_OUTPUT, Status, THREE_CELLS,
    THREE_ENTITIES, THREE_LINES, THREE_MODULES, TIE, TIMED_FLIP_FLOP, TIMED_FLIP_FLOP_ENTITY,
    TIMED_FLIP_FLOP_MODULE, Whole, translated,
};
use std::alloc::Global;
use std::test::Fail;
use table_tests::{Row, all_hold};
use text_io::OutSlot;

/// A library, and what translating it comes to.
struct Translation(&'static str, Whole);

impl Row for Translation {
    fn holds(&self, alloc: Global) -> bool {
        match &translated(alloc, self.0) {
            Ok(left) => self.1.is_left(left),
            Err(_) => false,
        }
    }
}

/// A library, the status and the report with which translating it ends, and how its files of models end.
#[derive(Drop)]
pub(crate) struct TranslationEnd<'a> {
    pub library: &'a str,
    pub status: Status,
    pub report: &'a str,
    pub verilog: &'a str,
    pub vital: &'a str,
}

impl TranslationEnd<'_> {
    /// Whether a run left that.
    fn is_left(&self, left: &Left) -> bool {
        left.is(self.status, self.report, "")
            && left.ends_with(OutSlot::VerilogText, self.verilog)
            && left.ends_with(OutSlot::VitalText, self.vital)
    }
}

impl Row for TranslationEnd<'_> {
    fn holds(&self, alloc: Global) -> bool {
        match &translated(alloc, self.library) {
            Ok(left) => self.is_left(left),
            Err(_) => false,
        }
    }
}

/// A library of cells that are accepted, its report, and the last model of its Verilog file.
macro_rules! ends_with {
    ($library:expr, $report:expr, $verilog:expr) => {
        TranslationEnd {
            library: $library,
            status: Status::Done,
            report: $report,
            verilog: $verilog,
            vital: "end vital;\n",
        }
    };
}

pub(crate) use ends_with;

/// A library of cells that are accepted, its report, and the files of its models.
macro_rules! accepted {
    ($library:expr, $report:expr, $verilog:expr, $vital:expr) => {
        Translation(
            $library,
            Whole {
                status: Status::Done,
                verilog: $verilog,
                vital: $vital,
                report: $report,
                faults: "",
            },
        )
    };
}

/// A library that is refused, and the line that tells it.
macro_rules! refused {
    ($library:expr, $faults:expr) => {
        Translation(
            $library,
            Whole {
                status: Status::Library,
                verilog: &[NO_MODULE],
                vital: &[],
                report: "",
                faults: $faults,
            },
        )
    };
}

/// Four ports, of which each language keeps some names.
const PORTS: &str = "library (L) { cell (P) {
pin (a) { direction : input; } pin (A) { direction : input; } pin (end) { direction : input; }
pin (D_1) { direction : output; function : \"1\"; } } }";

/// The Verilog of a flip-flop without timing.
const FLIP_FLOP_FILE: &str = "`timescale 1ps/1ps
primitive lib_1_1 (q, i1, i2);
  output q;
  reg q;
  input i1;
  input i2;
  table
    (01) 1 : ? : 1;
    (1?) ? : ? : -;
    (?0) ? : ? : -;
    * 1 : 1 : 1;
    (01) 0 : ? : 0;
    * 0 : 0 : 0;
    ? * : ? : -;
  endtable
endprimitive
primitive lib_1_2 (q, i1);
  output q;\n  input i1;\n  table\n    1 : 1;\n    0 : 0;\n  endtable\nendprimitive
module DFF (CK, D, Q);
  input CK;
  input D;
  output Q;
  wire lib_s1;
  lib_1_1 (lib_s1, CK, D);
  lib_1_2 (Q, lib_s1);
endmodule
";

/// The module of a clock gate.
const CLOCK_GATE_MODULE: &str = "module GATE (CK, E, SE, GCK);
  input CK;
  input E;
  input SE;
  output GCK;
  wire lib_s1;
  lib_1_1 (lib_s1, CK, E, SE);
  lib_1_2 (GCK, CK, lib_s1);
endmodule
";

/// A period under a condition, then the width and the period of attributes.
const PERIODS: &str = "library (L) { time_unit : \"1ps\"; cell (BUFP) {
pin (A) { direction : input; min_period : 100; min_pulse_width_low : 40;
timing () { timing_type : minimum_period; related_pin : \"A\"; when : \"E\"; rise_constraint (s) { values (\"70\"); } fall_constraint (s) { values (\"80\"); } }
}
pin (E) { direction : input; }
pin (Y) { direction : output; function : \"A\"; }
} }";

/// Its module.
const PERIODS_MODULE: &str = "module BUFP (A, E, Y);
  input A;
  input E;
  output Y;
  wire lib_c1;
  reg lib_n;
  lib_1_1 (lib_c1, E);
  lib_1_2 (Y, A);
  specify
    $period(posedge A &&& lib_c1, 80, lib_n);
    $period(negedge A &&& lib_c1, 80, lib_n);
    $width(negedge A, 40, 0, lib_n);
    $period(posedge A, 100, lib_n);
    $period(negedge A, 100, lib_n);
  endspecify
endmodule
";

/// Without the semicolons behind the unit and the direction.
const WITHOUT_SEMICOLONS: &str = "library (L) { time_unit : \"1ps\"
cell (TIE) { pin (A) { direction : input } pin (Y) { function : \"1\" ; direction : output } }
}";

/// An inverter behind a cell whose output names eleven pins.
const BEHIND_A_REFUSED_CELL: &str = "library (L) {
cell (WIDE) { pin (A B C D E F G H I J K) { direction : input; }
pin (Y) { direction : output; function : \"A B C D E F G H I J K\"; } }
cell (INV) { pin (A) { direction : input; } pin (Y) { direction : output; function : \"!A\"; } }
}
";

/// The module of the inverter, which is the second cell.
const SECOND_INVERTER: &str = "module INV (A, Y);
  input A;
  output Y;
  lib_2_1 (Y, A);
endmodule
";

/// A unit of time and no cell.
const UNIT_ALONE: &str = "library (L) { time_unit : \"10ps\" }";

/// The report on a library with an output that is tied to 1.
const TIE_LINES: &str = "cell 1 TIE ok\naccepted 1 refused 0\n";

const TRANSLATIONS: [Translation; 7] = [
    accepted!(THREE_CELLS, THREE_LINES, &THREE_MODULES, &THREE_ENTITIES),
    accepted!(
        TIMED_FLIP_FLOP,
        "cell 1 DFFT ok\naccepted 1 refused 0\n",
        &[TIMED_FLIP_FLOP_MODULE],
        &[TIMED_FLIP_FLOP_ENTITY]
    ),
    accepted!(
        PORTS,
        "cell 1 P ok\naccepted 1 refused 0\n",
        &[PORTS_MODULE],
        &[PORTS_ENTITY]
    ),
    accepted!(WITHOUT_SEMICOLONS, TIE_LINES, &[TIE_MODULE], &[TIE_ENTITY]),
    accepted!(TIE, TIE_LINES, &[LONE_TIE_MODULE], &[LONE_TIE_ENTITY]),
    accepted!(UNIT_ALONE, "accepted 0 refused 0\n", &[NO_MODULE], &[]),
    // a bit that a bank has not refuses its cell
    Translation(
        REGISTER_WITH_WIDE_OUTPUT,
        Whole {
            status: Status::Cells,
            verilog: &[NO_MODULE],
            vital: &[],
            report: "cell 1 REG2 refused 15 width at 227\naccepted 0 refused 1\n",
            faults: "",
        },
    ),
];

#[test]
fn libraries_are_translated(rt: HostRuntime) -> Result<(), Fail> {
    all_hold(rt.alloc(), &TRANSLATIONS)
}

/// Thirty-two groups, one in the other, within a library.
const DEEP_GROUPS: &str = concat!(
    "library (L) {",
    "a(){a(){a(){a(){a(){a(){a(){a(){a(){a(){a(){a(){a(){a(){a(){a(){",
    "a(){a(){a(){a(){a(){a(){a(){a(){a(){a(){a(){a(){a(){a(){a(){a(){"
);

/// A library that ends in a text.
const OPEN_TEXT: &str = "library (L) { cell (A) { area : \"1";

const REFUSED: [Translation; 5] = [
    refused!(OPEN_TEXT, "library refused at 32: text not closed\n"),
    refused!("", "library refused at 0: not a library\n"),
    refused!(
        "library (L) { a : \n { }",
        "library refused at 20: expected value\n"
    ),
    refused!(
        "library (L) { a : b\n { }",
        "library refused at 21: expected statement\n"
    ),
    refused!(DEEP_GROUPS, "library refused at 140: too deep\n"),
];

#[test]
fn refused_libraries_are_told(rt: HostRuntime) -> Result<(), Fail> {
    all_hold(rt.alloc(), &REFUSED)
}

/// An included file, and groups of timing that are none of a delay or a check: under an input without a type, and of a type that
/// is left out.
const LEFT_OUT: &str = "library (L) { include_file (\"other.lib\");
cell (DFF) { ff (IQ, IQN) { next_state : \"D\"; clocked_on : \"CK\"; }
pin (CK) { direction : input; timing () { related_pin : \"D\"; cell_rise (t) { values (\"1\"); } } }
pin (D) { direction : input; timing () { timing_type : nochange_high_high; related_pin : \"CK\"; rise_constraint (t) { values (\"1\"); } } }
pin (Q) { direction : output; function : \"IQ\"; }
} }";

/// Its report.
const LEFT_OUT_LINES: &str = "left-out include_file
cell 1 DFF ok
left-out 1 CK combinational
left-out 1 D nochange_high_high
accepted 1 refused 0
";

/// Two cells whose names VHDL does not tell apart.
const TWO_TIES: &str =
    "library (L) { cell (tie) { pin (Y) { direction : output; function : \"1\"; } }
cell (TIE) { pin (Y) { direction : output; function : \"1\"; } } }";

const TRANSLATION_ENDS: [TranslationEnd<'static>; 6] = [
    TranslationEnd {
        library: BEHIND_A_REFUSED_CELL,
        status: Status::Cells,
        report: "cell 1 WIDE refused 14 udp_inputs at 109\ncell 2 INV ok\naccepted 1 refused 1\n",
        verilog: SECOND_INVERTER,
        vital: "end vital;\n",
    },
    ends_with!(
        FLIP_FLOP,
        "cell 1 DFF ok\naccepted 1 refused 0\n",
        FLIP_FLOP_FILE
    ),
    ends_with!(
        CLOCK_GATE,
        "cell 1 GATE ok\naccepted 1 refused 0\n",
        CLOCK_GATE_MODULE
    ),
    ends_with!(
        PERIODS,
        "cell 1 BUFP ok\naccepted 1 refused 0\n",
        PERIODS_MODULE
    ),
    TranslationEnd {
        library: TWO_TIES,
        status: Status::Done,
        report: "cell 1 tie ok\ncell 2 TIE ok\naccepted 2 refused 0\n",
        verilog: "endmodule\n",
        vital: SECOND_TIE_ENTITY,
    },
    ends_with!(LEFT_OUT, LEFT_OUT_LINES, "endmodule\n"),
];

#[test]
fn reports_and_last_modules_are_written(rt: HostRuntime) -> Result<(), Fail> {
    all_hold(rt.alloc(), &TRANSLATION_ENDS)
}
