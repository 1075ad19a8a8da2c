//! Cells whose outputs may float: their drivers, with the paths to the driven outputs, and the timing groups that are left out.
use super::translations::TranslationEnd;
use crate::tests::runs::Status;
use std::test::Fail;
use table_tests::all_hold;

/// An output Y that floats where OE is 0.
const TBUF: &str =
    "library (L) { time_unit : \"1ps\"; cell (TBUF) { pin (A) { direction : input; } pin (OE) { direction : input; }
pin (Y) { direction : output; function : \"A\"; three_state : \"!OE\";
    timing () { related_pin : \"A\"; cell_rise (t) { values (\"5\"); } cell_fall (t) { values (\"7\"); } }
    timing () { related_pin : \"OE\"; timing_type : three_state_enable;
        cell_rise (t) { values (\"11\"); } cell_fall (t) { values (\"13\"); } }
    timing () { related_pin : \"OE\"; timing_type : three_state_disable; cell_rise (t) { values (\"q\"); } }
} } }";

/// Two outputs of one group, behind one that never floats.
const TWO_OUTPUTS: &str = "library (L) { time_unit : \"1ps\"; cell (A) { } cell (TWO) {
pin (X) { direction : output; function : \"!A\"; timing () { related_pin : \"A\"; } }
pin (A) { direction : input; }
pin (Y Z) { direction : output; function : \"A\"; three_state : \"q\";
    timing () { when : \"(\"; related_pin : \"A\"; timing_type : three_state_enable; }
    timing () { related_pin : \"B A B\"; cell_rise (t) { values (\"5\"); } cell_fall (t) { values (\"7\"); } }
    timing () { related_pin : \"-e1 B\"; cell_fall (t) { values (\"9\"); } }
    three_state : \"B\"; }
pin (B) { direction : input; timing () { timing_type : non_seq; } }
} }";

/// The driver of the first: its paths are of the function and of the enable.
const TBUF_DRIVER: &str = "`celldefine
module TBUF (A, OE, Y);
  input A;
  input OE;
  output Y;
  wire lib_d1;
  wire lib_e1;
  cell1 lib_u (A, OE, lib_d1, lib_e1);
  bufif1 (Y, lib_d1, lib_e1);
  specify
    (A => Y) = (5, 7);
    (OE => Y) = (11, 13);
  endspecify
endmodule
`endcelldefine
";

/// The driver of the second: each of the two outputs has the paths of the group.
const TWO_DRIVERS: &str = "`celldefine
module TWO (X, A, Y, Z, B);
  input A;
  input B;
  output X;
  output Y;
  output Z;
  wire lib_d1;
  wire lib_d2;
  wire lib_e1;
  wire lib_e2;
  cell2 lib_u (X, A, lib_d1, lib_d2, B, lib_e1, lib_e2);
  bufif1 (Y, lib_d1, lib_e1);
  bufif1 (Z, lib_d2, lib_e2);
  specify
    (B => Y) = (5, 9);
    (A => Y) = (5, 7);
    (B => Z) = (5, 9);
    (A => Z) = (5, 7);
  endspecify
endmodule
`endcelldefine
";

/// The reports.
const TBUF_LINES: &str = "cell 1 TBUF ok\nleft-out 1 Y three_state_disable\naccepted 1 refused 0\n";

const TWO_LINES: &str = "cell 1 A ok
cell 2 TWO ok
left-out 2 X combinational
left-out 2 Y three_state_enable
left-out 2 Y combinational
left-out 2 Z three_state_enable
left-out 2 Z combinational
left-out 2 B non_seq
accepted 2 refused 0
";

const CELLS: [TranslationEnd<'static>; 2] = [
    TranslationEnd {
        library: TBUF,
        status: Status::Done,
        report: TBUF_LINES,
        verilog: TBUF_DRIVER,
        vital: "end driven;\n",
    },
    TranslationEnd {
        library: TWO_OUTPUTS,
        status: Status::Done,
        report: TWO_LINES,
        verilog: TWO_DRIVERS,
        vital: "end driven;\n",
    },
];

#[test]
fn cells_have_drivers_and_paths(rt: HostRuntime) -> Result<(), Fail> {
    all_hold(rt.alloc(), &CELLS)
}
