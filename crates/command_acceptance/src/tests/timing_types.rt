//! Timing groups of every type: those that make checks and paths, and those that are left out.
use crate::tests::runs::{Left, Status, translated};
use std::alloc::{AllocError, Global};
use text_io::OutSlot;

/// The types of checks between two pins.
const CHECKS: &str =
    "setup_rising setup_falling hold_rising hold_falling recovery_rising recovery_falling removal_rising removal_falling";

/// Types that may not stand at an input.
const OTHERS: &str = "skew_rising nochange_high_high non_seq_setup_rising rising_edge";

/// Timing groups of every type, those related to A with these types in place of `CHECKS` and `OTHERS`, each with the tables in
/// place of `TABLES`. Those that may not stand where they do, or name no pin or an output, are left out.
const ALL_TYPES: &str = "library (L) { time_unit : \"1ns\"; cell (C) {
    pin (A, B) { direction : input; }
    pin (D) { direction : input;
        CHECKS
        timing () { timing_type : min_pulse_width; TABLES }
        OTHERS
        timing () { timing_type : setup_rising; related_pin : Y; TABLES }
        timing () { timing_type : setup_rising; TABLES }
        timing () { related_pin : A; TABLES }
    }
    pin (Y) { direction : output; function : \"A*B*D\";
        timing () { related_pin : A; TABLES }
        timing () { timing_type : combinational; related_pin : B; TABLES }
        timing () { timing_type : combinational_rise; related_pin : D; TABLES }
        timing () { timing_type : combinational_fall; related_pin : A; when : B; TABLES }
        timing () { timing_type : rising_edge; related_pin : B; when : A; TABLES }
        timing () { timing_type : falling_edge; related_pin : A; when : D; TABLES }
        timing () { timing_type : clear; related_pin : A; when : \"B*D\"; TABLES }
        timing () { timing_type : preset; related_pin : A; when : \"B+D\"; TABLES }
        timing () { timing_type : three_state_enable; related_pin : A; TABLES }
        timing () { timing_type : setup_rising; related_pin : A; TABLES }
        timing () { timing_type : rising_edge; related_pin : A; intrinsic_rise : 1.0; }
    }
    } }";

/// The report.
const LINES: &str = "cell 1 C ok
left-out 1 D skew_rising
left-out 1 D nochange_high_high
left-out 1 D non_seq_setup_rising
left-out 1 D rising_edge
left-out 1 D setup_rising
left-out 1 D setup_rising
left-out 1 D combinational
left-out 1 Y three_state_enable
left-out 1 Y setup_rising
left-out 1 Y rising_edge
accepted 1 refused 0
";

/// Tables of each kind.
const TABLES: &str =
    "cell_rise (t) { values (0.001); } cell_fall (t) { values (0.002); } rise_constraint (t) { values (0.003); } fall_constraint (t) { values (0.004); }";

/// Adds a timing group of this type that is related to A.
fn push_group(alloc: Global, text: &mut String, kind: &str) -> Result<(), AllocError> {
    let group = format!(in alloc;
        "timing () {{ timing_type : {kind}; related_pin : A; TABLES }} "
    )?;
    text.push_str(group.as_str())
}

/// Timing groups of these types that are related to A.
fn groups_of(alloc: Global, types: &str) -> Result<String, AllocError> {
    let mut groups = String::new(alloc);
    for kind in types.split_whitespace() {
        push_group(alloc, &mut groups, kind)?;
    }
    Ok(groups)
}

/// A text with groups of these types in the place of a word.
fn with_groups(alloc: Global, text: &str, word: &str, types: &str) -> Result<String, AllocError> {
    let groups = groups_of(alloc, types)?;
    text.replace(alloc, word, groups.as_str())
}

/// The library with groups of every type, and these tables in place of `TABLES`.
fn all_types(alloc: Global, tables: &str) -> Result<String, AllocError> {
    let checks = with_groups(alloc, ALL_TYPES, "CHECKS", CHECKS)?;
    let all = with_groups(alloc, checks.as_str(), "OTHERS", OTHERS)?;
    all.replace(alloc, "TABLES", tables)
}

/// The end of the module: setup and hold are one check, recovery, removal and width are a check of each edge.
const CHECK_LINES: &str = "    $setup(D, posedge A, 4, lib_n);
    $setup(D, negedge A, 4, lib_n);
    $hold(posedge A, D, 4, lib_n);
    $hold(negedge A, D, 4, lib_n);
    $recovery(posedge D, posedge A, 3, lib_n);
    $recovery(negedge D, posedge A, 4, lib_n);
    $recovery(posedge D, negedge A, 3, lib_n);
    $recovery(negedge D, negedge A, 4, lib_n);
    $removal(posedge D, posedge A, 3, lib_n);
    $removal(negedge D, posedge A, 4, lib_n);
    $removal(posedge D, negedge A, 3, lib_n);
    $removal(negedge D, negedge A, 4, lib_n);
    $width(posedge D, 3, 0, lib_n);
    $width(negedge D, 4, 0, lib_n);
  endspecify
endmodule
";

/// Whether that is reported, and the module ends so and has 8 paths, each with an arrow.
fn has_every_type(left: &Left) -> bool {
    let verilog = left.desk.written(OutSlot::VerilogText);
    left.is(Status::Done, LINES, "")
        && left.ends_with(OutSlot::VerilogText, CHECK_LINES)
        && verilog.iter().filter(|byte| **byte == b'>').count() == 8
}

/// Whether the cell with these tables is translated so.
fn translates_every_type(alloc: Global, tables: &str) -> Option<bool> {
    let text = all_types(alloc, tables).ok()?;
    let left = translated(alloc, text.as_str()).ok()?;
    Some(has_every_type(&left))
}

#[test]
fn timing_of_every_type(rt: HostRuntime) {
    assert!(rt; translates_every_type(rt.alloc(), TABLES) == Some(true));
}
