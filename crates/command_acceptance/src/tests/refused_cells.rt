//! Which cells are refused, by which number and where. The mark `@` stands at the offset of the refusal.
use crate::tests::runs::{Left, translated};
use std::alloc::Global;
use std::test::Fail;
use table_tests::{Row, all_hold};
use text_io::OutSlot;

/// The number of a refusal, and the statements of a library in picoseconds whose last cell is refused so; one without a mark is
/// accepted.
#[derive(Drop)]
pub(crate) struct RefusedCell<'a>(pub u8, pub &'a str);

impl Row for RefusedCell<'_> {
    fn holds(&self, alloc: Global) -> bool {
        is_told(alloc, "time_unit : \"1ps\";", self.0, self.1)
    }
}

/// The words of the refusals, from 0, which stands for none.
const WORDS: [&str; 16] = [
    "",
    "direction",
    "three_state",
    "bank",
    "left_out_state",
    "clear_preset",
    "duplicate",
    "malformed",
    "unknown_name",
    "coupled",
    "no_function",
    "own_condition",
    "number",
    "limit",
    "udp_inputs",
    "width",
];

/// The end of the line of a cell that is refused by this number at the mark `@`, or accepted where there is none.
fn line_end(alloc: Global, number: u8, marked: &str) -> Option<String> {
    match marked.split_once("@") {
        Some((before, _)) => {
            let word = WORDS.get(usize::from(number))?;
            let at = before.len();
            format!(in alloc; " refused {number} {word} at {at}\n").ok()
        }
        None => String::from_str(alloc, " ok\n").ok(),
    }
}

/// Whether the last cell of a library is told so, before the line that counts the cells.
fn tells(left: &Left, end: &str) -> Option<bool> {
    let report = str::from_utf8(left.desk.written(OutSlot::Report)).ok()?;
    let (lines, _) = report.rsplit_once("accepted ")?;
    Some(lines.ends_with(end))
}

/// What translating a text without its mark leaves; nothing where memory is short.
fn translated_unmarked(alloc: Global, marked: &str) -> Option<Left> {
    match &marked.replace(alloc, "@", "") {
        Ok(text) => translated(alloc, text.as_str()).ok(),
        Err(_) => None,
    }
}

/// Whether the last cell of this library is refused by this number at the mark `@`, or accepted where there is none.
fn is_told_of(alloc: Global, number: u8, marked: &str) -> bool {
    match (
        &translated_unmarked(alloc, marked),
        &line_end(alloc, number, marked),
    ) {
        (Some(left), Some(end)) => tells(left, end.as_str()) == Some(true),
        _ => false,
    }
}

/// Whether that is so of a library with this unit and these statements.
fn is_told(alloc: Global, unit: &str, number: u8, statements: &str) -> bool {
    match &format!(in alloc; "library (L) {{ {unit} {statements} }}") {
        Ok(marked) => is_told_of(alloc, number, marked.as_str()),
        Err(_) => false,
    }
}

/// Numbers of refusals, and libraries whose last cell is refused so.
const REFUSED: [RefusedCell<'static>; 66] = [
    // The direction of a pin is absent or none of the three.
    RefusedCell(1, "cell (C) { @pin (A) { } }"),
    RefusedCell(1, "cell (C) { pin (A) { @direction : inout; } }"),
    RefusedCell(
        1,
        "cell (C) { pin (A) { direction : input; @direction : sideways; } }",
    ),
    RefusedCell(
        1,
        "cell (C) { pin (A) { direction : \"input\" } @pin (B) { } pin (Y) { direction : out; } }",
    ),
    // A pin that is no output has `three_state`.
    RefusedCell(
        2,
        "cell (C) { pin (A) { direction : input; @three_state : \"A\"; three_state : \"\"; } }",
    ),
    // A bus has no type, a bundle has no members, or a bank has not the arguments of one.
    RefusedCell(3, "cell (C) { @bus (D) { } }"),
    RefusedCell(3, "cell (C) { @bundle (D) { } }"),
    RefusedCell(3, "cell (C) { @ff_bank (IQ, IQN) { } }"),
    RefusedCell(
        3,
        "cell (C) { pin (A) { direction : input; } @latch_bank (IQ, IQN, 17) { } }",
    ),
    // An attribute of states that is left out stands in a state group or pin.
    RefusedCell(
        4,
        "cell (C) { pin (A B) { direction : input; } ff (IQ, IQN) { next_state : \"A\"; clocked_on : \"B\"; @clocked_on_also : \"A\"; } }",
    ),
    RefusedCell(
        4,
        "cell (C) { pin (A B) { direction : input; } latch (IQ, IQN) { data_in : \"A\"; enable : \"B\"; @enable_also : \"A\"; } }",
    ),
    RefusedCell(
        4,
        "cell (C) { pin (A) { direction : input; @input_map : \"A\"; } }",
    ),
    // What a variable becomes where clear and preset are both on is none of the values that it may have.
    RefusedCell(
        5,
        "cell (C) { pin (A B) { direction : input; } ff (IQ, IQN) { next_state : \"A\"; clocked_on : \"B\"; @clear_preset_var1 : T; } }",
    ),
    RefusedCell(
        5,
        "cell (C) { pin (A B) { direction : input; } ff (IQ, IQN) { next_state : \"A\"; clocked_on : \"B\"; clear_preset_var1 : N; @clear_preset_var2 : N; } }",
    ),
    RefusedCell(
        5,
        "cell (C) { pin (A B) { direction : input; } latch (IQ, IQN) { data_in : \"A\"; enable : \"B\"; clear_preset_var1 : L; @clear_preset_var1 : \"\"; } }",
    ),
    // Two pins, variables or nodes share a name, or an earlier cell has the name.
    RefusedCell(
        6,
        "cell (C) { pin (A) { direction : input; } @pin (A) { direction : input; } }",
    ),
    RefusedCell(6, "cell (C) { @pin (A A) { direction : input; } }"),
    RefusedCell(
        6,
        "cell (C) { pin (IQ B) { direction : input; } @ff (IQ, IQN) { next_state : \"B\"; clocked_on : \"B\"; } }",
    ),
    RefusedCell(
        6,
        "cell (C) { pin (A) { direction : input; } @ff (IQ, IQ) { next_state : \"A\"; clocked_on : \"A\"; } }",
    ),
    RefusedCell(
        6,
        "cell (C) { pin (A) { direction : input; } statetable (\"A\", \"N\") { table : \"L : - : L\"; } @pin (N) { direction : input; } }",
    ),
    RefusedCell(6, "cell (C) { } @cell (C) { }"),
    RefusedCell(6, "cell (C) { pin (A) { } } @cell (C) { }"),
    // A function text does not read.
    RefusedCell(
        7,
        "cell (C) { pin (A) { direction : input; } pin (Y) { direction : output; @function : \"A*\"; } }",
    ),
    RefusedCell(
        7,
        "cell (C) { pin (A) { direction : input; } pin (Y) { direction : output; function : \"A\"; @function : \"A B)\"; } }",
    ),
    RefusedCell(
        7,
        "cell (C) { pin (A) { direction : input; } pin (Y) { direction : output; function : \"A\"; timing () { related_pin : \"A\"; @when : \"(A\"; cell_rise (t) { values (\"1\"); } } } }",
    ),
    RefusedCell(
        7,
        "cell (C) { pin (A B) { direction : input; } ff (IQ, IQN) { @next_state : \"\"; clocked_on : \"B\"; } }",
    ),
    // A needed attribute is absent, the arguments of a group are not two, or a table does not read.
    RefusedCell(
        7,
        "cell (C) { pin (A B) { direction : input; } @ff (IQ, IQN) { next_state : \"A\"; } }",
    ),
    RefusedCell(
        7,
        "cell (C) { pin (A B) { direction : input; } @ff (IQ, IQN) { clocked_on : \"B\"; } }",
    ),
    RefusedCell(
        7,
        "cell (C) { pin (A B) { direction : input; } @ff (IQ) { next_state : \"A\"; clocked_on : \"B\"; } }",
    ),
    RefusedCell(
        7,
        "cell (C) { pin (A B) { direction : input; } @latch (IQ, IQN) { data_in : \"A\"; } }",
    ),
    RefusedCell(
        7,
        "cell (C) { pin (A B) { direction : input; } @latch (IQ, IQN) { enable : \"A\"; } }",
    ),
    RefusedCell(
        7,
        "cell (C) { pin (A) { direction : input; } @statetable (\"A\", \"N\") { } }",
    ),
    RefusedCell(
        7,
        "cell (C) { pin (A) { direction : input; } @statetable (\"A\", \"N\", \"M\") { table : \"L : - : L\"; } }",
    ),
    RefusedCell(
        7,
        "cell (C) { pin (A) { direction : input; } statetable (\"A\", \"N\") { @table : \"L : - : Q\"; } }",
    ),
    // A text names nothing of the kind that it may name.
    RefusedCell(
        8,
        "cell (C) { pin (A) { direction : input; } pin (Y) { direction : output; @function : \"A*Z\"; } }",
    ),
    RefusedCell(
        8,
        "cell (C) { pin (A) { direction : input; } pin (Y) { direction : output; @internal_node : \"N\"; } }",
    ),
    RefusedCell(
        8,
        "cell (C) { pin (A) { direction : input; } pin (Y) { direction : output; function : \"A\"; timing () { @related_pin : \"A Z\"; cell_rise (t) { values (\"1\"); } } } }",
    ),
    RefusedCell(
        8,
        "cell (C) { pin (A) { direction : input; } pin (Y) { direction : output; function : \"A\"; timing () { related_pin : \"A\"; @when : \"Z\"; cell_rise (t) { values (\"1\"); } } } }",
    ),
    RefusedCell(
        8,
        "cell (C) { pin (A) { direction : input; } @statetable (\"A Z\", \"N\") { table : \"L L : - : L\"; } }",
    ),
    RefusedCell(
        8,
        "cell (C) { pin (A) { direction : input; } statetable (\"A\", \"N\") { table : \"L : - : L\"; } pin (Y) { direction : output; @function : \"N\"; } }",
    ),
    RefusedCell(
        8,
        "cell (C) { pin (A) { direction : input; } statetable (\"A\", \"N\") { table : \"L : - : L\"; } pin (I) { direction : internal; internal_node : \"N\"; } ff (IQ, IQN) { @next_state : \"I\"; clocked_on : \"A\"; } }",
    ),
    // A state hangs on another one, or on itself where it may not.
    RefusedCell(
        9,
        "cell (C) { pin (A B) { direction : input; } ff (IQ, IQN) { next_state : \"A\"; clocked_on : \"B\"; } ff (JQ, JQN) { @next_state : \"IQN\"; clocked_on : \"B\"; } }",
    ),
    RefusedCell(
        9,
        "cell (C) { pin (A B) { direction : input; } ff (IQ, IQN) { next_state : \"IQ\"; clocked_on : \"B\"; @clear : \"IQ\"; } }",
    ),
    RefusedCell(
        9,
        "cell (C) { pin (A) { direction : input; } statetable (\"A\", \"M N\") { @table : \"L : H - : L H\"; } }",
    ),
    RefusedCell(
        9,
        "cell (C) { pin (A) { direction : input; } @statetable (\"A M\", \"M\") { table : \"L L : - : L\"; } }",
    ),
    RefusedCell(
        9,
        "cell (C) { pin (A) { direction : input; } statetable (\"A\", \"N\") { table : \"L : - : L\"; } ff (IQ, IQN) { @next_state : \"N\"; clocked_on : \"A\"; } }",
    ),
    // An output has no function.
    RefusedCell(10, "cell (C) { @pin (Y) { direction : output; } }"),
    RefusedCell(
        10,
        "cell (C) { pin (A) { direction : input; } pin (X) { direction : output; function : \"A\"; } @pin (Y) { direction : output; } }",
    ),
    // A condition names a pin of its own events, or the pin where its arc starts.
    RefusedCell(
        11,
        "cell (C) { pin (A B) { direction : input; } pin (Y) { direction : output; function : \"A\"; timing () { related_pin : \"A\"; @when : \"A*B\"; cell_rise (t) { values (\"1\"); } } } }",
    ),
    RefusedCell(
        11,
        "cell (C) { pin (A) { direction : input; } pin (B) { direction : input; timing () { related_pin : \"A\"; timing_type : setup_rising; @when : \"B\"; rise_constraint (t) { values (\"1\"); } } } }",
    ),
    RefusedCell(
        11,
        "cell (C) { pin (A) { direction : input; } pin (B) { direction : input; timing () { related_pin : \"A\"; timing_type : hold_falling; @when : \"A\"; rise_constraint (t) { values (\"0\"); } } } }",
    ),
    // A time is absent, no number or too great.
    RefusedCell(
        12,
        "cell (C) { pin (A) { direction : input; } pin (Y) { direction : output; function : \"A\"; timing () { related_pin : \"A\"; cell_rise (t) { @values (\"1, fast\"); } } } }",
    ),
    RefusedCell(
        12,
        "cell (C) { pin (A) { direction : input; } pin (Y) { direction : output; function : \"A\"; timing () { related_pin : \"A\"; @cell_rise (t) { } } } }",
    ),
    RefusedCell(
        12,
        "cell (C) { pin (A) { direction : input; } pin (Y) { direction : output; function : \"A\"; timing () { related_pin : \"A\"; cell_rise (t) { values (\"1\"); @values (\"1000000000000000\"); } } } }",
    ),
    RefusedCell(
        12,
        "cell (C) { pin (A) { direction : input; @min_pulse_width_high : \"wide\"; } }",
    ),
    // A name is empty or has a byte that it may not have, or a state names no pin.
    RefusedCell(13, "@cell () { }"),
    RefusedCell(13, "@cell (\"A B\") { }"),
    RefusedCell(13, "cell (C) { @pin (\"\") { direction : input; } }"),
    RefusedCell(
        13,
        "cell (C) { pin (A) { direction : input; } @pin (B \"A B\") { direction : input; } }",
    ),
    RefusedCell(
        13,
        "cell (C) { @ff (IQ, IQN) { next_state : \"1\"; clocked_on : \"0\"; } }",
    ),
    // Of several reasons the one with the least number is answered, at its least offset.
    RefusedCell(
        1,
        "cell (C) { pin (Y) { direction : input; three_state : A; } @pin (A) { } }",
    ),
    RefusedCell(
        1,
        "cell (C) { pin (Y) { direction : output; function : Z; } pin (Y) { @direction : none; } }",
    ),
    // But of a cell with buses, bundles or banks the third is tried first.
    RefusedCell(
        3,
        "cell (C) { pin (Y) { direction : output; three_state : A; } @bus (B) { } pin (A) { } }",
    ),
    // Accepted ones.
    RefusedCell(
        0,
        "cell (C) { pin (A) { direction : input; } statetable (\"A\", \"N\") { table : \"L : - : L\"; } pin (N) { direction : internal; internal_node : \"N\"; } }",
    ),
    RefusedCell(0, "cell (C) { } cell (D) { }"),
    RefusedCell(
        0,
        "cell (C) { pin (A) { direction : input; min_pulse_width_high : 999999999999999; } }",
    ),
];

/// Numbers of refusals, and libraries whose last cell has three-state outputs and is refused so.
const FLOATING: [RefusedCell<'static>; 22] = [
    RefusedCell(
        1,
        "cell (C) { pin (A) { direction : input; } pin (Y) { @direction : inout; three_state : \"A\"; } }",
    ),
    RefusedCell(
        2,
        "cell (C) { pin (A) { direction : input; @three_state : \"A\"; } pin (Y) { direction : output; three_state : \"A\"; function : \"A\"; } }",
    ),
    RefusedCell(
        6,
        "cell (C) { pin (A) { direction : input; } pin (\"-e1\") { direction : input; } pin (Y) { direction : output; function : \"A\"; @three_state : \"A\"; } }",
    ),
    RefusedCell(
        6,
        "cell (C) { pin (A) { direction : input; } pin (Y Z) { direction : output; function : \"A\"; three_state : \"1\"; @three_state : \"A\"; } pin (\"-e2\") { direction : input; } }",
    ),
    RefusedCell(
        6,
        "cell (C) { } @cell (C) { pin (A) { direction : input; } pin (Y) { direction : output; function : \"A\"; three_state : \"A\"; } }",
    ),
    RefusedCell(
        7,
        "cell (C) { pin (A) { direction : input; } pin (Y) { direction : output; function : \"A\"; @three_state : \"A) + (A\"; } }",
    ),
    RefusedCell(
        7,
        "cell (C) { pin (A) { direction : input; } pin (Y) { direction : output; function : \"A\"; three_state : \"A\"; @three_state : ; } }",
    ),
    RefusedCell(
        8,
        "cell (C) { pin (A) { direction : input; } pin (Y) { direction : output; function : \"A\"; @three_state : \"B\"; } }",
    ),
    RefusedCell(
        8,
        "cell (C) { pin (A) { direction : input; } pin (Y) { direction : output; function : \"A\"; @three_state : \"Y\"; } }",
    ),
    RefusedCell(
        10,
        "cell (C) { pin (A) { direction : input; } @pin (Y) { direction : output; three_state : \"A\"; } }",
    ),
    RefusedCell(
        8,
        "cell (C) { pin (A) { direction : input; } pin (Y) { direction : output; three_state : \"A\"; timing () { @related_pin : \"B\"; cell_rise (t) { values (\"1\"); } } } }",
    ),
    RefusedCell(
        8,
        "cell (C) { pin (A) { direction : input; } pin (Y) { direction : output; function : \"A\"; three_state : \"A\"; timing () { related_pin : \"A\"; cell_rise (t) { values (\"q\"); } } } pin (Z) { direction : output; @function : \"B\"; } }",
    ),
    RefusedCell(
        8,
        "cell (C) { pin (A) { direction : input; } pin (Y) { direction : output; function : \"A\"; three_state : \"A\"; timing () { @related_pin : \"B\"; cell_rise (t) { values (\"q\"); } } } pin (Z) { direction : output; function : \"B\"; } }",
    ),
    RefusedCell(
        9,
        "cell (C) { pin (A) { direction : input; } ff (P, PN) { @next_state : \"Q\"; clocked_on : \"A\"; } ff (Q, QN) { next_state : \"A\"; clocked_on : \"A\"; } pin (Y) { direction : output; function : \"A\"; three_state : \"A\"; timing () { related_pin : \"A\"; cell_rise (t) { values (\"q\"); } } } }",
    ),
    RefusedCell(
        12,
        "cell (C) { pin (A) { direction : input; } pin (Y) { direction : output; function : \"A\"; three_state : \"A\"; timing () { related_pin : \"A\"; cell_rise (t) { @values (\"q\"); } } } }",
    ),
    RefusedCell(
        12,
        "cell (C) { pin (A) { direction : input; } pin (Y) { direction : output; function : \"A\"; three_state : \"A\"; timing () { related_pin : \"A\"; timing_type : three_state_enable; cell_rise (t) { @values (\"q\"); } } timing () { related_pin : \"A\"; cell_rise (t) { values (\"r\"); } } } }",
    ),
    RefusedCell(
        12,
        "cell (C) { pin (A) { direction : input; } pin (Y) { direction : output; function : \"A\"; timing () { related_pin : \"A\"; cell_rise (t) { @values (\"q\"); } } } pin (Z) { direction : output; function : \"A\"; three_state : \"A\"; timing () { related_pin : \"A\"; cell_rise (t) { values (\"q\"); } } } }",
    ),
    RefusedCell(
        12,
        "cell (C) { pin (A) { direction : input; } pin (Z) { direction : output; function : \"A\"; three_state : \"A\"; timing () { related_pin : \"A\"; cell_rise (t) { @values (\"q\"); } } } pin (Y) { direction : output; function : \"A\"; timing () { related_pin : \"A\"; cell_rise (t) { values (\"q\"); } } } }",
    ),
    RefusedCell(
        12,
        "cell (\"C D\") { pin (A) { direction : input; } pin (Z) { direction : output; function : \"A\"; three_state : \"A\"; timing () { related_pin : \"A\"; cell_rise (t) { @values (\"q\"); } } } }",
    ),
    RefusedCell(
        13,
        "@cell (\"C D\") { pin (A) { direction : input; } pin (Z) { direction : output; function : \"A\"; three_state : \"A\"; timing () { related_pin : \"A\"; cell_rise (t) { values (\"1\"); } } } }",
    ),
    RefusedCell(
        14,
        "cell (C) { pin (A B C D E F G H I J K) { direction : input; } pin (Z) { direction : output; function : \"A\"; @three_state : \"A B C D E F G H I J K\"; } }",
    ),
    RefusedCell(
        2,
        "cell (C) { pin (A) { direction : input; @three_state : \"A\"; } }",
    ),
];

#[test]
fn cells_are_refused(rt: HostRuntime) -> Result<(), Fail> {
    all_hold(rt.alloc(), &REFUSED)
}

#[test]
fn cells_with_three_state_outputs_are_refused(rt: HostRuntime) -> Result<(), Fail> {
    all_hold(rt.alloc(), &FLOATING)
}

/// A unit of time that no library has.
const OTHER_UNIT: &str = "time_unit : \"3ns\";";

/// A cell that reads a time.
const READING_A_TIME: &str =
    "cell (C) { pin (A) { direction : input; } pin (Y) { direction : output; function : \"A\"; timing () { related_pin : \"A\"; cell_rise (t) { @values (\"1\"); } } } }";

#[test]
fn a_time_without_a_unit_refuses_its_cell(rt: HostRuntime) {
    assert!(rt; is_told(rt.alloc(), OTHER_UNIT, 12, READING_A_TIME));
}
