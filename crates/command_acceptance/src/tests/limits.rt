//! Cells at the edge of a limit: the last one that is accepted and the first one that is refused. The mark `@` stands at the
//! offset of the refusal.
use super::refused_cells::RefusedCell;
use std::alloc::{AllocError, Global};
use std::test::Fail;
use table_tests::{Row, all_hold};

/// A part of a text: so many times this, in which `#` stands for the number of the time, from 0.
type Part = (usize, &'static str);

/// Adds a part to a text.
fn push_part(alloc: Global, text: &mut String, part: Part) -> Result<(), AllocError> {
    for time in 0..part.0 {
        let number = format!(in alloc; "{time}")?;
        text.push_str(part.1.replace(alloc, "#", number.as_str())?.as_str())?;
    }
    Ok(())
}

/// A text of these parts.
fn text_of(alloc: Global, parts: &[Part]) -> Result<String, AllocError> {
    let mut text = String::new(alloc);
    for part in parts {
        push_part(alloc, &mut text, *part)?;
    }
    Ok(text)
}

/// The number of a refusal, and the parts of the statements in a cell that is refused so; where they have no mark, it is
/// accepted.
struct Limit(u8, &'static [Part]);

impl Row for Limit {
    fn holds(&self, alloc: Global) -> bool {
        match text_of(alloc, self.1) {
            Ok(text) => RefusedCell(self.0, text.as_str()).holds(alloc),
            Err(_) => false,
        }
    }
}

/// A cell, up to its statements.
const CELL: Part = (1, "cell (C) { ");

/// A check.
const CHECK: &str =
    "timing () { related_pin : A; timing_type : setup_rising; rise_constraint (t) { values (1); } } ";

/// The numbers of pins, state groups, checks and arcs.
const PARTS: [Limit; 5] = [
    Limit(
        0,
        &[CELL, (64, "pin (P#) { direction : input; } "), (1, "}")],
    ),
    Limit(
        13,
        &[
            CELL,
            (64, "pin (P#) { direction : input; } "),
            (1, "@pin (Q) { direction : input; } }"),
        ],
    ),
    Limit(
        13,
        &[
            CELL,
            (1, "pin (A) { direction : input; } "),
            (16, "ff (I#, J#) { next_state : A; clocked_on : A; } "),
            (1, "@ff (K, L) { next_state : A; clocked_on : A; } }"),
        ],
    ),
    Limit(
        13,
        &[
            CELL,
            (
                1,
                "pin (A) { direction : input; } pin (B) { direction : input; ",
            ),
            (256, CHECK),
            (1, "@"),
            (1, CHECK),
            (1, "} }"),
        ],
    ),
    Limit(
        13,
        &[
            CELL,
            (1, "pin ("),
            (32, "A# "),
            (1, ") { direction : input; } pin ("),
            (32, "Y# "),
            (
                1,
                ") { direction : output; function : A0; @timing () { related_pin : \"",
            ),
            (32, "A# "),
            (1, "\"; cell_rise (t) { values (1); } }"),
            (
                1,
                " timing () { related_pin : A0; when : A1; cell_rise (t) { values (1); } } } }",
            ),
        ],
    ),
];

#[test]
fn numbers_of_parts_have_limits(rt: HostRuntime) -> Result<(), Fail> {
    all_hold(rt.alloc(), &PARTS)
}

/// Two pins, up to the function of the second.
const TWO_PINS: Part = (
    1,
    "pin (A) { direction : input; } pin (Y) { direction : output; ",
);

/// The lengths of names and of function texts.
const TEXTS: [Limit; 4] = [
    Limit(0, &[(1, "cell ("), (255, "a"), (1, ") { }")]),
    Limit(13, &[(1, "@cell ("), (256, "a"), (1, ") { }")]),
    Limit(
        0,
        &[
            CELL,
            TWO_PINS,
            (1, "function : \"A"),
            (4095, " "),
            (1, "\"; } }"),
        ],
    ),
    Limit(
        7,
        &[
            CELL,
            TWO_PINS,
            (1, "@function : \"A"),
            (4096, " "),
            (1, "\"; } }"),
        ],
    ),
];

#[test]
fn texts_have_limits(rt: HostRuntime) -> Result<(), Fail> {
    all_hold(rt.alloc(), &TEXTS)
}

/// Eleven inputs.
const ELEVEN_PINS: Part = (1, "pin (A B C D E F G H I J K) { direction : input; } ");

/// A function of ten names.
const TEN_NAMES: Part = (1, "A^B^C^D^E^F^G^H^I^J");

/// A state of nine names, an output and a condition of eleven names, and an output of ten.
const WIDTHS: [Limit; 4] = [
    Limit(
        14,
        &[
            CELL,
            ELEVEN_PINS,
            (
                1,
                "@ff (IQ, IQN) { next_state : \"A*B*C*D*E*F*G*H\"; clocked_on : K; } }",
            ),
        ],
    ),
    Limit(
        14,
        &[
            CELL,
            ELEVEN_PINS,
            (1, "pin (Y) { direction : output; @function : \""),
            TEN_NAMES,
            (1, "^K\"; } }"),
        ],
    ),
    Limit(
        14,
        &[
            CELL,
            ELEVEN_PINS,
            (
                1,
                "pin (L) { direction : input; } pin (Y) { direction : output; function : A; ",
            ),
            (1, "timing () { related_pin : L; @when : \""),
            TEN_NAMES,
            (1, "^K\"; cell_rise (t) { values (1); } } } }"),
        ],
    ),
    Limit(
        0,
        &[
            CELL,
            ELEVEN_PINS,
            (1, "pin (Y) { direction : output; function : \""),
            TEN_NAMES,
            (1, "\"; } }"),
        ],
    ),
];

#[test]
fn primitives_have_limits(rt: HostRuntime) -> Result<(), Fail> {
    all_hold(rt.alloc(), &WIDTHS)
}
