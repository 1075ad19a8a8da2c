//! The texts of the cells that a run makes for itself.
ghost use Rattle.std.specs.Prelude.{◌≡◌, ◌%◌, ◌++◌, IfOk, OnOk};
ghost use Rattle.liberty_groups.specs.Writing.{group_text, items_text};
ghost use Rattle.selftest_cells.specs.Library.{function_items, flip_flop_items, latch_items, clock_gate_items, items_by};
ghost use Rattle.selftest_cells.specs.Library.{cell_group, front_text, AreWritable};
ghost use Rattle.selftest_cells.specs.Draws.{next as next_of, pick as pick_of};
ghost use Rattle.selftest_cells.specs.Sums.{function_text as function_text_of};

use crate::draws::{next, pick};
use crate::sums::function_text;
use itoa::Buffer;
use std::alloc::{AllocError, Global};

/// The statements of a cell with a flip-flop that has a clear, a setup time and delays.
fn flip_flop() -> &'static [u8]
    ensures { result.now ≡ items_text flip_flop_items }
{
    b"ff (\"IQ\", \"IQN\") {\nnext_state : \"D\";\nclocked_on : \"CK\";\nclear : \"R\";\n}\n\
        pin (\"CK\") {\ndirection : \"input\";\n}\n\
        pin (\"D\") {\ndirection : \"input\";\n\
        timing () {\nrelated_pin : \"CK\";\ntiming_type : \"setup_rising\";\n\
        rise_constraint (\"scalar\") {\nvalues (\"20\");\n}\nfall_constraint (\"scalar\") {\nvalues (\"20\");\n}\n}\n}\n\
        pin (\"R\") {\ndirection : \"input\";\n}\n\
        pin (\"Q\") {\ndirection : \"output\";\nfunction : \"IQ\";\n\
        timing () {\nrelated_pin : \"CK\";\ntiming_type : \"rising_edge\";\n\
        cell_rise (\"scalar\") {\nvalues (\"5\");\n}\ncell_fall (\"scalar\") {\nvalues (\"7\");\n}\n}\n}\n"
}

/// The statements of a cell with a latch that has a least pulse width.
fn latch() -> &'static [u8]
    ensures { result.now ≡ items_text latch_items }
{
    b"latch (\"IQ\", \"IQN\") {\ndata_in : \"D\";\nenable : \"EN\";\n}\n\
        pin (\"EN\") {\ndirection : \"input\";\nmin_pulse_width_high : \"15\";\n}\n\
        pin (\"D\") {\ndirection : \"input\";\n}\n\
        pin (\"Q\") {\ndirection : \"output\";\nfunction : \"IQ\";\n}\n"
}

/// The statements of a cell with a clock gate by a state table.
fn clock_gate() -> &'static [u8]
    ensures { result.now ≡ items_text clock_gate_items }
{
    b"statetable (\"CK E SE\", \"IQ\") {\n\
        table : \"L L L : - : L, L L H : - : H, L H L : - : H, L H H : - : H, H - - : - : N\";\n}\n\
        pin (\"CK\") {\ndirection : \"input\";\n}\n\
        pin (\"E\") {\ndirection : \"input\";\n}\n\
        pin (\"SE\") {\ndirection : \"input\";\n}\n\
        pin (\"IQ\") {\ndirection : \"internal\";\ninternal_node : \"IQ\";\n}\n\
        pin (\"GCK\") {\ndirection : \"output\";\nstate_function : \"CK * IQ\";\n}\n"
}

/// What stands before the function of a cell with a function of three inputs.
const BEFORE_FUNCTION: &[u8] = b"pin (\"A\") {\ndirection : \"input\";\n}\n\
    pin (\"B\") {\ndirection : \"input\";\n}\n\
    pin (\"C\") {\ndirection : \"input\";\n}\n\
    pin (\"Y\") {\ndirection : \"output\";\nfunction : \"";

/// The function text that is drawn from a cell's number.
fn drawn_function(alloc: Global, number: u64) -> Result<Vec<u8>, AllocError>
    ensures { IfOk result (λ text. text.items ≡ function_text_of (pick_of (next_of number) 256)) }
{
    function_text(alloc, pick(next(number), 256))
}

/// Appends the statements of a cell with a function that is drawn from its number.
fn push_function(alloc: Global, text: &mut Vec<u8>, number: u64) -> Result<(), AllocError>
    ensures { OnOk result (text.new.items
        ≡ text.old.items ++ items_text (function_items (function_text_of (pick_of (next_of number) 256)))) }
{
    let function = drawn_function(alloc, number)?;
    text.extend_from_slice(BEFORE_FUNCTION)?;
    text.extend_from_slice(function.as_slice())?;
    text.extend_from_slice(b"\";\n}\n")?;
    Ok(())
}

/// Appends the statements of the cell with a number.
fn push_statements(alloc: Global, text: &mut Vec<u8>, number: u64) -> Result<(), AllocError>
    ensures { OnOk result (text.new.items ≡ text.old.items ++ items_text (items_by (number % 4) number)) }
{
    match number % 4 {
        0 => push_function(alloc, text, number)?,
        1 => text.extend_from_slice(flip_flop())?,
        2 => text.extend_from_slice(latch())?,
        _ => text.extend_from_slice(clock_gate())?,
    }
    Ok(())
}

/// The text of the cell with a number, from 1 on. An `Err` comes only where memory is wanting.
#[tactic(auto, using(crate::proofs::CellTexts::text_of_cell))]
pub(crate) fn cell_text(alloc: Global, number: u64) -> Result<Vec<u8>, AllocError>
    ensures { IfOk result (λ text. text.items ≡ group_text (cell_group number)) }
{
    let mut buffer = Buffer::new();
    let mut text = Vec::from_slice(alloc, b"cell (\"G")?;
    text.extend_from_slice(buffer.format(number).as_bytes())?;
    text.extend_from_slice(b"\") {\n")?;
    push_statements(alloc, &mut text, number)?;
    text.extend_from_slice(b"}\n")?;
    Ok(text)
}

/// What stands before the cells in the text of the library. An `Err` comes only where memory is wanting.
#[tactic(auto, unfolding(crate::specs::Library::front_text))]
pub(crate) fn front(alloc: Global) -> Result<Vec<u8>, AllocError>
    ensures { IfOk result (λ text. text.items ≡ front_text) }
{
    Ok(Vec::from_slice(alloc, b"library (\"selftest\") {\ntime_unit : \"1ps\";\n")?)
}

/// A law: each library and each of its cells can be written, so that its text is read again as that group
/// (`liberty_groups::writing_reads_back`).
pub fn are_writable()
    ensures { AreWritable }
{}
