//! The lines on a file of models or a stimulus that is not read.
ghost use Rattle.std.specs.Prelude.{◌≡◌};
ghost use Rattle.text_io.specs.declared.slots.OutSlot.TheVariants.{Faults};
ghost use Rattle.text_io.specs.Desk.{HasCause, WritesText};
ghost use Rattle.udp_tables.specs.ModelFaults.{fault_place};
ghost use Rattle.model_files.specs.FaultLines.{word_of_fault, model_fault_line, stimulus_fault_line, model_too_long_line};
ghost use Rattle.model_files.specs.FaultLines.{stimulus_too_long_line};

use crate::format::ModelFormat;
use stimulus::Cause;
use text_io::{
    Bytes, Decimal, Desk, Failed, OutSlot, parts, write_part, write_pieces, write_whole,
};
use udp_tables::ModelFault;

/// The word of a fault.
#[tactic(auto, unfolding(crate::specs::FaultLines::word_of_fault))]
fn word_of_fault(fault: &ModelFault) -> &'static [u8]
    ensures { result.now ≡ word_of_fault fault.now }
{
    match fault {
        ModelFault::Lexical(_) => b"lexical",
        ModelFault::Syntax(_) => b"syntax",
        ModelFault::TwoEdges(_) => b"two edges",
        ModelFault::Width(_) => b"width",
        ModelFault::Undefined(_) => b"undefined",
        ModelFault::Twice(_) => b"twice",
        ModelFault::Undriven(_) => b"undriven",
        ModelFault::Unequal(_) => b"unequal",
        ModelFault::Memory => b"",
    }
}

/// The offset of a fault.
fn place_of_fault(fault: &ModelFault) -> usize
    ensures { result ≡ fault_place fault.now }
{
    match fault {
        ModelFault::Lexical(at) => *at,
        ModelFault::Syntax(at) => *at,
        ModelFault::TwoEdges(at) => *at,
        ModelFault::Width(at) => *at,
        ModelFault::Undefined(at) => *at,
        ModelFault::Twice(at) => *at,
        ModelFault::Undriven(at) => *at,
        ModelFault::Unequal(at) => *at,
        ModelFault::Memory => 0,
    }
}

/// Tells a text of models that is refused: its format, the offset of its first fault, from 0, and the fault's word. After
/// `Failed`, which comes only where a write failed, a prefix of the line was appended.
#[tactic(auto, unfolding(crate::specs::FaultLines::model_fault_line))]
pub fn write_model_fault<D: Desk>(
    desk: &mut D,
    format: ModelFormat,
    fault: &ModelFault,
) -> Result<(), Failed>
    ensures text { WritesText (D.state desk.old) (D.state desk.new) Faults (model_fault_line format fault.now) result }
    ensures cause { HasCause (D.faults desk.old) (D.faults desk.new) result }
{
    let found = parts!(Bytes(b": "), Bytes(word_of_fault(fault)), Bytes(b"\n"));
    let place = parts!(Decimal(place_of_fault(fault) as u128), found);
    let line = parts!(Bytes(format.word()), Bytes(b" refused at "), place);
    write_part(desk, OutSlot::Faults, &line)
}

/// Tells a stimulus with a bad line, with the first one's number, from 1, and its cause. After `Failed`, which comes only
/// where a write failed, a prefix of the line was appended.
#[tactic(auto, unfolding(crate::specs::FaultLines::stimulus_fault_line))]
pub fn write_stimulus_fault<D: Desk>(desk: &mut D, line: usize, cause: Cause) -> Result<(), Failed>
    ensures text { WritesText (D.state desk.old) (D.state desk.new) Faults (stimulus_fault_line line cause) result }
    ensures cause { HasCause (D.faults desk.old) (D.faults desk.new) result }
{
    let found = parts!(Bytes(b": "), Bytes(cause.word()), Bytes(b"\n"));
    let line = parts!(Bytes(b"stimulus line "), Decimal(line as u128), found);
    write_part(desk, OutSlot::Faults, &line)
}

/// Tells a file of models with too many bytes. After `Failed`, which comes only where a write failed, a prefix of the line was
/// appended.
#[tactic(auto, unfolding(crate::specs::FaultLines::model_too_long_line))]
pub fn write_model_too_long<D: Desk>(desk: &mut D, format: ModelFormat) -> Result<(), Failed>
    ensures text { WritesText (D.state desk.old) (D.state desk.new) Faults (model_too_long_line format) result }
    ensures cause { HasCause (D.faults desk.old) (D.faults desk.new) result }
{
    write_pieces(desk, OutSlot::Faults, &[format.word(), b" too long\n"])
}

/// Tells a stimulus with too many bytes. After `Failed`, which comes only where a write failed, a prefix of the line was
/// appended.
pub fn write_stimulus_too_long<D: Desk>(desk: &mut D) -> Result<(), Failed>
    ensures text { WritesText (D.state desk.old) (D.state desk.new) Faults stimulus_too_long_line result }
    ensures cause { HasCause (D.faults desk.old) (D.faults desk.new) result }
{
    write_whole(desk, OutSlot::Faults, b"stimulus too long\n")
}
