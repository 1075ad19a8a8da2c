//! The lines of a trace, printed.
ghost use Rattle.std.specs.Prelude.{◌≡◌, ◌+◌, ◌<◌, ◌++◌, List, [], ◌∷◌, length, codes, IfSome, OnOk};
ghost use Rattle.std.specs.Option.{option_copied};
ghost use Rattle.cell_machine.specs.declared.changes.Change.{Change as ChangeOf};
ghost use Rattle.stimulus.specs.TraceLine.{value_text, head_text, change_text, output_text, outputs_text, delay_text};
ghost use Rattle.stimulus.specs.TraceLine.{report_text, reports_text, shown_text};

use crate::drives::Drive;
use crate::line_pieces::{Pieces, gather, gather_byte};
use crate::ports::Ports;
use crate::trace_sim::TraceSim;
use bool_functions::Names;
use cell_machine::Change;
use itoa::Buffer;
use std::alloc::AllocError;

/// What stands behind the tag of the line that a simulator shows after its last change, with the line feed at its end: `start` or
/// the change's time in picoseconds, input and value; what each output shows, `z` where it floats, with its delay in
/// picoseconds where it changed at this change; and the checks that reported, numbered from 1.
///
/// It needs as many names as the simulator has inputs and outputs, and a change of one of its inputs.
#[inline(always)]
pub(crate) fn push_shown<S: TraceSim>(
    text: &mut Vec<u8>,
    pieces: &mut Pieces,
    change: Option<&Change>,
    ports: &Ports,
    sim: &S,
) -> Result<(), AllocError>
    requires pin { IfSome change (λ change. change.now.pin < (S.machine sim.now).inputs) }
    requires inputs { length ports.now.inputs ≡ (S.machine sim.now).inputs }
    requires outputs { length ports.now.outputs ≡ (S.machine sim.now).outputs }
    ensures { OnOk result ((h : List ChangeOf) → S.stands sim.now h
        → text.new.items ++ pieces.new ≡ (text.old.items ++ pieces.old)
        ++ shown_text (option_copied change.entry) ports.now.inputs ports.now.outputs ((S.machine sim.now).line h)) }
{
    push_head(text, pieces, change, &ports.inputs)?;
    push_outputs(text, pieces, &ports.outputs, sim)?;
    push_reports(text, pieces, sim)?;
    gather_byte(text, pieces, b'\n')?;
    Ok(())
}

/// What the line is on.
#[inline(always)]
fn push_head(
    text: &mut Vec<u8>,
    pieces: &mut Pieces,
    change: Option<&Change>,
    inputs: &Names,
) -> Result<(), AllocError>
    requires { IfSome change (λ change. change.now.pin < length inputs.now) }
    ensures { OnOk result (text.new.items ++ pieces.new ≡ (text.old.items ++ pieces.old)
        ++ head_text inputs.now (option_copied change.entry)) }
{
    match change {
        None => gather(text, pieces, b" start :")?,
        Some(change) => push_change(text, pieces, change, inputs)?,
    }
    Ok(())
}

/// A change.
#[tactic(auto, unfolding(crate::specs::TraceLine::change_text))]
#[inline(always)]
fn push_change(
    text: &mut Vec<u8>,
    pieces: &mut Pieces,
    change: &Change,
    inputs: &Names,
) -> Result<(), AllocError>
    requires { change.now.pin < length inputs.now }
    ensures { OnOk result (text.new.items ++ pieces.new ≡ (text.old.items ++ pieces.old) ++ change_text inputs.now change.now) }
{
    let mut time = Buffer::new();
    push_word(text, pieces, time.format(change.at).as_bytes())?;
    push_word(text, pieces, inputs.name(change.pin))?;
    gather_byte(text, pieces, b' ')?;
    gather_byte(text, pieces, value_letter(Drive::of(change.to)))?;
    gather(text, pieces, b" :")?;
    Ok(())
}

/// A word behind a space.
#[inline(always)]
fn push_word(text: &mut Vec<u8>, pieces: &mut Pieces, word: &[u8]) -> Result<(), AllocError>
    ensures { OnOk result (text.new.items ++ pieces.new ≡ (text.old.items ++ pieces.old) ++ (codes " " ++ word.now)) }
{
    gather_byte(text, pieces, b' ')?;
    gather(text, pieces, word)?;
    Ok(())
}

/// The letter that a drive is printed as.
fn value_letter(value: Drive) -> u8
    ensures { result ∷ [] ≡ value_text value }
{
    match value {
        Drive::Zero => b'0',
        Drive::One => b'1',
        Drive::Unknown => b'x',
        Drive::Floating => b'z',
    }
}

/// The outputs, in order.
#[inline(always)]
fn push_outputs<S: TraceSim>(
    text: &mut Vec<u8>,
    pieces: &mut Pieces,
    names: &Names,
    sim: &S,
) -> Result<(), AllocError>
    requires { length names.now ≡ (S.machine sim.now).outputs }
    ensures { OnOk result ((h : List ChangeOf) → S.stands sim.now h
        → text.new.items ++ pieces.new ≡ (text.old.items ++ pieces.old)
        ++ outputs_text names.now ((S.machine sim.now).line h).values ((S.machine sim.now).line h).delays) }
{
    for place in 0..names.len() {
        push_output(
            text,
            pieces,
            names.name(place),
            sim.value(place),
            sim.delay(place),
        )?;
    }
    Ok(())
}

/// An output.
#[tactic(auto, unfolding(crate::specs::TraceLine::output_text))]
#[inline(always)]
fn push_output(
    text: &mut Vec<u8>,
    pieces: &mut Pieces,
    name: &[u8],
    value: Drive,
    delay: Option<u64>,
) -> Result<(), AllocError>
    ensures { OnOk result (text.new.items ++ pieces.new ≡ (text.old.items ++ pieces.old) ++ output_text name.now value delay) }
{
    push_word(text, pieces, name)?;
    gather_byte(text, pieces, b'=')?;
    gather_byte(text, pieces, value_letter(value))?;
    push_delay(text, pieces, delay)
}

/// The delay of an output that changed.
#[inline(always)]
fn push_delay(text: &mut Vec<u8>, pieces: &mut Pieces, delay: Option<u64>) -> Result<(), AllocError>
    ensures { OnOk result (text.new.items ++ pieces.new ≡ (text.old.items ++ pieces.old) ++ delay_text delay) }
{
    if let Some(delay) = delay {
        let mut digits = Buffer::new();
        gather_byte(text, pieces, b'@')?;
        gather(text, pieces, digits.format(delay).as_bytes())?;
    }
    Ok(())
}

/// The checks that reported.
#[inline(always)]
fn push_reports<S: TraceSim>(
    text: &mut Vec<u8>,
    pieces: &mut Pieces,
    sim: &S,
) -> Result<(), AllocError>
    ensures { OnOk result ((h : List ChangeOf) → S.stands sim.now h
        → text.new.items ++ pieces.new ≡ (text.old.items ++ pieces.old) ++ reports_text 1 ((S.machine sim.now).line h).reports) }
{
    for check in 0..sim.checks() {
        push_report(text, pieces, check + 1, sim.reported(check))?;
    }
    Ok(())
}

/// A check that may have reported, by its number from 1.
#[tactic(auto, unfolding(crate::specs::TraceLine::report_text))]
#[inline(always)]
fn push_report(
    text: &mut Vec<u8>,
    pieces: &mut Pieces,
    number: usize,
    reported: bool,
) -> Result<(), AllocError>
    ensures { OnOk result (text.new.items ++ pieces.new ≡ (text.old.items ++ pieces.old) ++ report_text number reported) }
{
    if reported {
        let mut digits = Buffer::new();
        gather(text, pieces, b" !")?;
        gather(text, pieces, digits.format(number).as_bytes())?;
    }
    Ok(())
}
