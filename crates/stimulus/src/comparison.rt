//! A section of three simulators: the lines of each, printed side by side, and the first change at which two of them differ.
ghost use Rattle.std.specs.Prelude.{◌≡◌, ◌<◌, [], ◌∷◌, ◌++◌, List, length, IfSome, IfOk};
ghost use Rattle.std.specs.Option.{option_copied};
ghost use Rattle.cell_machine.specs.declared.changes.Change.{Change as ChangeOf};
ghost use Rattle.cell_machine.specs.History.{IsProperFrom, ComesAfter};
ghost use Rattle.text_io.specs.declared.slots.OutSlot.TheVariants.{Report};
ghost use Rattle.text_io.specs.Desk.{WritesText, HasCause, StopsWithCause};
ghost use Rattle.text_io.specs.Line.{PutsText};
ghost use Rattle.stimulus.specs.Comparison.{three_lines, HavePorts, are_alike, lines_text, compared_text, first_of};
ghost use Rattle.stimulus.specs.Comparison.{first_unlike, tagged_thrice, verdict_text, NoneUnlikeIsEqual};
ghost use Rattle.stimulus.specs.Writes.{WritesTrace, PutsTrace};

use crate::differences::same_line;
use crate::line_pieces::Pieces;
use crate::printing::put_line;
use crate::trace::push_shown;
use crate::waiting::{Waiting, put_tagged};
use crate::{Ports, TraceSim};
use cell_machine::{Change, Few};
use itoa::Buffer;
use std::alloc::Global;
use text_io::{Desk, Failed, OutSlot, Stop, write_pieces, write_whole};

/// Simulators of a cell, of its Verilog module and of its VITAL entity.
#[derive(Drop)]
pub struct ThreeSimulators<L, V, H> {
    pub liberty: L,
    pub verilog: V,
    pub vital: H,
}

impl<L: TraceSim, V: TraceSim, H: TraceSim> ThreeSimulators<L, V, H> {
    /// Gives a change to each.
    fn step(&mut self, change: &Change)
        requires liberty_pin { change.now.pin < (L.machine self.old.liberty).inputs }
        requires verilog_pin { change.now.pin < (V.machine self.old.verilog).inputs }
        requires vital_pin { change.now.pin < (H.machine self.old.vital).inputs }
        requires time { (h : List ChangeOf)
            × (L.stands self.old.liberty h
            × (V.stands self.old.verilog h × (H.stands self.old.vital h × ComesAfter change.now.at h))) }
        ensures liberty_machine { L.machine self.new.liberty ≡ L.machine self.old.liberty }
        ensures verilog_machine { V.machine self.new.verilog ≡ V.machine self.old.verilog }
        ensures vital_machine { H.machine self.new.vital ≡ H.machine self.old.vital }
        ensures liberty { (h : List ChangeOf) → L.stands self.old.liberty h → L.stands self.new.liberty (change.now ∷ h) }
        ensures verilog { (h : List ChangeOf) → V.stands self.old.verilog h → V.stands self.new.verilog (change.now ∷ h) }
        ensures vital { (h : List ChangeOf) → H.stands self.old.vital h → H.stands self.new.vital (change.now ∷ h) }
    {
        self.liberty.step(change.at, change.pin, change.to);
        self.verilog.step(change.at, change.pin, change.to);
        self.vital.step(change.at, change.pin, change.to);
    }

    /// Whether all show the same.
    fn are_alike(&self) -> bool
        requires verilog { (L.machine self.now.liberty).outputs ≡ (V.machine self.now.verilog).outputs }
        requires vital { (L.machine self.now.liberty).outputs ≡ (H.machine self.now.vital).outputs }
        ensures { (h : List ChangeOf) → L.stands self.now.liberty h → V.stands self.now.verilog h → H.stands self.now.vital h
            → result ≡ are_alike (three_lines (L.machine self.now.liberty) (V.machine self.now.verilog)
            (H.machine self.now.vital) h) }
    {
        same_line(&self.liberty, &self.verilog) && same_line(&self.liberty, &self.vital)
    }
}

/// Gives the changes to three simulators that stand at their starts, and appends the lines of their traces to the report: those
/// of the start and of each change, the cell's with the tag `L`, the module's with `V` and the entity's with `H`. It answers the
/// number of the first change, from 1, at which two of the three differ: 0 for the start, and nothing where they never do.
///
/// Each needs as many inputs and outputs as there are names, and the changes are of these inputs, at times that rise strictly.
/// After a fault a prefix of the lines was appended. `Failed` comes only where a write failed.
pub fn write_comparison<D: Desk, L: TraceSim, V: TraceSim, H: TraceSim>(
    alloc: Global,
    desk: &mut D,
    ports: &Ports,
    three: &mut ThreeSimulators<L, V, H>,
    changes: &[Change],
) -> Result<Option<usize>, Stop>
    requires ports { HavePorts ports.now (L.machine three.old.liberty) (V.machine three.old.verilog) (H.machine three.old.vital) }
    requires liberty { L.stands three.old.liberty [] }
    requires verilog { V.stands three.old.verilog [] }
    requires vital { H.stands three.old.vital [] }
    requires proper { IsProperFrom (length ports.now.inputs) [] changes.now }
    ensures text { WritesTrace (D.state desk.old) (D.state desk.new)
        (compared_text ports.now changes.now
        (three_lines (L.machine three.old.liberty) (V.machine three.old.verilog) (H.machine three.old.vital))) result }
    ensures first { IfOk result (λ first. first ≡ first_unlike changes.now
        (three_lines (L.machine three.old.liberty) (V.machine three.old.verilog) (H.machine three.old.vital))) }
    ensures cause { StopsWithCause (D.faults desk.old) (D.faults desk.new) result }
{
    let mut waiting = Few::new(0);
    let mut text = Vec::new(alloc);
    let alike = put_lines(desk, &mut waiting, &mut text, None, ports, three)?;
    let mut first = unlike(alike, None, 0);
    let mut number = 1;
    for change in changes {
        three.step(change);
        let alike = put_lines(desk, &mut waiting, &mut text, Some(change), ports, three)?;
        first = unlike(alike, first, number);
        number += 1;
    }
    write_whole(desk, OutSlot::Report, waiting.as_slice())?;
    Ok(first)
}

/// The first number so far, and else this one where the three are not alike.
fn unlike(alike: bool, first: Option<usize>, number: usize) -> Option<usize>
    ensures { result ≡ first_of alike first number }
{
    match first {
        Some(first) => Some(first),
        None if alike => None,
        None => Some(number),
    }
}

/// Puts the lines that the three show behind the bytes that wait, and answers whether they are alike. Where they are, one is made
/// for all, since only their tags differ, and else each by itself.
fn put_lines<D: Desk, L: TraceSim, V: TraceSim, H: TraceSim>(
    desk: &mut D,
    waiting: &mut Waiting,
    text: &mut Vec<u8>,
    change: Option<&Change>,
    ports: &Ports,
    three: &ThreeSimulators<L, V, H>,
) -> Result<bool, Stop>
    requires ports { HavePorts ports.now (L.machine three.now.liberty) (V.machine three.now.verilog) (H.machine three.now.vital) }
    requires pin { IfSome change (λ change. change.now.pin < length ports.now.inputs) }
    ensures text { (h : List ChangeOf) → L.stands three.now.liberty h → V.stands three.now.verilog h → H.stands three.now.vital h
        → PutsTrace (D.state desk.old) (D.state desk.new) waiting.old
        (lines_text (option_copied change.entry) ports.now
        (three_lines (L.machine three.now.liberty) (V.machine three.now.verilog) (H.machine three.now.vital) h))
        waiting.new result }
    ensures alike { IfOk result (λ alike. (h : List ChangeOf) → L.stands three.now.liberty h → V.stands three.now.verilog h
        → H.stands three.now.vital h → alike ≡ are_alike
        (three_lines (L.machine three.now.liberty) (V.machine three.now.verilog) (H.machine three.now.vital) h)) }
    ensures cause { StopsWithCause (D.faults desk.old) (D.faults desk.new) result }
{
    let alike = three.are_alike();
    if alike {
        let mut pieces = Few::new(0);
        text.clear();
        push_shown(text, &mut pieces, change, ports, &three.liberty)?;
        put_tags(desk, waiting, text.as_slice(), &pieces)?;
        return Ok(alike);
    }
    put_line(desk, waiting, text, b'L', change, ports, &three.liberty)?;
    put_line(desk, waiting, text, b'V', change, ports, &three.verilog)?;
    put_line(desk, waiting, text, b'H', change, ports, &three.vital)?;
    Ok(alike)
}

/// Puts a line under each tag, of which the rest is a text, mostly empty, and pieces behind it.
#[inline(always)]
fn put_tags<D: Desk>(
    desk: &mut D,
    waiting: &mut Waiting,
    text: &[u8],
    pieces: &Pieces,
) -> Result<(), Failed>
    ensures text { PutsText (D.state desk.old) (D.state desk.new) Report waiting.old (tagged_thrice (text.now ++ pieces.now))
        waiting.new result }
    ensures cause { HasCause (D.faults desk.old) (D.faults desk.new) result }
{
    put_tagged(desk, waiting, b'L', text, pieces)?;
    put_tagged(desk, waiting, b'V', text, pieces)?;
    put_tagged(desk, waiting, b'H', text, pieces)
}

/// Appends to the report the line with which a section of three simulators ends: `equal`, or the number of the first change at
/// which two of them differ. After `Failed`, which comes only where a write failed, a prefix of it was appended. It takes no
/// memory.
#[tactic(auto, unfolding(crate::specs::Comparison::verdict_text))]
pub fn write_verdict<D: Desk>(desk: &mut D, first: Option<usize>) -> Result<(), Failed>
    ensures text { WritesText (D.state desk.old) (D.state desk.new) Report (verdict_text first) result }
    ensures cause { HasCause (D.faults desk.old) (D.faults desk.new) result }
{
    match first {
        None => write_whole(desk, OutSlot::Report, b"equal\n"),
        Some(number) => {
            let mut digits = Buffer::new();
            let number = digits.format(number).as_bytes();
            write_pieces(
                desk,
                OutSlot::Report,
                &[b"differs at change ", number, b"\n"],
            )
        }
    }
}

/// A law: where three simulators run as many checks, no two of them are found to differ exactly where their traces are equal.
#[tactic(auto, using(crate::proofs::ThreeTraces::none_unlike_is_equal))]
pub fn none_unlike_is_equal()
    ensures { NoneUnlikeIsEqual }
{}
