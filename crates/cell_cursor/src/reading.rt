//! What the end of a library comes to.

ghost use Rattle.std.specs.Prelude.{◌≡◌, ◌<◌, ◌+◌, ◌^◌, ◌&&◌, [], length, OnOk, IfOk};
ghost use Rattle.grammar_rules.specs.Reading.{read};
ghost use Rattle.liberty_text.specs.Scanner.{scan_of};
ghost use Rattle.liberty_groups.specs.Answer.{is_last, is_nil};
ghost use Rattle.cell_cursor.specs.Items.{rest_at, items_in};
ghost use Rattle.cell_cursor.specs.Finish.{part_outcome, part_halt, halt_in, left_in, goes_on_closed, may_go_on};
ghost use Rattle.cell_cursor.specs.Finish.{answer_by, answer_at};
ghost use Rattle.cell_cursor.specs.Leads.{is_start};
ghost use Rattle.cell_cursor.specs.Scanned.{stop_behind};

use crate::cursor::Answer;
use crate::item::LibraryItem;
use crate::part::Place;
use crate::statements::read_rest;
use liberty_groups::{Cursor, Halt, LibraryFault, Stop, fault_of};
use liberty_text::{KeptScan, Stop as TextStop, scan_kept};
use std::alloc::{AllocError, Global};

/// An offset in bytes that so many others stand before. Where that is no machine number, there is no memory for the bytes.
fn moved(before: usize, at: usize) -> Result<usize, AllocError>
    ensures { IfOk result (λ all. all ≡ at + before) }
{
    match at.checked_add(before) {
        Some(all) => Ok(all),
        None => Err(AllocError),
    }
}

/// A stop in bytes that so many others stand before.
fn stop_behind(before: usize, stop: TextStop) -> Result<TextStop, AllocError>
    ensures { IfOk result (λ moved. moved ≡ stop_behind before stop) }
{
    Ok(match stop {
        TextStop::End => TextStop::End,
        TextStop::BadByte(at) => TextStop::BadByte(moved(before, at)?),
        TextStop::OpenText(at) => TextStop::OpenText(moved(before, at)?),
        TextStop::OpenComment(at) => TextStop::OpenComment(moved(before, at)?),
        TextStop::OpenContinuation(at) => TextStop::OpenContinuation(moved(before, at)?),
    })
}

/// Where the tokens halt of a part that ends with the file at an offset, with the items that they give.
fn halt_of(
    alloc: Global,
    cursor: &mut Cursor<'_>,
    place: Place,
    end: usize,
    items: &mut Vec<LibraryItem>,
) -> Result<Halt, AllocError>
    ensures halt { IfOk result (λ halt. halt ≡ halt_in end (is_start place && is_last cursor.old)
        (read (rest_at place items.old.items) cursor.old)) }
    ensures items { OnOk result (items.new.items ≡ items_in (read (rest_at place items.old.items) cursor.old)) }
{
    let is_only = place == Place::Start && cursor.is_last();
    let refusal = match read_rest(cursor, alloc, place, items) {
        Ok(()) => return Ok(Halt::Whole),
        Err(Stop::Memory) => return Err(AllocError),
        Err(Stop::Refused(refusal)) => refusal,
    };
    Ok(match cursor.peek() {
        None => Halt::Short(refusal),
        Some(token) => Halt::Refused {
            refusal,
            at: token.at,
            unfinished: cursor.is_unfinished(end, is_only),
        },
    })
}

/// Whether a reading of these bytes of a part, before which so many others stand, takes all their tokens.
#[tactic(auto, using(liberty_groups::proofs::Inside::lie_inside), unfolding(crate::specs::Finish::part_outcome))]
fn takes_all(alloc: Global, before: usize, bytes: &[u8], place: Place) -> Result<bool, AllocError>
    requires { before + length bytes.now < 2 ^ 64 }
    ensures { IfOk result (λ all. all ≡ is_nil (left_in (part_outcome place before bytes.now))) }
{
    let KeptScan { tokens, .. } = scan_kept(alloc, bytes)?;
    let mut cursor = Cursor::behind(before, bytes, tokens);
    let mut items = Vec::new(alloc);
    if let Err(Stop::Memory) = read_rest(&mut cursor, alloc, place, &mut items) {
        return Err(AllocError);
    }
    Ok(cursor.peek().is_none())
}

/// Whether some library goes on with a part that ends in an open text, once that is closed.
fn goes_on_closed(
    alloc: Global,
    before: usize,
    bytes: &[u8],
    place: Place,
) -> Result<bool, AllocError>
    ensures { IfOk result (λ does. does ≡ goes_on_closed place before bytes.now) }
{
    let mut closed = Vec::from_slice(alloc, bytes)?;
    closed.extend_from_slice(b" \"")?;
    moved(before, closed.len())?;
    takes_all(alloc, before, &closed, place)
}

/// Whether some library goes on with a part whose tokens halt and stop so.
fn may_go_on(
    alloc: Global,
    before: usize,
    bytes: &[u8],
    place: Place,
    halt: Halt,
    stop: TextStop,
) -> Result<bool, AllocError>
    ensures { IfOk result (λ may. may ≡ may_go_on place before bytes.now halt stop) }
{
    if let Halt::Refused { unfinished, .. } = halt {
        return Ok(stop == TextStop::End && unfinished);
    }
    match stop {
        TextStop::BadByte(_) => Ok(false),
        TextStop::OpenText(_) => goes_on_closed(alloc, before, bytes, place),
        _ => Ok(true),
    }
}

/// How a library ends that has this fault or none. Where it is not whole, the fault is there whatever follows.
fn answer_by(whole: bool, fault: Option<LibraryFault>) -> Answer
    ensures { result ≡ answer_by whole fault }
{
    match fault {
        None if whole => Answer::End,
        None => Answer::Over,
        Some(fault) if whole => Answer::Fault(fault),
        Some(fault) => Answer::Refused(fault),
    }
}

/// The items of a part of these bytes, before which so many others stand, where its tokens halt if it ends with the file, and how
/// they stop.
#[tactic(auto, using(liberty_groups::proofs::Inside::lie_inside), unfolding(crate::specs::Finish::part_outcome, crate::specs::Finish::part_halt))]
fn read_part(
    alloc: Global,
    before: usize,
    bytes: &[u8],
    place: Place,
    items: &mut Vec<LibraryItem>,
) -> Result<(Halt, TextStop), AllocError>
    requires fits { before + length bytes.now < 2 ^ 64 }
    requires nothing { items.old.items ≡ [] }
    ensures halt { IfOk result (λ read. read.0 ≡ part_halt place before bytes.now) }
    ensures stop { IfOk result (λ read. read.1 ≡ (scan_of bytes.now).1) }
    ensures items { OnOk result (items.new.items ≡ items_in (part_outcome place before bytes.now)) }
{
    let end = before + bytes.len();
    let KeptScan { tokens, stop } = scan_kept(alloc, bytes)?;
    let mut cursor = Cursor::behind(before, bytes, tokens);
    let halt = halt_of(alloc, &mut cursor, place, end, items)?;
    Ok((halt, stop))
}

/// The items of a part of these bytes, before which so many others stand, that ends where the file does or, where that is not
/// `whole`, where the limit is, and how it ends.
#[tactic(auto, unfolding(crate::specs::Finish::answer_at))]
pub(crate) fn read_end(
    alloc: Global,
    before: usize,
    bytes: &[u8],
    place: Place,
    whole: bool,
    items: &mut Vec<LibraryItem>,
) -> Result<Answer, AllocError>
    requires fits { before + length bytes.now < 2 ^ 64 }
    requires nothing { items.old.items ≡ [] }
    ensures answer { IfOk result (λ answer. answer ≡ answer_at place before bytes.now whole) }
    ensures items { OnOk result (items.new.items ≡ items_in (part_outcome place before bytes.now)) }
{
    let (halt, stop) = read_part(alloc, before, bytes, place, items)?;
    if !whole && may_go_on(alloc, before, bytes, place, halt, stop)? {
        return Ok(Answer::Over);
    }
    let stop = stop_behind(before, stop)?;
    Ok(answer_by(whole, fault_of(before + bytes.len(), halt, stop)))
}
