//! The bytes of a report that wait to be written, so that not each line costs a write.
ghost use Rattle.std.specs.Prelude.{◌≡◌, ◌+◌, ◌<◌, [], ◌∷◌, ◌++◌, length, true, OnOk};
ghost use Rattle.text_io.specs.declared.slots.OutSlot.TheVariants.{Report};
ghost use Rattle.text_io.specs.Desk.{HasCause, WritesText};
ghost use Rattle.text_io.specs.Line.{PutsText};

use crate::line_pieces::Pieces;
use cell_machine::Few;
use text_io::{Desk, Failed, OutSlot, write_pieces, write_whole};

/// The most bytes of a report that wait to be written.
const ROOM: usize = 16_384;

/// Bytes of a report that wait to be written.
pub(crate) type Waiting = Few<u8, ROOM>;

/// A line: a tag, and behind it a text, mostly empty, and pieces.
#[derive(Clone, Copy)]
struct Line<'a> {
    tag: u8,
    text: &'a [u8],
    pieces: &'a Pieces,
}

/// Puts a line with this tag behind the bytes that wait. Its rest is a text, mostly empty, and pieces behind it. It takes no
/// memory.
#[inline(always)]
pub(crate) fn put_tagged<D: Desk>(
    desk: &mut D,
    waiting: &mut Waiting,
    tag: u8,
    text: &[u8],
    pieces: &Pieces,
) -> Result<(), Failed>
    ensures text { PutsText (D.state desk.old) (D.state desk.new) Report waiting.old (tag ∷ (text.now ++ pieces.now)) waiting.new
        result }
    ensures cause { HasCause (D.faults desk.old) (D.faults desk.new) result }
{
    let line = Line { tag, text, pieces };
    if has_room(waiting, &line) {
        put_behind(waiting, &line);
        return Ok(());
    }
    write_first(desk, waiting, &line)
}

/// Whether there is room for a line.
#[inline(always)]
fn has_room(waiting: &Waiting, line: &Line<'_>) -> bool
    ensures { result ≡ true → length waiting.now + length line.now.text.now + length line.now.pieces.now < 16384 }
{
    let before = waiting.as_slice().len() + line.text.len();
    before < ROOM && before + line.pieces.as_slice().len() < ROOM
}

/// Puts a line behind the bytes that wait.
#[inline(always)]
fn put_behind(waiting: &mut Waiting, line: &Line<'_>)
    requires { length waiting.old + length line.now.text.now + length line.now.pieces.now < 16384 }
    ensures { waiting.new ≡ waiting.old ++ line.now.tag ∷ (line.now.text.now ++ line.now.pieces.now) }
{
    waiting.push(line.tag);
    if !line.text.is_empty() {
        waiting.append(line.text);
    }
    waiting.append(line.pieces.as_slice());
}

/// Writes the bytes that wait, and puts a line behind them.
fn write_first<D: Desk>(desk: &mut D, waiting: &mut Waiting, line: &Line<'_>) -> Result<(), Failed>
    ensures text { PutsText (D.state desk.old) (D.state desk.new) Report waiting.old
        (line.now.tag ∷ (line.now.text.now ++ line.now.pieces.now)) waiting.new result }
    ensures cause { HasCause (D.faults desk.old) (D.faults desk.new) result }
{
    write_waiting(desk, waiting)?;
    if has_room(waiting, line) {
        put_behind(waiting, line);
        return Ok(());
    }
    write_line(desk, line.tag, line.text, line.pieces.as_slice())
}

/// Writes the bytes that wait.
fn write_waiting<D: Desk>(desk: &mut D, waiting: &mut Waiting) -> Result<(), Failed>
    ensures text { PutsText (D.state desk.old) (D.state desk.new) Report waiting.old [] waiting.new result }
    ensures empty { OnOk result (waiting.new ≡ []) }
    ensures cause { HasCause (D.faults desk.old) (D.faults desk.new) result }
{
    write_whole(desk, OutSlot::Report, waiting.as_slice())?;
    waiting.clear();
    Ok(())
}

/// Writes a line with this tag, whose rest is a text and pieces.
fn write_line<D: Desk>(desk: &mut D, tag: u8, text: &[u8], pieces: &[u8]) -> Result<(), Failed>
    ensures text { WritesText (D.state desk.old) (D.state desk.new) Report (tag ∷ (text.now ++ pieces.now)) result }
    ensures cause { HasCause (D.faults desk.old) (D.faults desk.new) result }
{
    write_pieces(desk, OutSlot::Report, &[&[tag], text, pieces])
}
