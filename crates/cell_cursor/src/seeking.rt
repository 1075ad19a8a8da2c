//! The next item.

ghost use Rattle.std.specs.Prelude.{◌≡◌, ℕ, true, false, ◌<◌, ◌≤◌, ◌+◌, List, [], length, IsTrue, IsOk, OnOk, OnErr, IfOk, IfErr};
ghost use Rattle.std.specs.Prelude.{Some, None, ◌⊎◌};
ghost use Rattle.text_io.specs.declared.slots.InSlot.TheVariants.{Library};
ghost use Rattle.text_io.specs.declared.slots.Slot.TheVariants.{Input};
ghost use Rattle.text_io.specs.Desk.{is_bound, Rose};
ghost use Rattle.liberty_text.specs.declared.scanner.Mode.TheVariants.{Between};
ghost use Rattle.cell_cursor.specs.Progress.{taken_by, to_do, may_have_ended, is_whole, ReadsNothing};
ghost use Rattle.cell_cursor.specs.declared.item.LibraryItem.{LibraryItem as Given};
ghost use Rattle.cell_cursor.specs.Stands.{answered, given_by, is_going, is_failed, is_failure, tells_failure, is_ended};
ghost use Rattle.cell_cursor.specs.Stands.{Goes, GoesBy, Stands, Advances, Moves, IsSettled, IsAnswered};
ghost use Rattle.cell_cursor.specs.Stands.{StaysSettled};

use crate::cursor::{Answer, CellCursor};
use crate::item::{LibraryItem, Next};
use crate::part::{Part, Place};
use crate::piece::Piece;
use crate::watch::Sight;
use liberty_groups::End;
use std::alloc::{AllocError, Global};
use text_io::{Desk, InSlot, Stop};

/// Why scanning went no further.
#[derive(Clone, Copy)]
pub(crate) enum Scanned {
    /// All that was read is scanned.
    All,
    /// A statement may have ended with the last token.
    MayEnd,
    /// No library text goes on with the last tokens.
    Misfit,
    /// The name of a statement ended with the last tokens, and the statements before it ended without a semicolon or a brace.
    Name,
}

impl Scanned {
    /// Whether all that was read is scanned.
    fn is_whole(self) -> bool
        ensures { result ≡ is_whole self }
    {
        matches!(self, Scanned::All)
    }
}

impl CellCursor {
    /// A cursor that has read nothing. It will read at most `limit` bytes of the library, and one more. So far it takes no
    /// memory.
    pub fn new(alloc: Global, limit: usize) -> Result<CellCursor, AllocError>
        ensures made { IsOk result }
        ensures stands { IfOk result (λ cursor. Stands cursor [] []) }
        ensures going { IfOk result (λ cursor. cursor.answer ≡ None) }
        ensures limit { IfOk result (λ cursor. cursor.limit ≡ limit) }
    {
        Ok(CellCursor {
            alloc,
            limit,
            piece: Piece::new(),
            part: Part::new(alloc, 0, Place::Start),
            place: Place::Start,
            waiting: Vec::new(alloc),
            answer: None,
        })
    }

    /// Scans what was read, up to a token with which a statement may end or with which no library text goes on. Which it was.
    fn scan_on(&mut self) -> Result<Scanned, AllocError>
        ensures limit { self.new.limit ≡ self.old.limit }
        ensures answer { self.new.answer ≡ self.old.answer }
        ensures waiting { self.new.waiting.items ≡ self.old.waiting.items }
        ensures goes { IfOk result (λ scanned. (bytes : List ℕ) (items : List Given) → Goes self.old bytes items
            → GoesBy (may_have_ended scanned) self.new bytes items) }
        ensures taken { OnOk result (taken_by self.new ≡ taken_by self.old) }
        ensures some { IfOk result (λ scanned. is_whole scanned ≡ false → length self.new.piece < length self.old.piece) }
        ensures mode { IfOk result (λ scanned. may_have_ended scanned ≡ true → self.new.part.mode ≡ Between false) }
        ensures none { IfOk result (λ scanned. is_whole scanned ≡ true → self.new.piece ≡ []) }
    {
        while !self.piece.unread().is_empty() {
            let run = self.part.scan(self.alloc, self.place, self.piece.unread())?;
            self.piece.take_out(run.count);
            if run.may_end {
                return Ok(Scanned::MayEnd);
            }
            match run.sight {
                Sight::Misfit => return Ok(Scanned::Misfit),
                Sight::Name => return Ok(Scanned::Name),
                Sight::Nothing => {}
            }
        }
        Ok(Scanned::All)
    }

    /// Sees whether the library goes on behind the limit, and takes what there is of it.
    fn take_at_limit<D: Desk>(&mut self, desk: &mut D) -> Result<(), Stop>
        requires bound { IsTrue (is_bound (D.state desk.old) (Input Library)) }
        requires none_waits { self.old.waiting.items ≡ [] }
        requires scanned { self.old.piece ≡ [] }
        requires full { self.old.part.before + length self.old.part.bytes ≡ self.old.limit }
        ensures advances { Advances result self.old self.new (D.state desk.old) (D.state desk.new) }
        ensures never { OnOk result (is_failed self.new.answer ≡ false) }
        ensures settled { OnOk result (is_going self.new.answer ≡ false) }
        ensures empty { OnErr result (self.new.waiting.items ≡ []) }
        ensures later { D.faults desk.old ≤ D.faults desk.new }
        ensures kept { OnOk result (D.faults desk.new ≡ D.faults desk.old) }
        ensures clean { IfErr result (λ stop. is_failure stop ≡ false → D.faults desk.new ≡ D.faults desk.old) }
        ensures failed { IfErr result (λ stop. stop ≡ Stop.Failed → Rose (D.faults desk.old) (D.faults desk.new)) }
    {
        let mut byte = [0];
        let count = desk.read(InSlot::Library, &mut byte)?;
        self.take_end(count == 0)?;
        Ok(())
    }

    /// Reads on where all that was read is scanned, or takes what there is of a library that has ended or comes to the limit.
    fn read_on<D: Desk>(&mut self, desk: &mut D) -> Result<(), Stop>
        requires bound { IsTrue (is_bound (D.state desk.old) (Input Library)) }
        requires going { self.old.answer ≡ None }
        requires none_waits { self.old.waiting.items ≡ [] }
        requires scanned { self.old.piece ≡ [] }
        ensures later { D.faults desk.old ≤ D.faults desk.new }
        ensures kept { OnOk result (D.faults desk.new ≡ D.faults desk.old) }
        ensures advances { Advances result self.old self.new (D.state desk.old) (D.state desk.new) }
        ensures progress { OnOk result (is_going self.new.answer ≡ true → to_do self.new < to_do self.old) }
        ensures never { OnOk result (is_failed self.new.answer ≡ false) }
        ensures empty { OnErr result (self.new.waiting.items ≡ []) }
        ensures clean { IfErr result (λ stop. is_failure stop ≡ false → D.faults desk.new ≡ D.faults desk.old) }
        ensures failed { IfErr result (λ stop. stop ≡ Stop.Failed → Rose (D.faults desk.old) (D.faults desk.new)) }
    {
        let taken = self.part.before() + self.part.bytes().len();
        if taken == self.limit {
            return self.take_at_limit(desk);
        }
        if self.piece.read(desk, self.limit - taken)? == 0 {
            self.take_end(true)?;
        }
        Ok(())
    }

    /// Takes statements of the part, or sees which token is refused, where scanning went no further for this.
    fn take_scanned(&mut self, scanned: Scanned) -> Result<(), AllocError>
        requires going { self.old.answer ≡ None }
        requires mode { may_have_ended scanned ≡ true → self.old.part.mode ≡ Between false }
        requires none_waits { self.old.waiting.items ≡ [] }
        ensures reading { ReadsNothing self.old self.new }
        ensures stands { OnOk result ((bytes : List ℕ) (items : List Given) → GoesBy (may_have_ended scanned) self.old bytes items
            → Stands self.new bytes items) }
        ensures never { is_failed self.old.answer ≡ false → is_failed self.new.answer ≡ false }
        ensures open { OnOk result (is_ended self.new.answer ≡ false) }
        ensures err { OnErr result (self.new.waiting.items ≡ []) }
    {
        match scanned {
            Scanned::MayEnd => self.take_part(true),
            Scanned::Misfit => self.take_part(false),
            Scanned::Name => self.take_before_name(),
            Scanned::All => Ok(()),
        }
    }

    /// Takes some statements, or reads on.
    fn advance<D: Desk>(&mut self, desk: &mut D) -> Result<(), Stop>
        requires bound { IsTrue (is_bound (D.state desk.old) (Input Library)) }
        requires going { self.old.answer ≡ None }
        requires none_waits { self.old.waiting.items ≡ [] }
        ensures advances { Advances result self.old self.new (D.state desk.old) (D.state desk.new) }
        ensures progress { OnOk result (is_going self.new.answer ≡ true → to_do self.new < to_do self.old) }
        ensures later { D.faults desk.old ≤ D.faults desk.new }
        ensures kept { OnOk result (D.faults desk.new ≡ D.faults desk.old) }
        ensures clean { IfErr result (λ stop. is_failure stop ≡ false → D.faults desk.new ≡ D.faults desk.old) }
        ensures failed { IfErr result (λ stop. stop ≡ Stop.Failed → Rose (D.faults desk.old) (D.faults desk.new)) }
        ensures never { OnOk result (is_failed self.new.answer ≡ false) }
        ensures empty { OnErr result (self.new.waiting.items ≡ []) }
    {
        let scanned = self.scan_on()?;
        if scanned.is_whole() {
            return self.read_on(desk);
        }
        Ok(self.take_scanned(scanned)?)
    }

    /// Takes some statements or reads on, or is settled at why it stopped.
    fn go_on<D: Desk>(&mut self, desk: &mut D)
        requires bound { IsTrue (is_bound (D.state desk.old) (Input Library)) }
        requires going { self.old.answer ≡ None }
        requires none_waits { self.old.waiting.items ≡ [] }
        ensures moves { Moves self.old self.new (D.state desk.old) (D.state desk.new) [] }
        ensures progress { is_going self.new.answer ≡ true → to_do self.new < to_do self.old }
        ensures later { D.faults desk.old ≤ D.faults desk.new }
        ensures clean { is_failed self.new.answer ≡ false → D.faults desk.new ≡ D.faults desk.old }
        ensures empty { is_failed self.new.answer ≡ true → self.new.waiting.items ≡ [] }
        ensures failed { is_failed self.new.answer ≡ true → Rose (D.faults desk.old) (D.faults desk.new) }
    {
        if let Err(stop) = self.advance(desk) {
            self.answer = Some(Answer::Stopped(stop));
        }
    }

    /// The next item of the library in the slot `Library`, or how it ends.
    ///
    /// It reads at most 16,384 bytes at once, and at most the limit and one byte in all. It does not read far ahead: when it
    /// answers a cell, the bytes that were read end at most 65,536 bytes behind the closing brace of the cell. After any call,
    /// also one that stops, each cell was given whose closing brace has 65,536 bytes or more behind it among the
    /// bytes that were read.
    ///
    /// Faults: `Failed` where a read failed, `Memory`. After a fault, and after the end, it answers the same and reads nothing. A
    /// call in which a read fails gives no item: every other answer of a cursor comes only where no read of it has failed.
    pub fn next_cell<D: Desk>(&mut self, desk: &mut D) -> Result<Next, Stop>
        requires { IsTrue (is_bound (D.state desk.old) (Input Library)) }
        ensures moves { Moves self.old self.new (D.state desk.old) (D.state desk.new) (given_by result) }
        ensures answered { given_by result ≡ [] → IsAnswered self.new result }
        ensures kept { is_going self.old.answer ≡ false → self.new.answer ≡ self.old.answer }
        ensures settled { (a : Answer) → IsSettled self.old a
            → StaysSettled a self.new (D.state desk.old) (D.state desk.new) result }
        ensures later { D.faults desk.old ≤ D.faults desk.new }
        ensures failed { IfErr result (λ stop. stop ≡ Stop.Failed → (is_failed self.old.answer ≡ true)
            ⊎ Rose (D.faults desk.old) (D.faults desk.new)) }
        ensures failing { is_failed self.new.answer ≡ true → (is_failed self.old.answer ≡ true)
            ⊎ Rose (D.faults desk.old) (D.faults desk.new) }
        ensures clean { is_failed self.new.answer ≡ false → D.faults desk.new ≡ D.faults desk.old }
        ensures unfailed { tells_failure result ≡ false → is_failed self.old.answer ≡ false → is_failed self.new.answer ≡ false }
    {
        loop {
            if let Some(item) = self.waiting.pop() {
                return Ok(Next::Item(item));
            }
            if let Some(answer) = self.answer {
                return answered(answer);
            }
            self.go_on(desk);
        }
    }
}

/// An answer, as what a call returns.
fn answered(answer: Answer) -> Result<Next, Stop>
    ensures { result ≡ answered answer }
{
    match answer {
        Answer::Over => Ok(Next::Ended(End::Cut)),
        Answer::End => Ok(Next::Ended(End::Whole)),
        Answer::Refused(fault) | Answer::Fault(fault) => Ok(Next::Ended(End::Fault(fault))),
        Answer::Stopped(stop) => Err(stop),
    }
}
