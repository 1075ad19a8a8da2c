//! What is taken of a part.

ghost use Rattle.std.specs.Prelude.{◌≡◌, ℕ, true, false, ◌≤◌, ◌+◌, List, [], reverse, length, OnOk, OnErr, Some, None};
ghost use Rattle.liberty_text.specs.declared.scanner.Mode.TheVariants.{Between};
ghost use Rattle.cell_cursor.specs.Finish.{part_outcome, answer_at};
ghost use Rattle.cell_cursor.specs.Items.{items_in};
ghost use Rattle.cell_cursor.specs.Part.{all_scanned};
ghost use Rattle.cell_cursor.specs.Progress.{ReadsNothing};
ghost use Rattle.cell_cursor.specs.declared.item.LibraryItem.{LibraryItem as Given};
ghost use Rattle.cell_cursor.specs.Stands.{is_failed, is_ended, Goes, GoesBy, Stands};

use crate::cursor::{Answer, CellCursor};
use crate::cut::part_behind;
use crate::item::LibraryItem;
use crate::part::{Part, Place, part_of};
use crate::reading::read_end;
use crate::statements::{Reached, reach};
use liberty_groups::{Cursor, LibraryFault};
use liberty_text::Kept;
use small_bytes::SharedBytes;
use std::alloc::AllocError;
use std::mem::replace;

/// The memory of a part with room for more bytes than these is given back when its statements were taken.
const MOST_KEPT: usize = 1_048_576;

impl CellCursor {
    /// Sees which token of the part is refused, if one is, and else takes its statements, if the last one may have ended and they
    /// have all ended. Its tokens go as they are read, so where the part stays they are scanned anew.
    pub(crate) fn take_part(&mut self, may_have_ended: bool) -> Result<(), AllocError>
        requires none_waits { self.old.waiting.items ≡ [] }
        requires going { self.old.answer ≡ None }
        requires mode { may_have_ended ≡ true → self.old.part.mode ≡ Between false }
        ensures stands { OnOk result ((bytes : List ℕ) (items : List Given) → GoesBy may_have_ended self.old bytes items
            → Stands self.new bytes items) }
        ensures err { OnErr result (self.new.waiting.items ≡ []) }
        ensures open { OnOk result (is_ended self.new.answer ≡ false) }
        ensures reading { ReadsNothing self.old self.new }
        ensures never { is_failed self.old.answer ≡ false → is_failed self.new.answer ≡ false }
    {
        let mut items = Vec::new(self.alloc);
        let before = self.part.before();
        let end = before + self.part.bytes().len();
        let nothing = Part::new(self.alloc, end, self.place);
        let (bytes, tokens) = replace(&mut self.part, nothing).into_tokens();
        // the long texts of a cell stand in the bytes of its part
        let shared = SharedBytes::new(self.alloc, bytes)?;
        let mut cursor = Cursor::sharing(before, &shared, tokens);
        let reached = reach(&mut cursor, self.alloc, self.place, end, &mut items)?;
        let room = cursor.into_room();
        match reached {
            Reached::Unfinished => {
                self.scan_anew(before, shared.as_slice())?;
                Ok(())
            }
            Reached::Refused(fault) => {
                self.refuse(fault, items);
                Ok(())
            }
            Reached::To(place) => {
                if !may_have_ended {
                    self.scan_anew(before, shared.as_slice())?;
                    return Ok(());
                }
                self.go_to(place, end, items, shared.into_room(self.alloc), room);
                Ok(())
            }
        }
    }

    /// The part is the one of these bytes, before which so many others stand.
    fn scan_anew(&mut self, before: usize, bytes: &[u8]) -> Result<(), AllocError>
        requires { before + (length bytes.now + length self.old.piece) ≤ self.old.limit }
        ensures part { OnOk result (self.new.part ≡ all_scanned before bytes.now) }
        ensures lost { OnErr result (self.new.part ≡ self.old.part) }
        ensures limit { self.new.limit ≡ self.old.limit }
        ensures piece { self.new.piece ≡ self.old.piece }
        ensures place { self.new.place ≡ self.old.place }
        ensures answer { self.new.answer ≡ self.old.answer }
        ensures items { self.new.waiting.items ≡ self.old.waiting.items }
    {
        self.part = part_of(self.alloc, before, self.place, bytes)?;
        Ok(())
    }

    /// Takes the statements of the part before the name that ended last, if they have ended.
    pub(crate) fn take_before_name(&mut self) -> Result<(), AllocError>
        requires none_waits { self.old.waiting.items ≡ [] }
        requires going { self.old.answer ≡ None }
        ensures reading { ReadsNothing self.old self.new }
        ensures stands { OnOk result ((bytes : List ℕ) (items : List Given) → Goes self.old bytes items
            → Stands self.new bytes items) }
        ensures err { OnErr result (self.new.waiting.items ≡ []) }
        ensures open { OnOk result (is_ended self.new.answer ≡ false) }
        ensures never { is_failed self.old.answer ≡ false → is_failed self.new.answer ≡ false }
    {
        let mut items = Vec::new(self.alloc);
        match part_behind(self.alloc, &self.part, self.place, &mut items)? {
            Some(rest) => {
                self.go_on_with(rest, items);
                Ok(())
            }
            None => Ok(()),
        }
    }

    /// The statements before this part were taken, with these items.
    fn go_on_with(&mut self, rest: Part, mut items: Vec<LibraryItem>)
        requires { rest.before + (length rest.bytes + length self.old.piece) ≤ self.old.limit }
        ensures limit { self.new.limit ≡ self.old.limit }
        ensures piece { self.new.piece ≡ self.old.piece }
        ensures part { self.new.part ≡ rest }
        ensures place { self.new.place ≡ self.old.place }
        ensures answer { self.new.answer ≡ self.old.answer }
        ensures items { self.new.waiting.items ≡ reverse items.items }
    {
        items.reverse();
        self.waiting = items;
        self.part = rest;
    }

    /// A token is refused, behind these items.
    fn refuse(&mut self, fault: LibraryFault, mut items: Vec<LibraryItem>)
        ensures limit { self.new.limit ≡ self.old.limit }
        ensures piece { self.new.piece ≡ self.old.piece }
        ensures part { self.new.part ≡ self.old.part }
        ensures answer { self.new.answer ≡ Some (Answer.Refused fault) }
        ensures items { self.new.waiting.items ≡ reverse items.items }
    {
        items.reverse();
        self.waiting = items;
        self.answer = Some(Answer::Refused(fault));
    }

    /// The part led to a place, at an offset, behind these items. Its tokens leave their memory to the next part, and so do its
    /// bytes where no text shared them.
    fn go_to(
        &mut self,
        place: Place,
        end: usize,
        mut items: Vec<LibraryItem>,
        bytes: Vec<u8>,
        tokens: Vec<Kept>,
    )
        requires { end + length self.old.piece ≤ self.old.limit }
        ensures limit { self.new.limit ≡ self.old.limit }
        ensures piece { self.new.piece ≡ self.old.piece }
        ensures before { self.new.part.before ≡ end }
        ensures bytes { self.new.part.bytes ≡ [] }
        ensures tokens { self.new.part.tokens ≡ [] }
        ensures place { self.new.place ≡ place }
        ensures answer { self.new.answer ≡ self.old.answer }
        ensures items { self.new.waiting.items ≡ reverse items.items }
    {
        items.reverse();
        self.waiting = items;
        self.place = place;
        self.part = if bytes.capacity() > MOST_KEPT {
            Part::new(self.alloc, end, place)
        } else {
            Part::with_room(end, place, bytes, tokens)
        };
    }

    /// Takes what there is of a library that has ended or, where that is not `whole`, has come to the limit. The tokens of the
    /// part go first, since all its bytes are scanned again.
    pub(crate) fn take_end(&mut self, whole: bool) -> Result<(), AllocError>
        ensures err { OnErr result (self.new.waiting.items ≡ self.old.waiting.items) }
        ensures limit { self.new.limit ≡ self.old.limit }
        ensures answer { OnOk result (self.new.answer ≡ Some
            (answer_at self.old.place self.old.part.before self.old.part.bytes whole)) }
        ensures items { OnOk result (self.new.waiting.items ≡ reverse
            (items_in (part_outcome self.old.place self.old.part.before self.old.part.bytes))) }
    {
        let mut items = Vec::new(self.alloc);
        let nothing = Part::new(self.alloc, self.part.before(), self.place);
        let (before, bytes) = replace(&mut self.part, nothing).into_bytes();
        let answer = read_end(self.alloc, before, &bytes, self.place, whole, &mut items)?;
        items.reverse();
        self.waiting = items;
        self.answer = Some(answer);
        Ok(())
    }
}
