//! Lists of parts of a text.
ghost use Rattle.std.specs.Prelude.{IsTrue};
ghost use Rattle.std.specs.List.{flat_map};
ghost use Rattle.text_io.specs.declared.slots.Slot.TheVariants.{Output};
ghost use Rattle.text_io.specs.Desk.{is_bound, HasCause};
ghost use Rattle.text_io.specs.Line.{PutsText};

use crate::parts::{Part, Put};
use crate::{Desk, Line, OutSlot};

/// What the items of a list are as text.
pub trait ItemText<T> {
    ghost use Rattle.std.specs.Prelude.{ℕ, List};

    ghost text: { Self → T → List ℕ };

    /// Puts the text of an item, as `Part::put` does.
    fn put<D: Desk>(&self, item: &T, line: &mut Line, desk: &mut D, slot: OutSlot) -> Put
        requires { IsTrue (is_bound (D.state desk.old) (Output slot)) }
        ensures text { PutsText (D.state desk.old) (D.state desk.new) slot line.old (text self.now item.now) line.new result }
        ensures cause { HasCause (D.faults desk.old) (D.faults desk.new) result };
}

/// Bytes that are their own text.
#[derive(Drop)]
pub(crate) struct OwnText;

impl ItemText<&[u8]> for OwnText {
    ghost text = { λ _ bytes. bytes.now };

    fn put<D: Desk>(&self, item: &&[u8], line: &mut Line, desk: &mut D, slot: OutSlot) -> Put {
        line.put(desk, slot, item)
    }
}

/// What each item of a list is as text, and the items, in order.
#[derive(Drop)]
pub struct Each<'a, M, T>(pub M, pub &'a [T]);

impl<M: ItemText<T>, T> Part for Each<'_, M, T> {
    ghost text = { λ e. flat_map (M.text e.0) e.1.now };

    #[inline(always)]
    fn put<D: Desk>(&self, line: &mut Line, desk: &mut D, slot: OutSlot) -> Put {
        for item in self.1 {
            self.0.put(item, line, desk, slot)?;
        }
        Ok(())
    }
}
