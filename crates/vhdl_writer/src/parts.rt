//! Lists of parts of a text, whose items are numbered.

ghost use Rattle.std.specs.Prelude.{◌+◌, IsTrue};
ghost use Rattle.text_io.specs.declared.slots.Slot.TheVariants.{Output};
ghost use Rattle.text_io.specs.Desk.{is_bound, HasCause};
ghost use Rattle.text_io.specs.Line.{PutsText};
ghost use Rattle.vhdl_writer.specs.Joined.{numbered_texts};

use text_io::{Desk, Line, OutSlot, Part, Put};
use udp_tables::TimingCheck;
use vital_models::VEntity;

/// An item at its place in a list: its number, from 1, and the item.
#[derive(Drop)]
pub struct At<'a, T> {
    pub number: usize,
    pub item: &'a T,
}

/// A check at its place.
pub(crate) type CheckAt<'a> = At<'a, TimingCheck>;

/// What the items of a list are as text, where each has a number.
pub trait ItemText<T> {
    ghost use Rattle.std.specs.Prelude.{ℕ, List};

    ghost text: { Self → ℕ → T → List ℕ };

    /// Puts the text of an item with its number, as `Part::put` does.
    fn put<D: Desk>(&self, at: &At<T>, line: &mut Line, desk: &mut D, slot: OutSlot) -> Put
        requires { IsTrue (is_bound (D.state desk.old) (Output slot)) }
        ensures text { PutsText (D.state desk.old) (D.state desk.new) slot line.old (text self.now at.now.number at.now.item.now)
            line.new result }
        ensures cause { HasCause (D.faults desk.old) (D.faults desk.new) result };
}

/// Items of an entity, as they stand in lists and in lines of its text: an input and a source by its name, a check and a state by
/// its call, a path by its ports and delays, an output by the line that assigns it.
#[derive(Drop)]
pub(crate) struct InEntity<'a>(pub(crate) &'a VEntity);

/// What each item of a list is as text, and the items, numbered from 1.
#[derive(Drop)]
pub struct Each<'a, M, T>(pub M, pub &'a [T]);

impl<M: ItemText<T>, T> Part for Each<'_, M, T> {
    ghost text = { λ e. numbered_texts (M.text e.0) 1 e.1.now };

    fn put<D: Desk>(&self, line: &mut Line, desk: &mut D, slot: OutSlot) -> Put {
        for (index, item) in self.1.iter().enumerate() {
            let number = index + 1;
            self.0.put(&At { number, item }, line, desk, slot)?;
        }
        Ok(())
    }
}
