//! Parts of a text.
ghost use Rattle.std.specs.Prelude.{[], ◌++◌, IsTrue, decimal, if◌then◌else◌};
ghost use Rattle.text_io.specs.declared.slots.Slot.TheVariants.{Output};
ghost use Rattle.text_io.specs.Desk.{is_bound, HasCause};
ghost use Rattle.text_io.specs.Line.{PutsText};

use crate::{Desk, Failed, Line, OutSlot};
use itoa::Buffer;

/// What putting gives: that all was put, or that a write failed.
pub type Put = Result<(), Failed>;

/// A part of a text.
pub trait Part {
    ghost use Rattle.std.specs.Prelude.{ℕ, List};

    ghost text: { Self → List ℕ };

    /// Puts the part's text to the slot, which is bound. After `Failed`, which comes only where a write failed, a prefix of all
    /// that was put was written. It takes no memory.
    fn put<D: Desk>(&self, line: &mut Line, desk: &mut D, slot: OutSlot) -> Put
        requires { IsTrue (is_bound (D.state desk.old) (Output slot)) }
        ensures text { PutsText (D.state desk.old) (D.state desk.new) slot line.old (text self.now) line.new result }
        ensures cause { HasCause (D.faults desk.old) (D.faults desk.new) result };
}

/// These bytes.
#[derive(Drop)]
pub struct Bytes<'a>(pub &'a [u8]);

impl Part for Bytes<'_> {
    ghost text = { λ b. b.0.now };

    fn put<D: Desk>(&self, line: &mut Line, desk: &mut D, slot: OutSlot) -> Put {
        line.put(desk, slot, self.0)
    }
}

/// The digits of a number.
#[derive(Drop)]
pub struct Decimal(pub u128);

impl Part for Decimal {
    ghost text = { λ d. decimal d.0 };

    fn put<D: Desk>(&self, line: &mut Line, desk: &mut D, slot: OutSlot) -> Put {
        let mut digits = Buffer::new();
        line.put(desk, slot, digits.format(self.0).as_bytes())
    }
}

/// A part that stands elsewhere.
impl<A: Part> Part for &A {
    ghost text = { λ p. A.text p.now };

    fn put<D: Desk>(&self, line: &mut Line, desk: &mut D, slot: OutSlot) -> Put {
        (**self).put(line, desk, slot)
    }
}

/// One part, and then another.
impl<A: Part, B: Part> Part for (A, B) {
    ghost text = { λ p. A.text p.0 ++ B.text p.1 };

    fn put<D: Desk>(&self, line: &mut Line, desk: &mut D, slot: OutSlot) -> Put {
        self.0.put(line, desk, slot)?;
        self.1.put(line, desk, slot)
    }
}

/// A part where this holds, and else nothing.
#[derive(Drop)]
pub struct When<P>(pub bool, pub P);

impl<P: Part> Part for When<P> {
    ghost text = { λ w. if w.0 then P.text w.1 else [] };

    fn put<D: Desk>(&self, line: &mut Line, desk: &mut D, slot: OutSlot) -> Put {
        if self.0 {
            self.1.put(line, desk, slot)
        } else {
            line.put(desk, slot, b"")
        }
    }
}

/// Parts one behind the other.
#[macro_export]
macro_rules! parts {
    ($last:expr) => {
        $last
    };
    ($first:expr, $($rest:expr),+) => {
        ($first, $crate::parts!($($rest),+))
    };
}
