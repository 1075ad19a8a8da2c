//! Text in which one number stands twice.
ghost use Rattle.vhdl_writer.specs.Statements.{twice_numbered_text};

use text_io::{Bytes, Decimal, Desk, Line, OutSlot, Part, Put, parts};

/// A call, or variables that are declared, of which the first two end with the same number.
#[derive(Drop)]
pub struct TwiceNumbered<'a, P> {
    /// What stands before the number.
    pub start: &'a [u8],
    /// What stands between the number and the same number again.
    pub next: &'a [u8],
    /// The number.
    pub number: usize,
    /// What stands behind both.
    pub rest: P,
}

impl<P: Part> Part for TwiceNumbered<'_, P> {
    ghost text = { λ t. twice_numbered_text t.start.now t.next.now t.number (P.text t.rest) };

    fn put<D: Desk>(&self, line: &mut Line, desk: &mut D, slot: OutSlot) -> Put {
        let number = self.number as u128;
        let rest = parts!(Decimal(number), &self.rest);
        parts!(Bytes(self.start), Decimal(number), Bytes(self.next), rest).put(line, desk, slot)
    }
}
