//! How a line tells that something is refused.
ghost use Rattle.run_outcome.specs.Refusals.{refusal_text};

use text_io::{Bytes, Decimal, Desk, Line, OutSlot, Part, Put, parts};

/// The end of a line on something that is refused.
#[derive(Drop)]
pub struct RefusalText<'a> {
    /// The number of the reason.
    pub number: u8,
    /// The word of the reason.
    pub word: &'a [u8],
    /// The offset, from 0, of what meets the reason.
    pub at: usize,
}

impl Part for RefusalText<'_> {
    ghost text = { λ r. refusal_text r.number r.word.now r.at };

    #[tactic(auto, unfolding(crate::specs::Refusals::refusal_text))]
    fn put<D: Desk>(&self, line: &mut Line, desk: &mut D, slot: OutSlot) -> Put {
        let place = parts!(Bytes(b" at "), Decimal(self.at as u128), Bytes(b"\n"));
        let reason = parts!(
            Decimal(self.number as u128),
            Bytes(b" "),
            Bytes(self.word),
            place
        );
        parts!(Bytes(b" refused "), reason).put(line, desk, slot)
    }
}
