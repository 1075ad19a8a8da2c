//! Reports of checks, and the calls of state tables. (IEEE 1076.4-2000, VitalStateTable.)
ghost use Rattle.vhdl_writer.specs.Statements.{report_text, state_text};

use crate::names::{StateColumns, apart};
use crate::parts::{At, CheckAt, InEntity, ItemText};
use crate::twice_numbered::TwiceNumbered;
use text_io::{Bytes, Decimal, Desk, Line, OutSlot, Part, Put, parts};
use udp_tables::TimingCheck;
use vital_models::VState;

/// Reports of checks among all of them.
#[derive(Drop)]
pub(crate) struct ListedReports;

impl ItemText<TimingCheck> for ListedReports {
    ghost text = { λ _ n k. report_text n k };

    fn put<D: Desk>(&self, at: &CheckAt, line: &mut Line, desk: &mut D, slot: OutSlot) -> Put {
        let number = Decimal(at.number as u128);
        parts!(Bytes(apart(b" or ", at.number)), Bytes(b"x_"), number).put(line, desk, slot)
    }
}

impl ItemText<VState> for InEntity<'_> {
    ghost text = { λ m n state. state_text m.0.now n state };

    #[tactic(auto, unfolding(crate::specs::Statements::state_text))]
    fn put<D: Desk>(&self, at: &At<VState>, line: &mut Line, desk: &mut D, slot: OutSlot) -> Put {
        let columns = StateColumns(self.0, at.item);
        let data = parts!(Bytes(b", DataIn => "), columns, Bytes(b");\n"));
        let number = Decimal(at.number as u128);
        TwiceNumbered {
            start: b"    VitalStateTable (Result => s_",
            next: b", PreviousDataIn => p_",
            number: at.number,
            rest: parts!(Bytes(b", StateTable => k_"), number, data),
        }
        .put(line, desk, slot)
    }
}
