//! Calls on the desk that fail, each in turn: what was written then is the front of what is written without, and no call is made
//! behind it.
use super::desks::{Files, Left, PIECES, ran};
use std::alloc::Global;
use text_io::OutSlot;
use translate_cmd::Status;

/// What a run comes to where no call fails: each model file as the texts that stand in it, one behind the other.
#[derive(Copy, Clone)]
pub(crate) struct Whole {
    /// The status.
    pub status: Status,
    /// The Verilog that is written.
    pub verilog: &'static [&'static str],
    /// The VHDL that is written.
    pub vital: &'static [&'static str],
    /// The report.
    pub report: &'static str,
    /// The line of faults.
    pub faults: &'static str,
}

/// A run that is done and writes no model, with this report.
macro_rules! done {
    ($report:expr) => {
        $crate::tests::runs::Whole {
            status: $crate::tests::runs::Status::Done,
            verilog: &[],
            vital: &[],
            report: $report,
            faults: "",
        }
    };
}

pub(crate) use done;

impl Whole {
    /// Whether a run left the whole.
    pub(crate) fn is_left(&self, left: &Left) -> bool {
        left.is(self.status, self.report, self.faults)
            && left.wrote(OutSlot::VerilogText, self.verilog)
            && left.wrote(OutSlot::VitalText, self.vital)
    }

    /// Whether a run left a front of it, and at most one call failed.
    fn has_front(&self, left: &Left) -> bool {
        left.wrote_front(OutSlot::VerilogText, self.verilog)
            && left.wrote_front(OutSlot::VitalText, self.vital)
            && left.wrote_front(OutSlot::Report, &[self.report])
            && left.wrote_front(OutSlot::Faults, &[self.faults])
            && left.desk.faults() <= 1
    }
}

/// The status of a run at which these calls fail, where it left a front of the whole.
fn front_status(
    alloc: Global,
    words: &[&str],
    files: Files<'_>,
    whole: &Whole,
    failing: &[u64],
    piece: usize,
) -> Option<Status> {
    match &ran(alloc, words, files, failing, piece) {
        Ok(left) if whole.has_front(left) => Some(left.status),
        _ => None,
    }
}

/// Whether each call that fails in its turn, the next one failing too, leaves a front and is the last, up to the run at which no
/// call is left that could fail, where a call moves at most `piece` bytes; not where memory is short.
pub(crate) fn leaves_fronts(
    alloc: Global,
    words: &[&str],
    files: Files<'_>,
    whole: &Whole,
    piece: usize,
) -> bool {
    for call in 1..10000 {
        match front_status(alloc, words, files, whole, &[call, call + 1], piece) {
            Some(Status::Outside) => {}
            Some(status) => return status == whole.status,
            None => return false,
        }
    }
    false
}

/// Whether that holds of words, whatever a call moves of bytes.
pub(crate) fn leaves_fronts_in_pieces(
    alloc: Global,
    words: &[&str],
    files: Files<'_>,
    whole: &Whole,
) -> bool {
    for piece in PIECES {
        if !leaves_fronts(alloc, words, files, whole, piece) {
            return false;
        }
    }
    true
}

/// Whether a run ended at a call that failed, and wrote nothing.
fn is_without_text(left: &Left) -> bool {
    left.is(Status::Outside, "", "")
        && left.wrote(OutSlot::VerilogText, &[])
        && left.wrote(OutSlot::VitalText, &[])
}

/// Whether a run at which this call fails leaves nothing written.
pub(crate) fn leaves_nothing(alloc: Global, words: &[&str], files: Files<'_>, call: u64) -> bool {
    match &ran(alloc, words, files, &[call], usize::MAX) {
        Ok(left) => is_without_text(left),
        Err(_) => false,
    }
}
