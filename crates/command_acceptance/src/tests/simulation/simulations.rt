//! Simulations of a library beside models that are given, or that translating a library writes.
use crate::tests::runs::{Files, Left, Status, edited, simulated};
use std::alloc::Global;
use table_tests::Row;
use text_io::OutSlot;

/// A file of models: a text, or what translating a library writes, in which the second text of an edit may stand in the place of
/// the first.
#[derive(Copy, Clone)]
pub(crate) enum Models {
    Text(&'static str),
    Of(&'static str),
    Edited(&'static str, (&'static str, &'static str)),
}

impl Models {
    /// The text of the file, where translating writes it to this slot; nothing where memory is short.
    fn text(&self, alloc: Global, slot: OutSlot) -> Option<String> {
        match self {
            Models::Text(text) => String::from_str(alloc, text).ok(),
            Models::Of(library) => edited(alloc, library, slot, NO_EDIT),
            Models::Edited(library, edit) => edited(alloc, library, slot, *edit),
        }
    }
}

/// An edit that changes nothing.
const NO_EDIT: (&str, &str) = ("end", "end");

/// The four files of a simulation, and the status, the report and the line of faults with which it ends.
pub(crate) struct Simulation {
    pub library: &'static str,
    pub verilog: Models,
    pub vital: Models,
    pub stimulus: &'static str,
    pub status: Status,
    pub report: &'static str,
    pub faults: &'static str,
}

impl Simulation {
    /// Runs it beside these texts.
    fn ran_beside(&self, alloc: Global, verilog: &str, vital: &str) -> Option<Left> {
        let files = Files {
            library: self.library.as_bytes(),
            verilog: verilog.as_bytes(),
            vital: vital.as_bytes(),
            stimulus: self.stimulus.as_bytes(),
        };
        simulated(alloc, files).ok()
    }

    /// Runs it; nothing where memory is short.
    fn ran(&self, alloc: Global) -> Option<Left> {
        let verilog = self.verilog.text(alloc, OutSlot::VerilogText);
        let vital = self.vital.text(alloc, OutSlot::VitalText);
        match (&verilog, &vital) {
            (Some(verilog), Some(vital)) => self.ran_beside(
                alloc,
                verilog.as_str(),
                vital.as_str(),
            ),
            _ => None,
        }
    }
}

impl Row for Simulation {
    fn holds(&self, alloc: Global) -> bool {
        match &self.ran(alloc) {
            Some(left) => left.is(self.status, self.report, self.faults),
            None => false,
        }
    }
}
