//! Runs of `audit`: cells beside the modules that are written for them, beside ones with another row or another limit, and beside
//! none.
use super::scan_flip_flops::SCAN_FLIP_FLOP;
use super::words_runs::{USAGE, WordsRun, unread};
use crate::tests::runs::{
    AUDIT, FLIP_FLOP, Files, Left, NO_MODULE, Status, THREE_CELLS, Whole, edited,
    leaves_fronts_in_pieces, ran,
};
use std::alloc::Global;
use std::test::Fail;
use table_tests::{Row, all_hold};
use text_io::{Memory, OutSlot};

/// A library and a Verilog file.
fn two_files<'a>(library: &'a str, verilog: &'a str) -> Files<'a> {
    Files {
        library: library.as_bytes(),
        verilog: verilog.as_bytes(),
        vital: b"",
        stimulus: b"",
    }
}

/// Compares a library with a Verilog file.
fn audited(alloc: Global, library: &str, verilog: &str) -> Result<Left, Memory> {
    ran(alloc, &AUDIT, two_files(library, verilog), &[], usize::MAX)
}

/// Compares a library with the Verilog that translating it writes, in which the second text stands in the place of the first.
fn audited_where(alloc: Global, library: &str, edit: (&str, &str)) -> Option<Left> {
    match &edited(alloc, library, OutSlot::VerilogText, edit) {
        Some(verilog) => audited(alloc, library, verilog.as_str()).ok(),
        None => None,
    }
}

/// A library, an edit of the Verilog that translating it writes, and the status and the report with which comparing the two ends.
struct EditedAudit {
    library: &'static str,
    edit: (&'static str, &'static str),
    status: Status,
    report: &'static str,
}

impl Row for EditedAudit {
    fn holds(&self, alloc: Global) -> bool {
        match &audited_where(alloc, self.library, self.edit) {
            Some(left) => left.is(self.status, self.report, ""),
            None => false,
        }
    }
}

/// An edit that changes nothing.
const NO_EDIT: (&str, &str) = ("endmodule", "endmodule");

/// The report where no module has the flip-flop's name.
const NO_FLIP_FLOP: &str = "audit 1 DFF absent\n";

const EDITED_AUDITS: [EditedAudit; 5] = [
    EditedAudit {
        library: SCAN_FLIP_FLOP,
        edit: NO_EDIT,
        status: Status::Done,
        report: "audit 1 SDFFR same\n",
    },
    EditedAudit {
        library: THREE_CELLS,
        edit: NO_EDIT,
        status: Status::Done,
        report: "audit 1 INV same\naudit 2 TB left-out\naudit 3 BUF same\n",
    },
    // the row of a flip-flop that takes its data where they are 1, with another value
    EditedAudit {
        library: FLIP_FLOP,
        edit: ("(01) 1 : ? : 1;", "(01) 1 : ? : 0;"),
        status: Status::Differ,
        report: "audit 1 DFF differs state 1 place 1 old 0 new 1 1 state 0 notifier - cell 1 model 0\n",
    },
    // the setup time of a scan flip-flop, and another
    EditedAudit {
        library: SCAN_FLIP_FLOP,
        edit: ("posedge CK, 62,", "posedge CK, 61,"),
        status: Status::Differ,
        report: "audit 1 SDFFR shape checks 1\n",
    },
    EditedAudit {
        library: FLIP_FLOP,
        edit: ("module DFF", "module DFG"),
        status: Status::Differ,
        report: NO_FLIP_FLOP,
    },
];

#[test]
fn cells_are_compared_with_modules(rt: HostRuntime) -> Result<(), Fail> {
    all_hold(rt.alloc(), &EDITED_AUDITS)
}

/// A library and a Verilog file, of which one is refused: the status with which comparing them ends, and how the faults begin.
struct RefusedFile(&'static str, &'static str, Status, &'static str);

impl Row for RefusedFile {
    fn holds(&self, alloc: Global) -> bool {
        match &audited(alloc, self.0, self.1) {
            Ok(left) => left.begins(self.2, "", self.3),
            Err(_) => false,
        }
    }
}

const REFUSED_FILES: [RefusedFile; 2] = [
    RefusedFile(
        "",
        "module",
        Status::Library,
        "library refused at 0: not a library\n",
    ),
    RefusedFile(FLIP_FLOP, "module", Status::Model, "verilog refused at "),
];

#[test]
fn the_first_file_that_is_refused_decides(rt: HostRuntime) -> Result<(), Fail> {
    all_hold(rt.alloc(), &REFUSED_FILES)
}

const OTHER_WORDS: [WordsRun<'static>; 4] = [
    unread!("audit", "in.lib"),
    unread!("audit", "in.lib", "in.lib"),
    unread!("audit", "", "in.v"),
    unread!("audit", "in.lib", "in.v", "in.vhd"),
];

#[test]
fn words_name_two_files(rt: HostRuntime) -> Result<(), Fail> {
    all_hold(rt.alloc(), &OTHER_WORDS)
}

/// A flip-flop beside a file without modules.
const WITHOUT_MODULES: Whole = Whole {
    status: Status::Differ,
    verilog: &[],
    vital: &[],
    report: NO_FLIP_FLOP,
    faults: "",
};

/// Whether each call that fails leaves a front of that report, whatever a call moves of bytes.
fn audits_fronts(alloc: Global) -> bool {
    let files = two_files(FLIP_FLOP, NO_MODULE);
    leaves_fronts_in_pieces(alloc, &AUDIT, files, &WITHOUT_MODULES)
}

#[test]
fn each_call_of_a_comparison_that_fails_leaves_a_front(rt: HostRuntime) {
    assert!(rt; audits_fronts(rt.alloc()));
}
