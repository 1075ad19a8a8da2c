//! Runs of `replay-verilog` and `replay-vital`.
use crate::tests::runs::{
    FIRST_MODULE, Files, Left, PLAIN_FLIP_FLOP_ENTITY, REPLAY_VERILOG, REPLAY_VITAL,
    SECOND_MODULES, Status, THIRD_MODULE, TIMED_FLIP_FLOP_ENTITY, TIMED_FLIP_FLOP_MODULE, ran,
};
use std::alloc::{AllocError, Global};
use std::test::Fail;
use table_tests::{Row, all_hold};
use text_io::Memory;

/// Words, the texts of the file of models, one behind the other, a stimulus, and the status, report and line of faults with which
/// the replay ends.
struct Replay {
    words: &'static [&'static str],
    models: &'static [&'static str],
    stimulus: &'static str,
    status: Status,
    report: &'static str,
    faults: &'static str,
}

impl Replay {
    /// Runs it, whichever language the words name.
    fn ran(&self, alloc: Global) -> Result<Left, Memory> {
        let models = joined(alloc, self.models)?;
        let files = Files {
            library: b"",
            verilog: models.as_bytes(),
            vital: models.as_bytes(),
            stimulus: self.stimulus.as_bytes(),
        };
        ran(alloc, self.words, files, &[], usize::MAX)
    }
}

/// Texts, one behind the other.
fn joined(alloc: Global, texts: &[&str]) -> Result<String, AllocError> {
    let mut whole = String::new(alloc);
    for text in texts {
        whole.push_str(text)?;
    }
    Ok(whole)
}

impl Row for Replay {
    fn holds(&self, alloc: Global) -> bool {
        match &self.ran(alloc) {
            Ok(left) => left.is(self.status, self.report, self.faults),
            Err(_) => false,
        }
    }
}

/// Two modules, and a core and its driver between them.
const MODELS: &[&str] = &[FIRST_MODULE, SECOND_MODULES, THIRD_MODULE];

/// Sections of two modules, of which the first is run twice, and of a driver and its core.
const STIMULUS: &str =
    "cell INV\ncell BUF\n5 A 1\n9 A x\ncell INV\n5 A 1\ncell TB\n5 A 0\n6 A 1\n7 A x\ncell cell2\n5 A 1\n";

/// Their report.
const REPORT: &str = "cell INV
V start : Y=x
cell BUF
V start : Y=x
V 5 A 1 : Y=1@0
V 9 A x : Y=x@0
cell INV
V start : Y=x
V 5 A 1 : Y=0@0
cell TB
V start : Y=x
V 5 A 0 : Y=0@0
V 6 A 1 : Y=z@0
V 7 A x : Y=x@0
cell cell2
V start : Y=x pin3=x
V 5 A 1 : Y=1@0 pin3=0@0
";

/// A section of a flip-flop with this name and clock, in which its setup time is kept, and then is not.
macro_rules! rises {
    ($name:literal, $clock:literal) => {
        concat!(
            "cell ", $name, "\n10 D 1\n20 ", $clock, " 0\n100 ", $clock, " 1\n110 D 0\n130 ", $clock, " 0\n150 ", $clock,
            " 1\n"
        )
    };
}

/// Its report, with this tag.
macro_rules! rises_report {
    ($name:literal, $tag:literal, $clock:literal) => {
        concat!(
            "cell ", $name, "\n", $tag, " start : Q=x\n", $tag, " 10 D 1 : Q=x\n", $tag, " 20 ", $clock, " 0 : Q=x\n", $tag,
            " 100 ", $clock, " 1 : Q=1@100\n", $tag, " 110 D 0 : Q=1\n", $tag, " 130 ", $clock, " 0 : Q=1\n", $tag, " 150 ",
            $clock, " 1 : Q=x@120 !1\n"
        )
    };
}

/// The module of such a flip-flop in another layout, with rows in plain form, one for each prime.
const LAID_OUT: &str = "`timescale 1ps/1ps
primitive lib_1_1 (q, i1, i2, i3); output q; reg q; input i1; input i2; input i3;
  table
    ? ? * : ? : x; ? * ? : 1 : 1; ? * ? : 0 : 0;
    (01) 1 ? : ? : 1; (1?) ? ? : 1 : 1; (?0) ? ? : 1 : 1; * 1 ? : 1 : 1;
    (01) 0 ? : ? : 0; (1?) ? ? : 0 : 0; (?0) ? ? : 0 : 0; * 0 ? : 0 : 0;
  endtable
endprimitive
primitive lib_1_2 (q, i1); output q; input i1; table 1 : 1; 0 : 0; endtable endprimitive
module FD1 (CP, D, Q); input CP; input D; output Q; wire lib_s1; reg lib_n;
  lib_1_1 (lib_s1, CP, D, lib_n); lib_1_2 (Q, lib_s1);
  specify (CP => Q) = (100, 120); $setup(D, posedge CP, 50, lib_n); endspecify
endmodule
";

/// A replay that is done, with this report.
macro_rules! shown {
    ($words:expr, $models:expr, $stimulus:expr, $report:expr) => {
        Replay {
            words: &$words,
            models: $models,
            stimulus: $stimulus,
            status: Status::Done,
            report: $report,
            faults: "",
        }
    };
}

/// A replay of such a section with the model of such a flip-flop.
macro_rules! risen {
    ($words:expr, $model:expr; $name:literal, $tag:literal, $clock:literal) => {
        shown!(
            $words,
            &[$model],
            rises!($name, $clock),
            rises_report!($name, $tag, $clock)
        )
    };
}

const SHOWN: [Replay; 5] = [
    shown!(REPLAY_VERILOG, MODELS, STIMULUS, REPORT),
    risen!(REPLAY_VERILOG, TIMED_FLIP_FLOP_MODULE; "DFFT", "V", "CK"),
    risen!(REPLAY_VERILOG, LAID_OUT; "FD1", "V", "CP"),
    risen!(REPLAY_VITAL, TIMED_FLIP_FLOP_ENTITY; "DFFT", "H", "CK"),
    risen!(REPLAY_VITAL, PLAIN_FLIP_FLOP_ENTITY; "DFFT", "H", "CK"),
];

#[test]
fn sections_are_printed_in_the_order_of_the_stimulus(rt: HostRuntime) -> Result<(), Fail> {
    all_hold(rt.alloc(), &SHOWN)
}

/// A replay that ends at one of its files.
macro_rules! ended {
    ($words:expr; $models:expr; $stimulus:literal => $status:ident $faults:literal) => {
        Replay {
            words: &$words,
            models: $models,
            stimulus: $stimulus,
            status: Status::$status,
            report: "",
            faults: $faults,
        }
    };
}

/// A row with two changes, the second at offset 106.
const TWO_CHANGES: &str = "`timescale 1ps/1ps
primitive p (q, i1, i2);\n  output q;\n  reg q;\n  input i1;\n  input i2;\n  table
    (01) (01) : ? : 1;
  endtable\nendprimitive
module M (A, B, Y);\n  input A;\n  input B;\n  output Y;\n  wire s;
  p (s, A, B);\n  buf (Y, 1'b1);
endmodule
";

/// A period whose two lines have two numbers, the second at offset 150.
const TWO_NUMBERS: &str = "`timescale 1ps/1ps
module M (A, Y);
  input A;
  output Y;
  reg n;
  buf (Y, 1'b1);
  specify
    $period(posedge A, 100, n);
    $period(negedge A, 101, n);
  endspecify
endmodule
";

const ENDED: [Replay; 8] = [
    ended![REPLAY_VERILOG; &[]; "cell" => Model "verilog refused at 0: syntax\n"],
    ended![REPLAY_VERILOG; &["`timescale 1ps/1ps\n/* open"]; "cell" => Model "verilog refused at 19: lexical\n"],
    ended![REPLAY_VITAL; &["library IEEE; entity"]; "cell" => Model "vital refused at 14: syntax\n"],
    ended![REPLAY_VITAL; &[]; "cell DFF" => Stimulus "stimulus line 1: unknown cell\n"],
    ended![REPLAY_VERILOG; MODELS; "cell INV\n5 A 1\n5 A 0\n" => Stimulus "stimulus line 3: time\n"],
    ended![REPLAY_VERILOG; MODELS; "cell TC\n" => Stimulus "stimulus line 1: unknown cell\n"],
    ended![REPLAY_VERILOG; &[TWO_CHANGES]; "cell M" => Model "verilog refused at 106: two edges\n"],
    ended![REPLAY_VERILOG; &[TWO_NUMBERS]; "cell M" => Model "verilog refused at 150: unequal\n"],
];

#[test]
fn the_first_fault_of_the_files_is_told(rt: HostRuntime) -> Result<(), Fail> {
    all_hold(rt.alloc(), &ENDED)
}
