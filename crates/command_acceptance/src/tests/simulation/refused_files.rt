//! Simulations that end at one of the four files. The first that is refused decides.
use super::libraries::INVERTER;
use super::simulations::{Models, Simulation};
use crate::tests::runs::{FLIP_FLOP, Status};
use std::test::Fail;
use table_tests::all_hold;

/// An inverter with its ports in another order.
const ANOTHER_ORDER: &str = "library (L) {
cell (INV) { pin (Y) { direction : output; function : \"!A\"; } pin (A) { direction : input; } }
}
";

/// No byte, a text that is no file of models, the models of the inverter, and those of the other order.
const NOTHING: Models = Models::Text("");

const NO_MODELS: Models = Models::Text("entity");

const OWN: Models = Models::Of(INVERTER);

const OTHERS: Models = Models::Of(ANOTHER_ORDER);

/// The models of a flip-flop.
const FLIP_FLOPS: Models = Models::Of(FLIP_FLOP);

/// A simulation that ends at one of its files without a report, with this status and these faults.
macro_rules! ended {
    ($library:expr; $verilog:ident, $vital:ident; $stimulus:literal => $status:ident $faults:literal) => {
        Simulation {
            library: $library,
            verilog: $verilog,
            vital: $vital,
            stimulus: $stimulus,
            status: Status::$status,
            report: "",
            faults: $faults,
        }
    };
}

/// One of the inverter.
macro_rules! inverter {
    ($verilog:ident, $vital:ident; $stimulus:literal => $status:ident $faults:literal) => {
        ended![INVERTER; $verilog, $vital; $stimulus => $status $faults]
    };
}

/// The first file that is refused is told. Models of another order of the ports count as none, which is told where the stimulus
/// names their cell. Behind whole files the first bad line of the stimulus is told.
const ENDED: [Simulation; 14] = [
    ended![""; NOTHING, NO_MODELS; "cell INV" => Library "library refused at 0: not a library\n"],
    inverter![NOTHING, NO_MODELS; "cell INV" => Model "verilog refused at 0: syntax\n"],
    inverter![OWN, NO_MODELS; "cell INV" => Model "vital refused at 0: syntax\n"],
    // a cell without its models
    inverter![OWN, NOTHING; "cell INV" => Model "vital ports: INV\n"],
    inverter![OWN, OTHERS; "cell INV" => Model "vital ports: INV\n"],
    inverter![OTHERS, NOTHING; "cell INV" => Model "verilog ports: INV\n"],
    ended![FLIP_FLOP; FLIP_FLOPS, NOTHING; "cell DFF" => Model "vital ports: DFF\n"],
    inverter![OTHERS, NOTHING; "" => Done ""],
    // a bad line
    inverter![OWN, OWN; "cell INV\n5 A 1\n5 A 0\n" => Stimulus "stimulus line 3: time\n"],
    inverter![OWN, OWN; "cell INV\ncell PAD\n" => Cells "cell PAD refused 1 direction at 412\n"],
    inverter![OWN, OWN; "cell NONE\n" => Stimulus "stimulus line 1: unknown cell\n"],
    ended![FLIP_FLOP; FLIP_FLOPS, FLIP_FLOPS; "cell DFF\n417 D 0\n# c\n437 CK1\r" => Stimulus "stimulus line 4: form\n"],
    ended![FLIP_FLOP; FLIP_FLOPS, FLIP_FLOPS; "cell DFF\n4 Q 2" => Stimulus "stimulus line 2: output pin\n"],
    ended![FLIP_FLOP; FLIP_FLOPS, FLIP_FLOPS; "cell DFF\n4 QN 1" => Stimulus "stimulus line 2: unknown pin\n"],
];

#[test]
fn the_first_fault_of_the_files_of_a_simulation_is_told(rt: HostRuntime) -> Result<(), Fail> {
    all_hold(rt.alloc(), &ENDED)
}
