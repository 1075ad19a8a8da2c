//! What the files of a library of one cell have to hold whose output is tied to 1.
use crate::tests::runs::entity_text;

/// The Verilog of a module of this name with these ports, of which these inputs are declared, and with this output, which is tied
/// to 1.
macro_rules! tied_module {
    ($name:literal, $ports:literal, $inputs:literal, $output:literal) => {
        concat!(
            "`timescale 1ps/1ps\nmodule ",
            $name,
            " (",
            $ports,
            ");\n",
            $inputs,
            "  output ",
            $output,
            ";\n  buf (",
            $output,
            ", 1'b1);\nendmodule\n"
        )
    };
}

/// Four ports, of which Verilog text keeps the names of all but a word of its own.
pub(crate) const PORTS_MODULE: &str = tied_module!(
    "P",
    "a, A, pin3, D_1",
    "  input a;\n  input A;\n  input pin3;\n",
    "D_1"
);

/// An output beside an input.
pub(crate) const TIE_MODULE: &str = tied_module!("TIE", "A, Y", "  input A;\n", "Y");

/// An output alone.
pub(crate) const LONE_TIE_MODULE: &str = tied_module!("TIE", "Y", "", "Y");

/// The text of the entity of a cell of this name with these ports and an output that is tied to 1: behind these signals, to which
/// its process responds, up to these statements, with which it ends.
macro_rules! tied_entity {
    ($name:literal, $ports:literal, $signals:literal, $last:literal) => {
        entity_text!(
            $name,
            $ports,
            [],
            [$signals, "\n    variable z_1 : std_logic := 'X';\n  begin\n    z_1 := '1';\n", $last]
        )
    };
}

/// Four ports, of which VHDL text keeps the name of the first alone.
pub(crate) const PORTS_ENTITY: &str = tied_entity!(
    "P",
    "a : in std_ulogic; pin2 : in std_ulogic; pin3 : in std_ulogic; pin4 : out std_ulogic",
    " (a, pin2, pin3)",
    "    pin4 <= z_1;\n"
);

/// An output beside an input.
pub(crate) const TIE_ENTITY: &str = tied_entity!(
    "TIE",
    "A : in std_ulogic; Y : out std_ulogic",
    " (A)",
    "    Y <= z_1;\n"
);

/// An output alone, of an entity of this name: the process responds to no signal.
macro_rules! lone_tie_entity {
    ($name:literal) => {
        tied_entity!($name, "Y : out std_ulogic", "", "    Y <= z_1;\n    wait;\n")
    };
}

/// An output alone.
pub(crate) const LONE_TIE_ENTITY: &str = lone_tie_entity!("TIE");

/// An output alone, of a second cell that VHDL does not tell from the first by its name.
pub(crate) const SECOND_TIE_ENTITY: &str = lone_tie_entity!("cell2");
