//! A library of three cells, of which the second has an output that may float, and what it comes to.
use super::texts::{entity_text, gate_entity, gate_module};

/// The library.
pub(crate) const THREE_CELLS: &str = "library (L) {
cell (INV) { pin (A) { direction : input; } pin (Y) { direction : output; function : \"!A\"; } }
cell (TB) { pin (A) { direction : input; } pin (Y) { direction : output; three_state : \"A\"; function : \"A\"; } }
cell (BUF) { pin (A) { direction : input; } pin (Y) { direction : output; function : \"A\"; } }
}
";

/// The Verilog file without a cell.
pub(crate) const NO_MODULE: &str = "`timescale 1ps/1ps
";

/// The Verilog file with the first cell.
pub(crate) const FIRST_MODULE: &str = gate_module!(
    "`timescale 1ps/1ps\n",
    "INV",
    "lib_1_1",
    "0 : 1",
    "1 : 0"
);

/// What the second cell adds to it: its core, and its driver.
pub(crate) const SECOND_MODULES: &str = "primitive lib_2_1 (q, i1);
  output q;\n  input i1;\n  table\n    1 : 1;\n    0 : 0;\n  endtable\nendprimitive
primitive lib_2_2 (q, i1);
  output q;\n  input i1;\n  table\n    0 : 1;\n    1 : 0;\n  endtable\nendprimitive
module cell2 (A, Y, pin3);
  input A;\n  output Y;\n  output pin3;
  lib_2_1 (Y, A);
  lib_2_2 (pin3, A);
endmodule
`celldefine
module TB (A, Y);
  input A;
  output Y;
  wire lib_d1;
  wire lib_e1;
  cell2 lib_u (A, lib_d1, lib_e1);
  bufif1 (Y, lib_d1, lib_e1);
endmodule
`endcelldefine
";

/// What the third cell adds to it.
pub(crate) const THIRD_MODULE: &str = gate_module!("", "BUF", "lib_3_1", "1 : 1", "0 : 0");

/// The VHDL file with the first cell.
pub(crate) const FIRST_ENTITY: &str = gate_entity!("INV", "'0', '1'", "'1', '0'");

/// The entity of the core of the second cell.
pub(crate) const CORE_ENTITY: &str = entity_text!(
    "cell2",
    "A : in std_ulogic; Y : out std_ulogic; pin3 : out std_ulogic",
    [
        "  constant k_1 : VitalTruthTableType := (\n    ('1', '1'),\n    ('0', '0'));\n",
        "  constant k_2 : VitalTruthTableType := (\n    ('0', '1'),\n    ('1', '0'));\n"
    ],
    [
        " (A)\n    variable z_1 : std_logic := 'X';\n    variable z_2 : std_logic := 'X';\n  begin\n",
        "    z_1 := VitalTruthTable (TruthTable => k_1, DataIn => (0 => A));\n",
        "    z_2 := VitalTruthTable (TruthTable => k_2, DataIn => (0 => A));\n",
        "    Y <= z_1;\n    pin3 <= z_2;\n"
    ]
);

/// The driver of the second cell.
pub(crate) const DRIVER_ENTITY: &str = "use work.all;
library IEEE;
use IEEE.std_logic_1164.all;
use IEEE.VITAL_Timing.all;
use IEEE.VITAL_Primitives.all;
entity TB is
  port (A : in std_ulogic; Y : out std_ulogic);
end TB;
architecture driven of TB is
  signal d_1 : std_ulogic;
  signal e_1 : std_ulogic;
begin
  u_1 : entity work.cell2 port map (A, d_1, e_1);
  process (A, d_1, e_1)
    variable z_1 : std_logic := 'X';
  begin
    z_1 := VitalBUFIF1 (d_1, e_1);
    Y <= z_1;
  end process;
end driven;
";

/// What the third cell adds to it.
pub(crate) const THIRD_ENTITY: &str = gate_entity!("BUF", "'1', '1'", "'0', '0'");

/// The Verilog file.
pub(crate) const THREE_MODULES: [&str; 3] = [FIRST_MODULE, SECOND_MODULES, THIRD_MODULE];

/// The VHDL file.
pub(crate) const THREE_ENTITIES: [&str; 4] = [
    FIRST_ENTITY,
    CORE_ENTITY,
    DRIVER_ENTITY,
    THIRD_ENTITY,
];

/// The report.
pub(crate) const THREE_LINES: &str = "cell 1 INV ok
cell 2 TB ok
cell 3 BUF ok
accepted 3 refused 0
";
