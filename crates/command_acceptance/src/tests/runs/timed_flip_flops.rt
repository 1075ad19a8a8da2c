//! Flip-flops with a setup time, and the models of one.

/// A flip-flop with a setup time of 50 ps before the rise of its clock, which has this attribute, and delays of 100 and 120 ps;
/// this pin stands before its output.
macro_rules! timed_flip_flop {
    ($attribute:literal, $pin:literal) => {
        concat!(
            "library (L) {\ntime_unit : \"1ps\";\ncell (DFFT) {\n",
            "ff (IQ, IQN) { next_state : \"D\"; clocked_on : \"CK\"; }\npin (CK) { direction : input; }\npin (D) { direction : input;\n",
            "timing () { timing_type : setup_rising; related_pin : \"CK\"; ",
            $attribute,
            "rise_constraint (s) { values (\"50\"); } fall_constraint (s) { values (\"50\"); } }\n}\n",
            $pin,
            "pin (Q) { direction : output; function : \"IQ\";\n",
            "timing () { timing_type : rising_edge; related_pin : \"CK\"; ",
            "cell_rise (s) { values (\"100\"); } cell_fall (s) { values (\"120\"); } }\n}\n}\n}\n"
        )
    };
}

/// One whose setup time counts always.
pub(crate) const TIMED_FLIP_FLOP: &str = timed_flip_flop!("", "");

/// One with a condition of the setup time, over a pin that nothing sets.
pub(crate) const GUARDED_FLIP_FLOP: &str = timed_flip_flop!(
    "when : \"!SE\"; ",
    "pin (SE) { direction : input; }\n"
);

/// The Verilog of the one whose setup time counts always, with these rows of its state behind that of the notifier.
macro_rules! timed_flip_flop_module {
    ($($row:literal),*) => {
        concat!(
            "`timescale 1ps/1ps\nprimitive lib_1_1 (q, i1, i2, i3);\n  output q;\n  reg q;\n  input i1;\n  input i2;\n  input i3;\n",
            "  table\n    ? ? * : ? : x;\n",
            $("    ", $row, ";\n",)*
            "  endtable\nendprimitive\nprimitive lib_1_2 (q, i1);\n  output q;\n  input i1;\n",
            "  table\n    1 : 1;\n    0 : 0;\n  endtable\nendprimitive\n",
            "module DFFT (CK, D, Q);\n  input CK;\n  input D;\n  output Q;\n  wire lib_s1;\n  reg lib_n;\n",
            "  lib_1_1 (lib_s1, CK, D, lib_n);\n  lib_1_2 (Q, lib_s1);\n",
            "  specify\n    (CK => Q) = (100, 120);\n    $setup(D, posedge CK, 50, lib_n);\n  endspecify\nendmodule\n"
        )
    };
}

/// With a row for each two primes that differ in the state alone, which keeps it.
pub(crate) const TIMED_FLIP_FLOP_MODULE: &str = timed_flip_flop_module!(
    "(01) 1 ? : ? : 1",
    "(1?) ? ? : ? : -",
    "(?0) ? ? : ? : -",
    "* 1 ? : 1 : 1",
    "(01) 0 ? : ? : 0",
    "* 0 ? : 0 : 0",
    "? * ? : ? : -"
);

/// In plain form, with a row for each prime.
pub(crate) const PLAIN_FLIP_FLOP_MODULE: &str = timed_flip_flop_module!(
    "(01) 1 ? : ? : 1",
    "(1?) ? ? : 1 : 1",
    "(?0) ? ? : 1 : 1",
    "* 1 ? : 1 : 1",
    "(01) 0 ? : ? : 0",
    "(1?) ? ? : 0 : 0",
    "(?0) ? ? : 0 : 0",
    "* 0 ? : 0 : 0",
    "? * ? : 1 : 1",
    "? * ? : 0 : 0"
);

/// The VHDL of that one, with these rows of its state between those for violations and the last.
macro_rules! timed_flip_flop_entity {
    ($($row:literal),*) => {
        concat!(
            "library IEEE;\nuse IEEE.std_logic_1164.all;\nuse IEEE.VITAL_Timing.all;\n",
            "use IEEE.VITAL_Primitives.all;\nentity DFFT is\n",
            "  port (CK : in std_ulogic; D : in std_ulogic; Q : out std_ulogic);\nend DFFT;\n",
            "architecture vital of DFFT is\n  constant k_1 : VitalStateTableType := (\n",
            "    ('0', 'S', 'S', '-', 'S'),\n    ('X', '-', '-', '-', 'X'),\n",
            $("    ", $row, ",\n",)*
            "    ('-', '-', '-', '-', 'X'));\n  constant k_2 : VitalTruthTableType := (\n    ('1', '1'),\n",
            "    ('0', '0'));\nbegin\n  process (CK, D)\n    variable x_1 : X01 := '0';\n",
            "    variable d_1 : VitalTimingDataType := VitalTimingDataInit;\n    variable viol : X01 := '0';\n",
            "    variable s_1 : std_logic := 'X';\n",
            "    variable p_1 : std_logic_vector (1 to 3) := (others => 'X');\n",
            "    variable z_1 : std_logic := 'X';\n    variable g_1 : VitalGlitchDataType;\n  begin\n",
            "    VitalSetupHoldCheck (Violation => x_1, TimingData => d_1, TestSignal => D, RefSignal => CK, SetupHigh => 50 ps, SetupLow => 50 ps, CheckEnabled => true, RefTransition => 'R');\n",
            "    viol := x_1;\n",
            "    VitalStateTable (Result => s_1, PreviousDataIn => p_1, StateTable => k_1, DataIn => (viol, CK, D));\n",
            "    z_1 := VitalTruthTable (TruthTable => k_2, DataIn => (0 => s_1));\n",
            "    VitalPathDelay01 (OutSignal => Q, GlitchData => g_1, OutSignalName => \"Q\", OutTemp => z_1, Paths => (0 => (CK'last_event, (100 ps, 120 ps), true)), Mode => VitalTransport);\n",
            "  end process;\nend vital;\n"
        )
    };
}

/// With a row for each two primes that differ in the state alone, which keeps it.
pub(crate) const TIMED_FLIP_FLOP_ENTITY: &str = timed_flip_flop_entity!(
    "('-', '/', '1', '-', '1')",
    "('-', 'n', '-', '-', 'S')",
    "('-', 'N', '-', '-', 'S')",
    "('-', '*', '1', '1', '1')",
    "('-', '/', '0', '-', '0')",
    "('-', '*', '0', '0', '0')",
    "('-', '-', '*', '-', 'S')"
);

/// In plain form, with a row for each prime.
pub(crate) const PLAIN_FLIP_FLOP_ENTITY: &str = timed_flip_flop_entity!(
    "('-', '/', '1', '-', '1')",
    "('-', 'n', '-', '1', '1')",
    "('-', 'N', '-', '1', '1')",
    "('-', '*', '1', '1', '1')",
    "('-', '/', '0', '-', '0')",
    "('-', 'n', '-', '0', '0')",
    "('-', 'N', '-', '0', '0')",
    "('-', '*', '0', '0', '0')",
    "('-', '-', '*', '1', '1')",
    "('-', '-', '*', '0', '0')"
);
