//! Libraries that are simulated.

/// An inverter, a cell whose output may float, a multiplexer, and a cell that is refused.
pub(crate) const INVERTER: &str = "library (L) {
cell (INV) { pin (A) { direction : input; } pin (Y) { direction : output; function : \"!A\"; } }
cell (TB) { pin (A) { direction : input; } pin (Y) { direction : output; three_state : \"A\"; function : \"A\"; } }
cell (MUX2) { pin (A) { direction : input; } pin (B) { direction : input; } pin (S) { direction : input; }
pin (Y) { direction : output; function : \"(A*!S)+(B*S)\"; } }
cell (PAD) { pin (A) { direction : inout; } }
}
";

/// A buffer that is driven while its enable is 1, with a delay from its input and one from its enable.
pub(crate) const BUFFER_WITH_ENABLE: &str = "library (L) {
time_unit : \"1ps\";
cell (TBUF) {
pin (A) { direction : input; }
pin (OE) { direction : input; }
pin (Y) { direction : output; function : \"A\"; three_state : \"!OE\";
timing () { related_pin : \"A\"; cell_rise (s) { values (\"5\"); } cell_fall (s) { values (\"7\"); } }
timing () { related_pin : \"OE\"; timing_type : three_state_enable;
cell_rise (s) { values (\"11\"); } cell_fall (s) { values (\"13\"); } } }
}
}
";

/// A latch whose enable has to stay high for 100 ps.
pub(crate) const LATCH: &str = "library (L) {
time_unit : \"1ps\";
cell (LAT) {
latch (IQ, IQN) { data_in : \"D\"; enable : \"EN\"; }
pin (EN) { direction : input; min_pulse_width_high : 100; }
pin (D) { direction : input; }
pin (Q) { direction : output; function : \"IQ\"; }
}
}
";

/// A flip-flop with these attributes of its state, its clock and its data, these inputs before its output, and this output behind
/// it.
macro_rules! flip_flop {
    ($state:literal, $clock:literal, $data:literal, $inputs:literal, $output:literal) => {
        concat!(
            "library (L) {\ntime_unit : \"1ps\";\ncell (DFF) {\n",
            "ff (IQ, IQN) { next_state : \"D\"; clocked_on : \"CK\"; ",
            $state,
            "}\npin (CK) { direction : input; ",
            $clock,
            "}\npin (D) { direction : input; ",
            $data,
            "}\n",
            $inputs,
            "pin (Q) { direction : output; function : \"IQ\"; }\n",
            $output,
            "}\n}\n"
        )
    };
}

/// A flip-flop with a clear.
pub(crate) const CLEARED: &str = flip_flop!(
    "clear : \"C\"; ",
    "",
    "",
    "pin (C) { direction : input; }\n",
    ""
);

/// A flip-flop with a clear and a preset: both variables are 0 where both are 1.
pub(crate) const CLEARED_AND_PRESET: &str = flip_flop!(
    "clear : \"C\"; preset : \"P\"; clear_preset_var1 : L; clear_preset_var2 : L; ",
    "",
    "",
    "pin (C P) { direction : input; }\n",
    "pin (QN) { direction : output; function : \"IQN\"; }\n"
);

/// A flip-flop with a clear, and a setup time of 50 ps before the rise of its clock.
pub(crate) const CLEARED_AND_CHECKED: &str = flip_flop!(
    "clear : \"C\"; ",
    "",
    "timing () { timing_type : setup_rising; related_pin : \"CK\";
rise_constraint (s) { values (\"50\"); } fall_constraint (s) { values (\"50\"); } } ",
    "pin (C) { direction : input; }\n",
    ""
);

/// A flip-flop whose clock has a least period of 100 ps.
pub(crate) const PERIODIC: &str = flip_flop!("", "min_period : 100; ", "", "", "");

/// Two flip-flops, of which the second has a setup time of 50 ps before the rise of its clock.
pub(crate) const TWO_FLIP_FLOPS: &str = "library (L) {
time_unit : \"1ps\";
cell (PAIR) {
ff (I1, N1) { next_state : \"D1\"; clocked_on : \"C1\"; }
ff (I2, N2) { next_state : \"D2\"; clocked_on : \"C2\"; }
pin (C1) { direction : input; }
pin (D1) { direction : input; }
pin (Q1) { direction : output; function : \"I1\"; }
pin (C2) { direction : input; }
pin (D2) { direction : input; timing () { timing_type : setup_rising; related_pin : \"C2\";
rise_constraint (s) { values (\"50\"); } fall_constraint (s) { values (\"50\"); } } }
pin (Q2) { direction : output; function : \"I2\"; }
}
}
";

/// A toggle by a state table with halved rows, with a reset.
pub(crate) const TOGGLE: &str = "library (L) { cell (TOGGLE) {
statetable (\"CK RS\", \"IQ\") { table : \"- H : - : L, R L : L/H : H/L, ~R L : - : N\"; }
pin (CK) { direction : input; } pin (RS) { direction : input; }
pin (Q) { direction : output; internal_node : \"IQ\"; }
} }
";

/// A flip-flop with a setup time that counts while SE is 0, delays, and a clear and a preset, both of whose variables are 0
/// where both are on.
pub(crate) const CLEARED_AND_PRESET_AND_TIMED: &str = "library (L) {
time_unit : \"1ps\";
cell (DFFCP) {
ff (IQ, IQN) { next_state : D; clocked_on : CK; clear : C; preset : P; clear_preset_var1 : L; clear_preset_var2 : L; }
pin (CK) { direction : input; } pin (D) { direction : input;
timing () { related_pin : CK; timing_type : setup_rising; when : \"!SE\";
rise_constraint (t) { values (\"20, 50\"); } fall_constraint (t) { values (30); } } }
pin (C, P, SE) { direction : input; } pin (Q) { direction : output; function : IQ;
timing () { related_pin : CK; timing_type : rising_edge;
cell_rise (t) { values (100); } cell_fall (t) { values (120); } } } pin (QN) { direction : output; function : IQN; }
}
}
";

/// A flip-flop that takes SI where SE is 1 and D where it is 0, with a clear while RN is 0.
pub(crate) const CLEARED_SCAN_FLIP_FLOP: &str = "library (L) {
time_unit : \"1ps\";
cell (SDFFR) { ff (IQ, IQN) { next_state : \"(SE*SI)+(D*!SE)\"; clocked_on : \"CK\"; clear : \"!RN\"; }
pin (D, SI, SE, CK, RN) { direction : input; } pin (Q) { direction : output; function : \"IQ\"; } }
}
";

/// A latch whose enable has to stay high for 100 ps, with a clear and delays.
pub(crate) const CLEARED_LATCH: &str = "library (L) {
time_unit : \"1ps\";
cell (LATCHC) { latch (IQ, IQN) { data_in : D; enable : EN; clear : C; }
pin (EN) { direction : input; min_pulse_width_high : 100; } pin (D, C) { direction : input; }
pin (Q) { direction : output; function : IQ; timing () { related_pin : D;
cell_rise (t) { values (7); } cell_fall (t) { values (8); } } } }
}
";

/// A scan flip-flop with a setup and a hold time that count while SE is 0, and delays that hang on SE.
pub(crate) const TIMED_SCAN_FLIP_FLOP: &str = "library (L) {
time_unit : \"1ps\";
cell (SDFF) { ff (IQ, IQN) { next_state : \"SI*SE + D*!SE\"; clocked_on : CK; } pin (CK) { direction : input; }
pin (D) { direction : input; timing () { related_pin : CK; timing_type : setup_rising; when : \"!SE\";
rise_constraint (t) { values (50); } fall_constraint (t) { values (50); } }
timing () { related_pin : CK; timing_type : hold_rising; when : \"!SE\";
rise_constraint (t) { values (30); } fall_constraint (t) { values (30); } } } pin (SI, SE) { direction : input; }
pin (Q) { direction : output; function : IQ; timing () { related_pin : CK; timing_type : rising_edge; when : SE;
cell_rise (t) { values (110); } cell_fall (t) { values (90); } }
timing () { related_pin : CK; timing_type : rising_edge; when : \"!SE*SI\";
cell_rise (t) { values (100); } cell_fall (t) { values (95); } }
timing () { related_pin : CK; timing_type : rising_edge;
cell_rise (t) { values (120); } cell_fall (t) { values (80); } } } }
}
";

/// A clock gate whose clock has a least period of 100 ps, with the internal pin of its node before the output.
pub(crate) const PERIODIC_CLOCK_GATE: &str = "library (L) {
time_unit : \"1ps\";
cell (GATE) { pin (CK) { direction : input; min_period : 100; } pin (E, SE) { direction : input; }
statetable (\"CK E SE\", \"IQ\") {
table : \"L L L : - : L, L L H : - : H, L H L : - : H, L H H : - : H, H - - : - : N\"; }
pin (IQ) { direction : internal; internal_node : \"IQ\"; }
pin (GCK) { direction : output; state_function : \"CK * IQ\"; } }
}
";
