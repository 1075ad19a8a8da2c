//! Libraries of one cell without timing.

/// An output that is tied to 1, alone.
pub(crate) const TIE: &str =
    "library (L) { cell (TIE) { pin (Y) { direction : output; function : \"1\"; } } }";

/// A flip-flop without timing.
pub(crate) const FLIP_FLOP: &str = "library (L) { cell (DFF) {
ff (IQ, IQN) { next_state : \"D\"; clocked_on : \"CK\"; }
pin (CK) { direction : input; } pin (D) { direction : input; } pin (Q) { direction : output; function : \"IQ\"; }
} }
";

/// A clock gate by a state table with these rows behind those for a low clock.
macro_rules! clock_gate {
    ($last:literal) => {
        concat!(
            "library (L) { time_unit : \"1ps\"; cell (GATE) {\n",
            "statetable (\"CK E SE\", \"IQ\") { table : \"L L L : - : L, L L H : - : H, L H L : - : H, L H H : - : H",
            $last,
            "\"; }\npin (CK) { direction : input; } pin (E) { direction : input; } pin (SE) { direction : input; }\n",
            "pin (IQ) { direction : internal; internal_node : \"IQ\"; }\n",
            "pin (GCK) { direction : output; state_function : \"CK * IQ\"; }\n} }\n"
        )
    };
}

/// A clock gate that keeps its node while the clock is high.
pub(crate) const CLOCK_GATE: &str = clock_gate!(", H - - : - : N");

/// One without a row for a high clock.
pub(crate) const CLOCK_GATE_WITHOUT_KEEP: &str = clock_gate!("");

/// A register of two bits, with buses for its data and its outputs, of which the bus of the outputs begins at this bit.
macro_rules! register {
    ($first:literal) => {
        concat!(
            "library (L) {\ntype (B) { bit_from : 1; bit_to : 0; }\ntype (C) { bit_from : ",
            $first,
            "; bit_to : 0; }\ncell (REG2) {\n",
            "bus (D) { bus_type : B; direction : input; }\npin (CK) { direction : input; }\n",
            "bus (Q) { bus_type : C; direction : output; function : \"IQ\"; }\n",
            "ff_bank (IQ, IQN, 2) { next_state : \"D\"; clocked_on : \"CK\"; }\n}\n}\n"
        )
    };
}

/// A register with two outputs.
pub(crate) const REGISTER: &str = register!("1");

/// One with three outputs.
pub(crate) const REGISTER_WITH_WIDE_OUTPUT: &str = register!("2");
