//! What texts of models share: gates of one input, and entities behind their context. A macro that stands in another one's call
//! is handed literals, since `concat!` takes no other macro.

/// The text of a gate of this name from A to Y, behind this one: its primitive, of this name and with these two rows, and its
/// module.
macro_rules! gate_module {
    ($before:literal, $name:literal, $primitive:literal, $first:literal, $second:literal) => {
        concat!(
            $before,
            "primitive ",
            $primitive,
            " (q, i1);\n  output q;\n  input i1;\n  table\n    ",
            $first,
            ";\n    ",
            $second,
            ";\n  endtable\nendprimitive\nmodule ",
            $name,
            " (A, Y);\n  input A;\n  output Y;\n  ",
            $primitive,
            " (Y, A);\nendmodule\n"
        )
    };
}

pub(crate) use gate_module;

/// The text of an entity of this name with these ports, behind its context: what its architecture declares, and its only process
/// from behind that word up to its end.
macro_rules! entity_text {
    ($name:literal, $ports:literal, [$($declared:literal),*], [$($process:literal),*]) => {
        concat!(
            "library IEEE;\nuse IEEE.std_logic_1164.all;\n",
            "use IEEE.VITAL_Timing.all;\nuse IEEE.VITAL_Primitives.all;\n",
            "entity ",
            $name,
            " is\n  port (",
            $ports,
            ");\nend ",
            $name,
            ";\narchitecture vital of ",
            $name,
            " is\n",
            $($declared,)*
            "begin\n  process",
            $($process,)*
            "  end process;\nend vital;\n"
        )
    };
}

pub(crate) use entity_text;

/// The text of the entity of a gate of this name from A to Y, with these two rows of its table.
macro_rules! gate_entity {
    ($name:literal, $first:literal, $second:literal) => {
        entity_text!(
            $name,
            "A : in std_ulogic; Y : out std_ulogic",
            ["  constant k_1 : VitalTruthTableType := (\n    (", $first, "),\n    (", $second, "));\n"],
            [" (A)\n    variable z_1 : std_logic := 'X';\n  begin\n    z_1 := VitalTruthTable (TruthTable => k_1, DataIn => (0 => A));\n    Y <= z_1;\n"]
        )
    };
}

pub(crate) use gate_entity;
