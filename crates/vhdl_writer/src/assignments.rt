//! The variables of an output and the line that assigns it, by its number and its name: of an entity, and of a model of drivers.
//! (IEEE 1076-1993, 4.3.1.3 and 8.4; IEEE 1076.4-2000, VitalPathDelay01.)
ghost use Rattle.vhdl_writer.specs.Assignments.{assigned_variables_text, assignment_text};

use text_io::{Bytes, Decimal, Desk, Line, OutSlot, Part, Put, When, parts};

/// The variables of an output: its value, and the data of its delays, where it has paths.
#[derive(Drop)]
pub struct AssignedVariables {
    /// The number of the output, from 1.
    pub number: usize,
    /// Whether it has paths.
    pub has_paths: bool,
}

impl Part for AssignedVariables {
    ghost text = { λ v. assigned_variables_text v.number v.has_paths };

    #[tactic(auto, unfolding(crate::specs::Assignments::assigned_variables_text, crate::specs::Assignments::glitch_data_text))]
    fn put<D: Desk>(&self, line: &mut Line, desk: &mut D, slot: OutSlot) -> Put {
        let number = self.number as u128;
        let data = Bytes(b" : VitalGlitchDataType;\n");
        let glitch = parts!(Bytes(b"    variable g_"), Decimal(number), data);
        parts!(
            Bytes(b"    variable z_"),
            Decimal(number),
            Bytes(b" : std_logic := 'X';\n"),
            When(self.has_paths, glitch)
        )
        .put(line, desk, slot)
    }
}

/// The line of an output: the call of its paths, or, where it has none, its assignment.
#[derive(Drop)]
pub struct Assignment<'a, P> {
    /// The number of the output, from 1.
    pub number: usize,
    /// The name of its port.
    pub name: &'a [u8],
    /// Whether it has paths.
    pub has_paths: bool,
    /// The paths.
    pub paths: P,
}

impl<P: Part> Part for Assignment<'_, P> {
    ghost text = { λ a. assignment_text a.number a.name.now a.has_paths (P.text a.paths) };

    fn put<D: Desk>(&self, line: &mut Line, desk: &mut D, slot: OutSlot) -> Put {
        let (number, name) = (self.number as u128, self.name);
        if self.has_paths {
            let start = parts!(
                Bytes(b"    VitalPathDelay01 (OutSignal => "),
                Bytes(name),
                Bytes(b", GlitchData => g_"),
                Decimal(number),
                Bytes(b", OutSignalName => \""),
                Bytes(name),
                Bytes(b"\", OutTemp => z_"),
                Decimal(number),
                Bytes(b", Paths => (")
            );
            let end = Bytes(b"), Mode => VitalTransport);\n");
            parts!(start, &self.paths, end).put(line, desk, slot)
        } else {
            let value = parts!(Decimal(number), Bytes(b";\n"));
            parts!(Bytes(b"    "), Bytes(name), Bytes(b" <= z_"), value).put(line, desk, slot)
        }
    }
}
