//! The variables of an entity's process. (IEEE 1076-1993, 4.3.1.3; IEEE 1076.4-2000, the types of checks and of path delays.)
ghost use Rattle.std.specs.Prelude.{◌≡◌};
ghost use Rattle.vhdl_writer.specs.Declarations.{data_text, check_variables_text, violation_variable_text, width_of};
ghost use Rattle.vhdl_writer.specs.Declarations.{state_variables_text, output_variables_text};

use crate::assignments::AssignedVariables;
use crate::parts::{At, CheckAt, ItemText};
use crate::twice_numbered::TwiceNumbered;
use cell_machine::CheckKind;
use text_io::{Bytes, Decimal, Desk, Line, OutSlot, Part, Put, parts};
use udp_tables::TimingCheck;
use vital_models::{VOutput, VState, VStateRow};

/// The type of the data of a check, and what they are at first.
fn data_text(kind: CheckKind) -> &'static [u8]
    ensures { result.now ≡ data_text kind }
{
    match kind {
        CheckKind::Width | CheckKind::Period => {
            b" : VitalPeriodDataType := VitalPeriodDataInit;\n"
        }
        _ => b" : VitalTimingDataType := VitalTimingDataInit;\n",
    }
}

/// Variables of checks, of states and of outputs.
#[derive(Drop)]
pub(crate) struct VariableLines;

impl ItemText<TimingCheck> for VariableLines {
    ghost text = { λ _ n k. check_variables_text n k };

    #[tactic(auto, unfolding(crate::specs::Declarations::check_variables_text))]
    fn put<D: Desk>(&self, at: &CheckAt, line: &mut Line, desk: &mut D, slot: OutSlot) -> Put {
        TwiceNumbered {
            start: b"    variable x_",
            next: b" : X01 := '0';\n    variable d_",
            number: at.number,
            rest: Bytes(data_text(at.item.kind)),
        }
        .put(line, desk, slot)
    }
}

/// The variable of the violation, where there are checks.
pub(crate) fn violation_variable(checks: &[TimingCheck]) -> &'static [u8]
    ensures { result.now ≡ violation_variable_text checks.now }
{
    if checks.is_empty() {
        b""
    } else {
        b"    variable viol : X01 := '0';\n"
    }
}

/// How many columns the first row has.
fn width_of(rows: &[VStateRow]) -> usize
    ensures { result ≡ width_of rows.now }
{
    match rows {
        [] => 0,
        [row, ..] => row.inputs.len(),
    }
}

impl ItemText<VState> for VariableLines {
    ghost text = { λ _ n state. state_variables_text n state };

    #[tactic(auto, unfolding(crate::specs::Declarations::state_variables_text))]
    fn put<D: Desk>(&self, at: &At<VState>, line: &mut Line, desk: &mut D, slot: OutSlot) -> Put {
        let width = width_of(at.item.table.rows.as_slice());
        TwiceNumbered {
            start: b"    variable s_",
            next: b" : std_logic := 'X';\n    variable p_",
            number: at.number,
            rest: parts!(
                Bytes(b" : std_logic_vector (1 to "),
                Decimal(width as u128),
                Bytes(b") := (others => 'X');\n")
            ),
        }
        .put(line, desk, slot)
    }
}

impl ItemText<VOutput> for VariableLines {
    ghost text = { λ _ n output. output_variables_text n output };

    fn put<D: Desk>(&self, at: &At<VOutput>, line: &mut Line, desk: &mut D, slot: OutSlot) -> Put {
        AssignedVariables {
            number: at.number,
            has_paths: at.item.paths.len() > 0,
        }
        .put(line, desk, slot)
    }
}
