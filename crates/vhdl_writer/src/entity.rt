//! The text of an entity and of its architecture.
ghost use Rattle.std.specs.Prelude.{IsTrue};
ghost use Rattle.text_io.specs.declared.slots.OutSlot.TheVariants.{VitalText};
ghost use Rattle.text_io.specs.declared.slots.Slot.TheVariants.{Output};
ghost use Rattle.text_io.specs.Desk.{is_bound, HasCause, WritesText};
ghost use Rattle.vhdl_writer.specs.Entity.{entity_text};

use crate::declarations::{Header, Process, end_text};
use crate::outputs::ValueLines;
use crate::parts::{Each, InEntity};
use crate::states::ListedReports;
use crate::tables::ConstantLines;
use crate::variables::{VariableLines, violation_variable};
use text_io::{Bytes, Desk, Failed, OutSlot, When, parts, write_part};
use vital_models::VEntity;

/// Appends the text of an entity and of its architecture to the VHDL text, which is bound: its header, its constants, its process
/// with its variables and its statements. After `Failed`, which comes only where a write failed, a prefix of it was appended. It
/// takes no memory. A number in the entity that names nothing is written as nothing; a sound entity has none.
pub fn write_entity<D: Desk>(desk: &mut D, entity: &VEntity) -> Result<(), Failed>
    requires { IsTrue (is_bound (D.state desk.old) (Output VitalText)) }
    ensures text { WritesText (D.state desk.old) (D.state desk.new) VitalText (entity_text entity.now) result }
    ensures cause { HasCause (D.faults desk.old) (D.faults desk.new) result }
{
    let checks = entity.checks.as_slice();
    let states = entity.states.as_slice();
    let conditions = entity.conditions.as_slice();
    let outputs = entity.outputs.as_slice();
    let constants = parts!(
        Each(ConstantLines(entity), states),
        Each(ConstantLines(entity), conditions),
        Each(ConstantLines(entity), outputs)
    );
    let variables = parts!(
        Each(VariableLines, checks),
        Bytes(violation_variable(checks)),
        Each(VariableLines, states),
        Each(VariableLines, outputs)
    );
    let reports = Each(ListedReports, checks);
    let violation = parts!(Bytes(b"    viol := "), reports, Bytes(b";\n"));
    let statements = parts!(
        Each(InEntity(entity), checks),
        When(checks.len() > 0, violation),
        Each(InEntity(entity), states),
        Each(ValueLines(entity), outputs),
        Each(InEntity(entity), outputs)
    );
    let begin = Bytes(b"  begin\n");
    let end = Bytes(end_text(entity));
    let text = parts!(
        Header(entity),
        constants,
        Process(entity),
        variables,
        begin,
        statements,
        end
    );
    write_part(desk, OutSlot::VitalText, &text)
}
