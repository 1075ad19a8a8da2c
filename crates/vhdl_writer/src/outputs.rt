//! The statements that assign outputs. (IEEE 1076.4-2000, VitalTruthTable and VitalPathDelay01; IEEE 1076-1993, 8.4 and 8.5.)
ghost use Rattle.vhdl_writer.specs.Outputs.{assigned_text, value_line, zero_text, gate_text, path_text, output_line};

use crate::assignments::Assignment;
use crate::names::{Condition, Listed, LookUp, apart, port_at};
use crate::parts::{At, Each, InEntity, ItemText};
use crate::tables::table_number;
use text_io::{Bytes, Decimal, Desk, Line, OutSlot, Part, Put, parts};
use vital_models::{HGate, HPath, OutValue, VEntity, VOutput};

/// The value of the output with this number.
#[derive(Drop)]
struct Value<'a>(&'a VEntity, usize, &'a OutValue);

impl Part for Value<'_> {
    ghost text = { λ m. assigned_text m.0.now m.1 m.2.now };

    fn put<D: Desk>(&self, line: &mut Line, desk: &mut D, slot: OutSlot) -> Put {
        match self.2 {
            OutValue::Constant(true) => line.put(desk, slot, b"'1'"),
            OutValue::Constant(false) => line.put(desk, slot, b"'0'"),
            OutValue::Table { inputs, .. } => LookUp {
                start: b"VitalTruthTable (TruthTable => k_",
                number: table_number(self.0, self.1),
                listed: Listed(Each(InEntity(self.0), inputs.as_slice())),
            }
            .put(line, desk, slot),
        }
    }
}

/// Assignments of the variables of outputs.
#[derive(Drop)]
pub(crate) struct ValueLines<'a>(pub(crate) &'a VEntity);

impl ItemText<VOutput> for ValueLines<'_> {
    ghost text = { λ m n output. value_line m.0.now n output };

    #[tactic(auto, unfolding(crate::specs::Outputs::value_line))]
    fn put<D: Desk>(&self, at: &At<VOutput>, line: &mut Line, desk: &mut D, slot: OutSlot) -> Put {
        let number = Decimal(at.number as u128);
        let value = Value(self.0, at.number, &at.item.value);
        let end = Bytes(b";\n");
        parts!(Bytes(b"    z_"), number, Bytes(b" := "), value, end).put(line, desk, slot)
    }
}

/// Conditions that are 0, among others.
#[derive(Drop)]
struct Zeros<'a>(&'a VEntity);

impl ItemText<usize> for Zeros<'_> {
    ghost text = { λ m n i. zero_text m.0.now n i };

    fn put<D: Desk>(&self, at: &At<usize>, line: &mut Line, desk: &mut D, slot: OutSlot) -> Put {
        let start = Bytes(apart(b" and ", at.number));
        parts!(start, Condition(self.0, *at.item), Bytes(b" = '0'")).put(line, desk, slot)
    }
}

/// When a path counts.
#[derive(Drop)]
struct Gate<'a>(&'a VEntity, &'a HGate);

impl Part for Gate<'_> {
    ghost text = { λ m. gate_text m.0.now m.1.now };

    #[tactic(auto, unfolding(crate::specs::Outputs::not_zero_text, crate::specs::Outputs::all_zero_text))]
    fn put<D: Desk>(&self, line: &mut Line, desk: &mut D, slot: OutSlot) -> Put {
        let entity = self.0;
        match self.1 {
            HGate::Always => line.put(desk, slot, b"true"),
            HGate::NotZero(number) => {
                parts!(Condition(entity, *number), Bytes(b" /= '0'")).put(line, desk, slot)
            }
            HGate::AllZero(conditions) => Each(Zeros(entity), conditions.as_slice()).put(
                line, desk, slot,
            ),
        }
    }
}

impl ItemText<HPath> for InEntity<'_> {
    ghost text = { λ m n path. path_text m.0.now n path };

    fn put<D: Desk>(&self, at: &At<HPath>, line: &mut Line, desk: &mut D, slot: OutSlot) -> Put {
        let (entity, path) = (self.0, at.item);
        parts!(
            Bytes(apart(b", ", at.number)),
            Decimal(at.number.saturating_sub(1) as u128),
            Bytes(b" => ("),
            Bytes(port_at(entity, path.from)),
            Bytes(b"'last_event, ("),
            Decimal(path.rise as u128),
            Bytes(b" ps, "),
            Decimal(path.fall as u128),
            Bytes(b" ps), "),
            Gate(entity, &path.gate),
            Bytes(b")")
        )
        .put(line, desk, slot)
    }
}

impl ItemText<VOutput> for InEntity<'_> {
    ghost text = { λ m n output. output_line m.0.now n output };

    fn put<D: Desk>(&self, at: &At<VOutput>, line: &mut Line, desk: &mut D, slot: OutSlot) -> Put {
        let paths = at.item.paths.as_slice();
        Assignment {
            number: at.number,
            name: port_at(self.0, at.item.port),
            has_paths: paths.len() > 0,
            paths: Each(InEntity(self.0), paths),
        }
        .put(line, desk, slot)
    }
}
