//! The names of an entity's parts by their numbers, and lists of them in calls.
ghost use Rattle.std.specs.Prelude.{◌≡◌};
ghost use Rattle.vhdl_writer.specs.Joined.{apart_text};
ghost use Rattle.vhdl_writer.specs.Names.{port_at, inputs_at, list_start, violated_start, listed_text, input_text};
ghost use Rattle.vhdl_writer.specs.Names.{next_input_text, columns_text, source_text, look_up_text, condition_text};

use crate::parts::{At, Each, InEntity, ItemText};
use cell_machine::Source;
use text_io::{Bytes, Decimal, Desk, Line, OutSlot, Part, Put, parts};
use vital_models::{VEntity, VState};

/// The name of a port, none where there is no such port.
pub(crate) fn port_at(entity: &VEntity, port: usize) -> &[u8]
    ensures { result.now ≡ port_at entity.now port }
{
    match entity.ports.get(port) {
        Some(port) => port.name.as_slice(),
        None => b"",
    }
}

/// The inputs of a condition, none where there is no such condition.
fn inputs_at(entity: &VEntity, condition: usize) -> &[usize]
    ensures { result.now ≡ inputs_at entity.now condition }
{
    match entity.conditions.get(condition) {
        Some(condition) => condition.inputs.as_slice(),
        None => &[],
    }
}

/// What stands before the item with this number, from 1: nothing before the first one, and else what separates items.
pub fn apart(separator: &[u8], number: usize) -> &[u8]
    ensures { result.now ≡ apart_text separator.now number }
{
    if number == 1 { b"" } else { separator }
}

/// What a list of so many names begins with.
fn list_start(count: usize) -> &'static [u8]
    ensures { result.now ≡ list_start count }
{
    if count == 1 { b"(0 => " } else { b"(" }
}

/// What a list of the violation and so many inputs begins with.
fn violated_start(count: usize) -> &'static [u8]
    ensures { result.now ≡ violated_start count }
{
    if count == 0 { b"(0 => viol" } else { b"(viol" }
}

impl ItemText<usize> for InEntity<'_> {
    ghost text = { λ m n p. input_text m.0.now n p };

    #[tactic(auto, unfolding(crate::specs::Names::input_text))]
    fn put<D: Desk>(&self, at: &At<usize>, line: &mut Line, desk: &mut D, slot: OutSlot) -> Put {
        let name = Bytes(port_at(self.0, *at.item));
        parts!(Bytes(apart(b", ", at.number)), name).put(line, desk, slot)
    }
}

impl ItemText<Source> for InEntity<'_> {
    ghost text = { λ m n s. source_text m.0.now n s };

    #[tactic(auto, unfolding(crate::specs::Names::source_text, crate::specs::Names::source_name))]
    fn put<D: Desk>(&self, at: &At<Source>, line: &mut Line, desk: &mut D, slot: OutSlot) -> Put {
        let start = Bytes(apart(b", ", at.number));
        match *at.item {
            Source::Pin(port) => (start, Bytes(port_at(self.0, port))).put(line, desk, slot),
            Source::State(state) => {
                parts!(start, Bytes(b"s_"), Decimal(state as u128 + 1)).put(line, desk, slot)
            }
        }
    }
}

/// A list of names: of one alone its index stands before it.
#[derive(Drop)]
pub(crate) struct Listed<'a, M, T>(pub(crate) Each<'a, M, T>);

impl<M: ItemText<T>, T> Part for Listed<'_, M, T> {
    ghost text = { λ l. listed_text (M.text l.0.0) l.0.1.now };

    fn put<D: Desk>(&self, line: &mut Line, desk: &mut D, slot: OutSlot) -> Put {
        let start = Bytes(list_start(self.0.1.len()));
        parts!(start, &self.0, Bytes(b")")).put(line, desk, slot)
    }
}

/// A look-up: what it begins with, up to the number of its table, that number, and what it looks up. (IEEE 1076.4-2000,
/// VitalTruthTable.)
#[derive(Drop)]
pub(crate) struct LookUp<'a, M, T> {
    pub(crate) start: &'static [u8],
    pub(crate) number: u128,
    pub(crate) listed: Listed<'a, M, T>,
}

impl<M: ItemText<T>, T> Part for LookUp<'_, M, T> {
    ghost text = { λ l. look_up_text l.start.now l.number (listed_text (M.text l.listed.0.0) l.listed.0.1.now) };

    fn put<D: Desk>(&self, line: &mut Line, desk: &mut D, slot: OutSlot) -> Put {
        parts!(
            Bytes(self.start),
            Decimal(self.number),
            Bytes(b", DataIn => "),
            &self.listed,
            Bytes(b")")
        )
        .put(line, desk, slot)
    }
}

/// Inputs of an entity behind another name.
#[derive(Drop)]
struct NextInput<'a>(&'a VEntity);

impl ItemText<usize> for NextInput<'_> {
    ghost text = { λ m n p. next_input_text m.0.now n p };

    #[tactic(auto, unfolding(crate::specs::Names::next_input_text))]
    fn put<D: Desk>(&self, at: &At<usize>, line: &mut Line, desk: &mut D, slot: OutSlot) -> Put {
        parts!(Bytes(b", "), Bytes(port_at(self.0, *at.item))).put(line, desk, slot)
    }
}

/// The columns of the table of a state.
#[derive(Drop)]
pub(crate) struct StateColumns<'a>(pub(crate) &'a VEntity, pub(crate) &'a VState);

impl Part for StateColumns<'_> {
    ghost text = { λ m. columns_text m.0.now m.1.now };

    #[tactic(auto, unfolding(crate::specs::Names::violated_text, crate::specs::Names::inputs_text))]
    fn put<D: Desk>(&self, line: &mut Line, desk: &mut D, slot: OutSlot) -> Put {
        let inputs = self.1.inputs.as_slice();
        if self.1.violation {
            let names = Each(NextInput(self.0), inputs);
            parts!(Bytes(violated_start(inputs.len())), names, Bytes(b")")).put(line, desk, slot)
        } else {
            Listed(Each(InEntity(self.0), inputs)).put(line, desk, slot)
        }
    }
}

/// The look-up of a condition.
#[derive(Drop)]
pub(crate) struct Condition<'a>(pub(crate) &'a VEntity, pub(crate) usize);

impl Part for Condition<'_> {
    ghost text = { λ m. condition_text m.0.now m.1 };

    #[tactic(auto, unfolding(crate::specs::Names::condition_text, crate::specs::Names::inputs_text))]
    fn put<D: Desk>(&self, line: &mut Line, desk: &mut D, slot: OutSlot) -> Put {
        LookUp {
            start: b"VitalTruthTable (TruthTable => c_",
            number: self.1 as u128 + 1,
            listed: Listed(Each(InEntity(self.0), inputs_at(self.0, self.1))),
        }
        .put(line, desk, slot)
    }
}
