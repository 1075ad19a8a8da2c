//! The texts of an `ff` or `latch` as functions.
ghost use Rattle.std.specs.Prelude.{◌≡◌, IfOk, length, unwrap_or};
ghost use Rattle.cell_attributes.specs.States.{first_both as first_both_of, second_both as second_both_of};
ghost use Rattle.cell_attributes.specs.Building.{function_in as function_in_of, function_of as function_of_text};
ghost use Rattle.cell_attributes.specs.Building.{clocked as clocked_of, gated as gated_of, kind_of_texts as kind_of_texts_of};
ghost use Rattle.cell_attributes.specs.Building.{FitsText, FitsReading};
ghost use Rattle.cell_machine.specs.declared.groups.Both.TheVariants as both;

use bool_functions::Function;
use cell_attributes::held::held_with;
use cell_attributes::state_readings::{StateReading, is_ff};
use cell_attributes::states::both_named;
use cell_attributes::texts::Text;
use cell_machine::{Both, Clocked, Gated, GroupKind, StateGroup};
use liberty_groups::{Group, last_attribute};
use sqlite_items::Items;
use std::alloc::{AllocError, Global};

/// What the first variable becomes where both `clear` and `preset` are 1.
fn first_both(group: &Group) -> Both
    ensures { result ≡ unwrap_or (first_both_of group.now) both.Unknown }
{
    match last_attribute(group, b"clear_preset_var1") {
        None => Both::Unknown,
        Some(attribute) => both_named(attribute.text).unwrap_or(Both::Unknown),
    }
}

/// What the second variable becomes where both `clear` and `preset` are 1.
fn second_both(group: &Group) -> Both
    ensures { result ≡ unwrap_or (second_both_of group.now) both.Unknown }
{
    match last_attribute(group, b"clear_preset_var2") {
        None => Both::Unknown,
        Some(attribute) => match both_named(attribute.text) {
            None | Some(Both::Keep) => Both::Unknown,
            Some(both) => both,
        },
    }
}

/// Two functions that may not be written.
type WrittenPair = (Option<Function>, Option<Function>);

/// Two functions, neither of which may be left out.
type NeededPair = (Function, Function);

/// What the texts of a cell are made functions with.
#[derive(Clone, Copy)]
pub(crate) struct Numbering<'a> {
    pub alloc: Global,
    /// For each name of the texts its number in the cell.
    pub to: &'a [usize],
}

impl Numbering<'_> {
    /// The function of a text.
    fn function_in(&self, text: &Text) -> Result<Option<Function>, AllocError>
        requires { FitsText (length self.now.to.now) text.now }
        ensures { IfOk result (λ f. f ≡ function_in_of self.now.to.now text.now) }
    {
        match text {
            Text::Reads { function, .. } => Ok(Some(function.renamed(self.alloc, self.to)?)),
            Text::Absent | Text::Malformed(_) | Text::Unknown(_) | Text::Coupled(_) => Ok(None),
        }
    }

    /// The same of a text that is there.
    pub(crate) fn function_of(&self, text: &Text) -> Result<Function, AllocError>
        requires { FitsText (length self.now.to.now) text.now }
        ensures { IfOk result (λ f. f ≡ function_of_text self.now.to.now text.now) }
    {
        match self.function_in(text)? {
            Some(function) => Ok(function),
            None => Ok(Function::of_name(0)),
        }
    }

    /// Two texts as functions that may not be written.
    fn written(&self, first: &Text, second: &Text) -> Result<WrittenPair, AllocError>
        requires first { FitsText (length self.now.to.now) first.now }
        requires second { FitsText (length self.now.to.now) second.now }
        ensures first { IfOk result (λ pair. pair.0 ≡ function_in_of self.now.to.now first.now) }
        ensures second { IfOk result (λ pair. pair.1 ≡ function_in_of self.now.to.now second.now) }
    {
        let first = self.function_in(first)?;
        held_with(first, self.function_in(second))
    }

    /// Two texts as functions.
    fn needed(&self, first: &Text, second: &Text) -> Result<NeededPair, AllocError>
        requires first { FitsText (length self.now.to.now) first.now }
        requires second { FitsText (length self.now.to.now) second.now }
        ensures first { IfOk result (λ pair. pair.0 ≡ function_of_text self.now.to.now first.now) }
        ensures second { IfOk result (λ pair. pair.1 ≡ function_of_text self.now.to.now second.now) }
    {
        let first = self.function_of(first)?;
        held_with(first, self.function_of(second))
    }

    /// The texts of a flip-flop as functions.
    fn clocked(&self, group: &Group, reading: &StateReading) -> Result<Clocked, AllocError>
        requires { FitsReading (length self.now.to.now) reading.now }
        ensures { IfOk result (λ k. k ≡ clocked_of self.now.to.now group.now reading.now) }
    {
        let driving = self.needed(&reading.data_text, &reading.control)?;
        let forcing = self.written(&reading.clear, &reading.preset);
        let ((next_state, clocked_on), (clear, preset)) = held_with(driving, forcing)?;
        Ok(Clocked {
            next_state,
            clocked_on,
            clear,
            preset,
            both1: first_both(group),
            both2: second_both(group),
        })
    }

    /// The texts of a latch as functions.
    fn gated(&self, group: &Group, reading: &StateReading) -> Result<Gated, AllocError>
        requires { FitsReading (length self.now.to.now) reading.now }
        ensures { IfOk result (λ k. k ≡ gated_of self.now.to.now group.now reading.now) }
    {
        let driving = self.written(&reading.data_text, &reading.control)?;
        let forcing = self.written(&reading.clear, &reading.preset);
        let ((data_in, enable), (clear, preset)) = held_with(driving, forcing)?;
        Ok(Gated {
            data_in,
            enable,
            clear,
            preset,
            both1: first_both(group),
            both2: second_both(group),
        })
    }

    /// The kind of an `ff` or `latch`.
    fn kind(&self, group: &Group, reading: &StateReading) -> Result<GroupKind, AllocError>
        requires { FitsReading (length self.now.to.now) reading.now }
        ensures { IfOk result (λ kind. kind ≡ kind_of_texts_of self.now.to.now group.now reading.now) }
    {
        if is_ff(group) {
            Ok(GroupKind::Ff(self.clocked(group, reading)?))
        } else {
            Ok(GroupKind::Latch(self.gated(group, reading)?))
        }
    }

    /// The state of an `ff` or `latch`.
    pub(crate) fn group(
        &self,
        group: &Group,
        reading: &StateReading,
    ) -> Result<StateGroup, AllocError>
        requires { FitsReading (length self.now.to.now) reading.now }
        ensures { IfOk result (λ g. g ≡ record {
          kind = kind_of_texts_of self.now.to.now group.now reading.now;
          support =
              reading.now.support;
        }) }
    {
        let support = Items::from_slice(self.alloc, reading.support.as_slice())?;
        let kind = self.kind(group, reading)?;
        Ok(StateGroup { kind, support })
    }
}
