//! The outputs of a cell.
ghost use Rattle.std.specs.Prelude.{◌≡◌, [], ◌∷◌, ◌++◌, OnOk, IfOk, length, map, flat_map, nat_lt, if◌then◌else◌};
ghost use Rattle.cell_machine.specs.Delay.{least};
ghost use Rattle.cell_attributes.specs.Building.{FitsText, output_pin as output_pin_of, output_in as output_in_of, outputs_from};
ghost use Rattle.cell_attributes.specs.Limits.{wide_text as wide_text_of, wide_function as wide_function_of};
ghost use Rattle.cell_attributes.specs.Limits.{wide_output as wide_output_of};
ghost use Rattle.cell_attributes.specs.Outputs.{pin_text as pin_text_of};
ghost use Rattle.cell_attributes.specs.Shown.{shown_vocabulary};
ghost use Rattle.cell_functions.specs.Within.{IsWithin};

use crate::sources::sources_of;
use crate::text_kinds::Numbering;
use cell_attributes::held::held_with;
use cell_attributes::limits::MOST_OUTPUT_SOURCES;
use cell_attributes::outputs::pin_text;
use cell_attributes::pins::direction_of;
use cell_attributes::texts::Text;
use cell_attributes::vocabulary::Vocabulary;
use cell_machine::least::lesser;
use cell_machine::{Direction, OutputPin, StateGroup};
use liberty_groups::Group;
use sqlite_items::Items;
use std::alloc::{AllocError, Global};

/// What the outputs of a cell are read with.
#[derive(Clone, Copy)]
pub struct OutputReader<'a, 'b> {
    /// Where memory comes from.
    pub alloc: Global,
    /// The names that the texts of the cell may name.
    pub vocabulary: &'a Vocabulary<'b>,
    /// The states of the cell.
    pub groups: &'a [StateGroup],
    /// For each of the names its number in the cell.
    pub to: &'a [usize],
    /// How many pins the cell has.
    pub pins: usize,
}

/// This offset, where an output has more than 10 names in its support.
fn wide_output_at(output: &OutputPin, at: usize) -> Option<usize>
    ensures { result ≡ least (if nat_lt 10 (length output.now.support) then at ∷ [] else []) }
{
    if MOST_OUTPUT_SOURCES < output.support.len() {
        Some(at)
    } else {
        None
    }
}

impl OutputReader<'_, '_> {
    /// An output pin with the function of its text.
    fn pin(&self, pin: usize, text: &Text) -> Result<OutputPin, AllocError>
        requires within { IsWithin self.now }
        requires fits { FitsText (length self.now.to.now) text.now }
        ensures { IfOk result (λ output. output ≡ output_pin_of self.now.pins self.now.groups.now self.now.to.now pin text.now) }
    {
        let (alloc, to) = (self.alloc, self.to);
        let function = Numbering { alloc, to }.function_of(text)?;
        let support = sources_of(alloc, self.pins, self.groups, &function);
        let (function, support) = held_with(function, support)?;
        Ok(OutputPin {
            pin,
            function,
            support,
        })
    }

    /// An output pin with the function that its group tells.
    fn output(&self, pin: usize, owner: &Group) -> Result<OutputPin, AllocError>
        requires { IsWithin self.now }
        ensures { IfOk result (λ output. output ≡ output_pin_of self.now.pins self.now.groups.now self.now.to.now pin
            (pin_text_of (shown_vocabulary self.now.vocabulary.now) owner.now)) }
    {
        let text = pin_text(self.alloc, self.vocabulary, owner)?;
        self.pin(pin, &text)
    }

    /// Adds a pin, where its group makes outputs.
    fn add(
        &self,
        outputs: &mut Items<OutputPin>,
        pin: usize,
        owner: &Group,
    ) -> Result<(), AllocError>
        requires { IsWithin self.now }
        ensures { OnOk result (outputs.new ≡ outputs.old
            ++ output_in_of (shown_vocabulary self.now.vocabulary.now) self.now.pins self.now.groups.now self.now.to.now pin
            owner.now) }
    {
        if direction_of(owner) != Some(Direction::Output) {
            return Ok(());
        }
        outputs.push(self.output(pin, owner)?)
    }

    /// The outputs, from the groups of the pins.
    pub fn all(&self, owners: &[&Group]) -> Result<Items<OutputPin>, AllocError>
        requires { IsWithin self.now }
        ensures { IfOk result (λ outputs. outputs ≡ outputs_from (shown_vocabulary self.now.vocabulary.now) self.now.pins
            self.now.groups.now self.now.to.now 0 (map (λ group. group.now) owners.now)) }
    {
        let mut outputs = Items::new(self.alloc);
        for (pin, owner) in owners.iter().enumerate() {
            self.add(&mut outputs, pin, owner)?;
        }
        Ok(outputs)
    }

    /// Where the function of a text has more than 10 names in its support.
    fn wide_function(&self, text: &Text, at: usize) -> Result<Option<usize>, AllocError>
        requires within { IsWithin self.now }
        requires fits { FitsText (length self.now.to.now) text.now }
        ensures { IfOk result (λ wide. wide ≡ least
            (wide_function_of self.now.pins self.now.groups.now self.now.to.now text.now at)) }
    {
        let output = self.pin(0, text)?;
        Ok(wide_output_at(&output, at))
    }

    /// Where the text of an output has more than 10 names in its support.
    fn wide_text(&self, text: &Text) -> Result<Option<usize>, AllocError>
        requires within { IsWithin self.now }
        requires fits { FitsText (length self.now.to.now) text.now }
        ensures { IfOk result (λ wide. wide ≡ least (wide_text_of self.now.pins self.now.groups.now self.now.to.now text.now)) }
    {
        match text {
            Text::Reads { at, .. } => self.wide_function(text, *at),
            Text::Absent | Text::Malformed(_) | Text::Unknown(_) | Text::Coupled(_) => Ok(None),
        }
    }

    /// Where the text of the pins of a group has more than 10 names in its support.
    fn wide_pin_text(&self, owner: &Group) -> Result<Option<usize>, AllocError>
        requires { IsWithin self.now }
        ensures { IfOk result (λ wide. wide ≡ least
            (wide_text_of self.now.pins self.now.groups.now self.now.to.now
            (pin_text_of (shown_vocabulary self.now.vocabulary.now) owner.now))) }
    {
        let text = pin_text(self.alloc, self.vocabulary, owner)?;
        self.wide_text(&text)
    }

    /// Where the outputs of a group have more than 10 names in their support.
    #[tactic(auto, unfolding(cell_attributes::specs::Limits::wide_output))]
    fn wide_output(&self, owner: &Group) -> Result<Option<usize>, AllocError>
        requires { IsWithin self.now }
        ensures { IfOk result (λ wide. wide ≡ least
            (wide_output_of (shown_vocabulary self.now.vocabulary.now) self.now.pins self.now.groups.now self.now.to.now
            owner.now)) }
    {
        if direction_of(owner) != Some(Direction::Output) {
            return Ok(None);
        }
        self.wide_pin_text(owner)
    }

    /// Where an output has more than 10 names in its support.
    pub fn wide_outputs(&self, owners: &[&Group]) -> Result<Option<usize>, AllocError>
        requires { IsWithin self.now }
        ensures { IfOk result (λ wide. wide ≡ least
            (flat_map (wide_output_of (shown_vocabulary self.now.vocabulary.now) self.now.pins self.now.groups.now
            self.now.to.now) (map (λ group. group.now) owners.now))) }
    {
        let mut found = None;
        for owner in owners {
            let wide = self.wide_output(owner)?;
            found = lesser(found, wide);
        }
        Ok(found)
    }
}
