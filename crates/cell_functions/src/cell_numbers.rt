//! The numbers of the names of a cell.
ghost use Rattle.std.specs.Prelude.{◌≡◌, ◌≤◌, IfOk, length, map};
ghost use Rattle.std.specs.Option.{option_map};
ghost use Rattle.cell_attributes.specs.Building.{is_second_name as is_second_name_of, number_in as number_in_of};
ghost use Rattle.cell_attributes.specs.Building.{number_as as number_as_of, cell_numbers as cell_numbers_of};
ghost use Rattle.cell_attributes.specs.Shown.{shown_state, shown_vocabulary};

use cell_attributes::states::StateName;
use cell_attributes::texts::class_at;
use cell_attributes::vocabulary::{Class, Vocabulary};
use std::alloc::{AllocError, Global};

/// Whether this is the name of a second variable.
fn is_second_name(name: &[u8], second: Option<&[u8]>) -> bool
    ensures { result ≡ is_second_name_of name.now (option_map (λ text. text.now) second.entry) }
{
    match second {
        None => false,
        Some(second) => second == name,
    }
}

/// The number of a variable or node in a cell with so many pins.
fn number_in(states: &[StateName<'_>], pins: usize, name: &[u8]) -> Option<usize>
    requires pins { pins ≤ 64 }
    requires states { length states.now ≤ 16 }
    ensures { result ≡ number_in_of (map shown_state states.now) pins name.now }
{
    for (place, state) in states.iter().enumerate() {
        if state.first == name {
            return Some(pins + 2 * place);
        }
        if is_second_name(name, state.second) {
            return Some(pins + 2 * place + 1);
        }
    }
    None
}

/// The number in a cell of the name with this number, class and target.
fn number_as(states: &[StateName<'_>], pins: usize, i: usize, class: Class, target: &[u8]) -> usize
    requires pins { pins ≤ 64 }
    requires states { length states.now ≤ 16 }
    ensures { result ≡ number_as_of (map shown_state states.now) pins i class target.now }
{
    match class {
        Class::Input | Class::Driven => i,
        Class::Alias | Class::Shared | Class::Node | Class::Variable => {
            number_in(states, pins, target).unwrap_or(i)
        }
    }
}

/// The numbers in a cell of all names.
pub fn cell_numbers(
    alloc: Global,
    states: &[StateName<'_>],
    pins: usize,
    vocabulary: &Vocabulary<'_>,
) -> Result<Vec<usize>, AllocError>
    requires pins { pins ≤ 64 }
    requires states { length states.now ≤ 16 }
    ensures { IfOk result (λ numbers. numbers.items ≡ cell_numbers_of (map shown_state states.now) pins
        (shown_vocabulary vocabulary.now)) }
{
    let mut numbers = Vec::new(alloc);
    for (i, target) in vocabulary.targets.iter().enumerate() {
        let class = class_at(&vocabulary.classes, i);
        numbers.push(number_as(states, pins, i, class, target))?;
    }
    Ok(numbers)
}
