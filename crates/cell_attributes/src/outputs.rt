//! The texts of the pins of a cell that it drives.
ghost use Rattle.std.specs.Prelude.{◌≡◌, IfOk, map};
ghost use Rattle.std.specs.Option.{option_map};
ghost use Rattle.liberty_groups.specs.Attributes.{shown};
ghost use Rattle.cell_attributes.specs.Outputs.{node_as as node_as_of, function_or as function_or_of};
ghost use Rattle.cell_attributes.specs.Outputs.{output_text as output_text_of, pin_text as pin_text_of};
ghost use Rattle.cell_attributes.specs.Shown.{shown_vocabulary};

use crate::pins::direction_of;
use crate::texts::{Scope, Text, node_text, text_as};
use crate::vocabulary::Vocabulary;
use cell_machine::Direction;
use liberty_groups::{Attribute, Group, last_attribute};
use sqlite_items::Items;
use std::alloc::{AllocError, Global};

/// The node that an internal pin names, if it names one.
fn node_as(vocabulary: &Vocabulary<'_>, attribute: Option<Attribute<'_>>) -> Text
    ensures { result ≡ node_as_of (shown_vocabulary vocabulary.now) (option_map shown attribute.entry) }
{
    match attribute {
        None => Text::Absent,
        Some(attribute) => node_text(vocabulary, attribute),
    }
}

/// The text of an output without `state_function`.
fn function_or(
    alloc: Global,
    vocabulary: &Vocabulary<'_>,
    node: Option<Attribute<'_>>,
    function: Option<Attribute<'_>>,
) -> Result<Text, AllocError>
    ensures { IfOk result (λ text. text ≡ function_or_of (shown_vocabulary vocabulary.now) (option_map shown node.entry)
        (option_map shown function.entry)) }
{
    match node {
        None => text_as(alloc, vocabulary, Scope::Function, function),
        Some(node) => Ok(node_text(vocabulary, node)),
    }
}

/// The text of an output: its `state_function` where it has one, else its `internal_node`, else its `function`.
fn output_text(
    alloc: Global,
    vocabulary: &Vocabulary<'_>,
    group: &Group,
) -> Result<Text, AllocError>
    ensures { IfOk result (λ text. text ≡ output_text_of (shown_vocabulary vocabulary.now) group.now) }
{
    let state = last_attribute(group, b"state_function");
    let node = last_attribute(group, b"internal_node");
    let function = last_attribute(group, b"function");
    if state.is_some() {
        text_as(alloc, vocabulary, Scope::StateFunction, state)
    } else {
        function_or(alloc, vocabulary, node, function)
    }
}

/// The text that the pins of a group have.
pub fn pin_text(
    alloc: Global,
    vocabulary: &Vocabulary<'_>,
    group: &Group,
) -> Result<Text, AllocError>
    ensures { IfOk result (λ text. text ≡ pin_text_of (shown_vocabulary vocabulary.now) group.now) }
{
    match direction_of(group) {
        None => Ok(Text::Absent),
        Some(Direction::Input) => Ok(Text::Absent),
        Some(Direction::Output) => output_text(alloc, vocabulary, group),
        Some(Direction::Internal) => {
            Ok(node_as(vocabulary, last_attribute(group, b"internal_node")))
        }
    }
}

/// The texts that the pins of each group have.
pub fn pin_texts(
    alloc: Global,
    vocabulary: &Vocabulary<'_>,
    pins: &[&Group],
) -> Result<Items<Text>, AllocError>
    ensures { IfOk result (λ texts. texts ≡ map (pin_text_of (shown_vocabulary vocabulary.now))
        (map (λ group. group.now) pins.now)) }
{
    let mut texts = Items::new(alloc);
    for pin in pins {
        texts.push(pin_text(alloc, vocabulary, pin)?)?;
    }
    Ok(texts)
}
