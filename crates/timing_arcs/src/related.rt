//! The pins that a timing group is related to.
ghost use Rattle.std.specs.Prelude.{◌≡◌, ◌++◌, ◌==◌, ◌||◌, not, length, map, IfOk, OnOk};
ghost use Rattle.std.specs.List.{list_any, filter_map};
ghost use Rattle.timing_arcs.specs.RelatedPins.{related_as, is_driven, is_unknown, input_of, is_space};
ghost use Rattle.timing_arcs.specs.GroupTexts.{named_related, related_text};
ghost use Rattle.liberty_groups.specs.Attributes.{words_between, attribute_of, place_of};
ghost use Rattle.cell_machine.specs.Delay.{least};

use crate::subject::Subject;
use crate::timing_type::is_input_pin;
use crate::words::pin_names;
use liberty_groups::{Group, last_attribute};
use sqlite_items::Items;
use std::alloc::{AllocError, Global};

/// What a name in `related_pin` is in the cell.
#[derive(Clone, Copy)]
enum Related {
    /// The input pin with this number.
    Input(usize),
    /// An output or internal pin.
    Driven,
    /// No pin.
    Unknown,
}

impl Related {
    /// Whether it is an output or an internal pin.
    fn is_driven(self) -> bool
        ensures { result ≡ is_driven self }
    {
        match self {
            Related::Driven => true,
            Related::Input(_) | Related::Unknown => false,
        }
    }

    /// Whether it names no pin.
    fn is_unknown(self) -> bool
        ensures { result ≡ is_unknown self }
    {
        match self {
            Related::Unknown => true,
            Related::Input(_) | Related::Driven => false,
        }
    }

    /// The number of the input pin, if it is one.
    fn input(self) -> Option<usize>
        ensures { result ≡ input_of self }
    {
        match self {
            Related::Input(pin) => Some(pin),
            Related::Driven | Related::Unknown => None,
        }
    }
}

/// What a name is in the cell.
fn related_as(subject: &Subject, name: &[u8]) -> Related
    ensures { result ≡ related_as subject.now name.now }
{
    match subject.names.number(name) {
        Some(pin) if is_input_pin(subject.pins.as_slice(), pin) => Related::Input(pin),
        Some(_) => Related::Driven,
        None => Related::Unknown,
    }
}

/// What these names are, in order.
fn all_related(
    alloc: Global,
    subject: &Subject,
    names: &[&[u8]],
) -> Result<Vec<Related>, AllocError>
    ensures { IfOk result (λ related. related.items ≡ map (λ name. related_as subject.now name.now) names.now) }
{
    names
        .iter()
        .map(|name| related_as(subject, name))
        .collect(alloc)
}

/// What the names in a text are, in order.
fn related_in(alloc: Global, subject: &Subject, text: &[u8]) -> Result<Vec<Related>, AllocError>
    ensures { IfOk result (λ related. related.items ≡ map (related_as subject.now) (words_between is_space text.now)) }
{
    let names = pin_names(alloc, text)?;
    let related = all_related(alloc, subject, &names)?;
    Ok(related)
}

/// What the names in the `related_pin` of a timing group are, in order.
fn related_of(alloc: Global, subject: &Subject, group: &Group) -> Result<Items<Related>, AllocError>
    ensures { IfOk result (λ related. related ≡ named_related subject.now group.now) }
{
    match last_attribute(group, b"related_pin") {
        Some(attribute) => Ok(Items::from_vec(related_in(alloc, subject, attribute.text)?)),
        None => Ok(Items::new(alloc)),
    }
}

/// Whether one is a pin that the cell drives.
fn has_driven(related: &[Related]) -> bool
    ensures { result ≡ list_any is_driven related.now }
{
    related.iter().any(|related| related.is_driven())
}

/// Whether one is no pin that the cell drives.
fn has_undriven(related: &[Related]) -> bool
    ensures { result ≡ list_any (λ related. not (is_driven related)) related.now }
{
    related.iter().any(|related| !related.is_driven())
}

/// Whether one is no pin.
fn has_unknown(related: &[Related]) -> bool
    ensures { result ≡ list_any is_unknown related.now }
{
    related.iter().any(|related| related.is_unknown())
}

/// The input pins among them, in order.
fn inputs(alloc: Global, related: &[Related]) -> Result<Items<usize>, AllocError>
    ensures { IfOk result (λ inputs. inputs ≡ filter_map input_of related.now) }
{
    let mut inputs = Items::new(alloc);
    for pin in related {
        if let Some(number) = pin.input() {
            inputs.push(number)?;
        }
    }
    Ok(inputs)
}

/// What the `related_pin` of a timing group says.
#[derive(Drop)]
pub(crate) struct RelatedText {
    /// The offset of the statement.
    pub(crate) at: Option<usize>,
    /// The input pins among its names, in order.
    pub(crate) inputs: Items<usize>,
    /// Whether it has no name.
    pub(crate) is_empty: bool,
    /// Whether one of its names is a pin that the cell drives.
    pub(crate) has_driven: bool,
    /// Whether one of its names is no pin that the cell drives.
    pub(crate) has_undriven: bool,
    /// Whether one of its names is no pin.
    pub(crate) has_unknown: bool,
}

/// The offset of the statement of this simple attribute that counts.
fn statement_at(group: &Group, name: &[u8]) -> Option<usize>
    ensures { result ≡ least (place_of (attribute_of group.now name.now)) }
{
    match last_attribute(group, name) {
        Some(attribute) => Some(attribute.at),
        None => None,
    }
}

impl RelatedText {
    /// What that of a timing group says.
    pub(crate) fn of_group(
        alloc: Global,
        subject: &Subject,
        group: &Group,
    ) -> Result<RelatedText, AllocError>
        ensures { IfOk result (λ text. text ≡ related_text subject.now group.now) }
    {
        let related = related_of(alloc, subject, group)?;
        let names = related.as_slice();
        Ok(RelatedText {
            at: statement_at(group, b"related_pin"),
            is_empty: names.is_empty(),
            has_driven: has_driven(names),
            has_undriven: has_undriven(names),
            has_unknown: has_unknown(names),
            inputs: inputs(alloc, names)?,
        })
    }
}
