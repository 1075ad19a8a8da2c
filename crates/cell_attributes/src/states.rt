//! The states of a cell and their names.
ghost use Rattle.std.specs.Prelude.{◌≡◌, ◌++◌, OnOk, IfOk, map, flat_map};
ghost use Rattle.std.specs.Option.{option_map};
ghost use Rattle.cell_attributes.specs.Groups.{names_in as names_in_of};
ghost use Rattle.cell_attributes.specs.States.{both_named as both_named_of, states_in as states_in_of, is_table as is_table_of};
ghost use Rattle.cell_attributes.specs.States.{arguments_of as arguments_of_group, node_named};
ghost use Rattle.cell_attributes.specs.Shown.{shown_state, shown_arguments};

use crate::groups::is_called;
use cell_machine::Both;
use liberty_groups::Group;
use std::alloc::{AllocError, Global};

/// A state: its name, and of an `ff` or `latch` the name of the second variable.
#[derive(Clone, Copy)]
pub struct StateName<'a> {
    pub first: &'a [u8],
    pub second: Option<&'a [u8]>,
}

/// The two arguments of a group.
#[derive(Clone, Copy)]
pub struct Arguments<'a> {
    pub first: &'a [u8],
    pub second: &'a [u8],
}

/// The two arguments of a group that has two.
pub fn arguments_of(group: &Group) -> Option<Arguments<'_>>
    ensures { option_map shown_arguments result ≡ arguments_of_group group.now }
{
    match group.arguments.as_slice() {
        [first, second] => Some(Arguments {
            first: first.bytes(),
            second: second.bytes(),
        }),
        _ => None,
    }
}

/// What a word of `clear_preset_var1` stands for.
pub fn both_named(text: &[u8]) -> Option<Both>
    ensures { result ≡ both_named_of text.now }
{
    match text {
        b"L" => Some(Both::Low),
        b"H" => Some(Both::High),
        b"N" => Some(Both::Keep),
        b"X" => Some(Both::Unknown),
        _ => None,
    }
}

/// Whether a group is a `statetable`.
pub fn is_table(group: &Group) -> bool
    ensures { result ≡ is_table_of group.now }
{
    is_called(group, b"statetable")
}

/// The names in a text, separated by spaces, in order.
pub fn names_in(alloc: Global, text: &[u8]) -> Result<Vec<&[u8]>, AllocError>
    ensures { IfOk result (λ names. map (λ name. name.now) names.items ≡ names_in_of text.now) }
{
    text.split(|byte| *byte == b' ')
        .filter(|name| !name.is_empty())
        .collect(alloc)
}

/// The states of the nodes that a text names, in order.
fn nodes_in(alloc: Global, text: &[u8]) -> Result<Vec<StateName<'_>>, AllocError>
    ensures { IfOk result (λ states. map shown_state states.items ≡ map node_named (names_in_of text.now)) }
{
    let names = names_in(alloc, text)?;
    let mut states = Vec::new(alloc);
    for name in &names {
        states.push(StateName {
            first: *name,
            second: None,
        })?;
    }
    Ok(states)
}

/// The states that a group holds, in order.
pub fn states_in(alloc: Global, group: &Group) -> Result<Vec<StateName<'_>>, AllocError>
    ensures { IfOk result (λ states. map shown_state states.items ≡ states_in_of group.now) }
{
    let mut states = Vec::new(alloc);
    let [first, second] = group.arguments.as_slice() else {
        return Ok(states);
    };
    if !is_table(group) {
        states.push(StateName {
            first: first.bytes(),
            second: Some(second.bytes()),
        })?;
        return Ok(states);
    }
    nodes_in(alloc, second.bytes())
}

/// The states of some groups, in order.
pub fn states_of<'a>(alloc: Global, groups: &[&'a Group]) -> Result<Vec<StateName<'a>>, AllocError>
    ensures { IfOk result (λ states. map shown_state states.items ≡ flat_map states_in_of (map (λ group. group.now) groups.now)) }
{
    let mut states = Vec::new(alloc);
    for group in groups {
        let mut more = states_in(alloc, group)?;
        states.append(&mut more)?;
    }
    Ok(states)
}
