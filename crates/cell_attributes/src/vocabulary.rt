//! The names that the function texts of a cell may name, and what each is.
ghost use Rattle.std.specs.Prelude.{◌≡◌, ◌++◌, [], OnOk, IfOk, map, flat_map};
ghost use Rattle.std.specs.Option.{option_map};
ghost use Rattle.cell_attributes.specs.Vocabulary.{is_node as is_node_of, internal_class as internal_class_of, class_as};
ghost use Rattle.cell_attributes.specs.Vocabulary.{is_bound as is_bound_of, target_as as target_as_of, pin_entries};
ghost use Rattle.cell_attributes.specs.Vocabulary.{state_entries, entries_of as entries_of_cell, firsts_after, entry_names};
ghost use Rattle.cell_attributes.specs.Vocabulary.{entry_classes, entry_targets, vocabulary_of as vocabulary_of_cell};
ghost use Rattle.liberty_groups.specs.Attributes.{shown};
ghost use Rattle.cell_attributes.specs.Pins.{direction_of as direction_of_group};
ghost use Rattle.cell_attributes.specs.Shown.{shown_state, shown_entry};

use crate::pins::direction_of;
use crate::states::StateName;
use bool_functions::Names;
use cell_machine::Direction;
use liberty_groups::{Attribute, Group, last_attribute};
use std::alloc::{AllocError, Global};

/// What a name is, to the function texts of its cell.
#[derive(Clone, Copy)]
pub enum Class {
    /// An input pin.
    Input,
    /// An output pin, or an internal pin that names no node.
    Driven,
    /// An internal pin that names a node of another name.
    Alias,
    /// An internal pin with the name of the node that it names.
    Shared,
    /// A node of a `statetable`.
    Node,
    /// A variable of an `ff` or `latch`.
    Variable,
}

/// A name, and what it is.
#[derive(Clone, Copy)]
pub struct Entry<'a> {
    pub name: &'a [u8],
    pub class: Class,
    /// The name of what it stands for: of an internal pin its node, else itself.
    pub target: &'a [u8],
}

/// The names that the function texts of a cell may name, and what each is.
#[derive(Drop)]
pub struct Vocabulary<'a> {
    pub names: Names,
    /// What the name of each number is.
    pub classes: Vec<Class>,
    /// The name of what the name of each number stands for.
    pub targets: Vec<&'a [u8]>,
}

/// Whether this is the name of a node.
fn is_node(states: &[StateName<'_>], name: &[u8]) -> bool
    ensures { result ≡ is_node_of (map shown_state states.now) name.now }
{
    for state in states {
        if state.second.is_none() && state.first == name {
            return true;
        }
    }
    false
}

/// What an internal pin of this name is, by its `internal_node`.
fn internal_class(states: &[StateName<'_>], name: &[u8], attribute: Option<Attribute<'_>>) -> Class
    ensures { result ≡ internal_class_of (map shown_state states.now) name.now (option_map shown attribute.entry) }
{
    let Some(attribute) = attribute else {
        return Class::Driven;
    };
    if !is_node(states, attribute.text) {
        Class::Driven
    } else if attribute.text == name {
        Class::Shared
    } else {
        Class::Alias
    }
}

/// What a pin of a group is.
fn pin_class(states: &[StateName<'_>], group: &Group, name: &[u8]) -> Class
    ensures { result ≡ class_as (map shown_state states.now) group.now name.now (direction_of_group group.now) }
{
    match direction_of(group) {
        None | Some(Direction::Input) => Class::Input,
        Some(Direction::Output) => Class::Driven,
        Some(Direction::Internal) => {
            internal_class(states, name, last_attribute(group, b"internal_node"))
        }
    }
}

/// Whether a name of this class stands for a node.
fn is_bound(class: Class) -> bool
    ensures { result ≡ is_bound_of class }
{
    match class {
        Class::Alias | Class::Shared => true,
        Class::Input | Class::Driven | Class::Node | Class::Variable => false,
    }
}

/// The name of what a pin of this name and class stands for.
fn target_as<'a>(group: &'a Group, name: &'a [u8], class: Class) -> &'a [u8]
    ensures { result.now ≡ target_as_of group.now name.now class }
{
    if !is_bound(class) {
        return name;
    }
    match last_attribute(group, b"internal_node") {
        None => name,
        Some(attribute) => attribute.text,
    }
}

/// Adds the pins of a group.
fn add_pins<'a>(
    entries: &mut Vec<Entry<'a>>,
    states: &[StateName<'_>],
    group: &'a Group,
) -> Result<(), AllocError>
    ensures { OnOk result (map shown_entry entries.new.items ≡ map shown_entry entries.old.items
        ++ pin_entries (map shown_state states.now) group.now) }
{
    for value in group.arguments.as_slice() {
        let name = value.bytes();
        let class = pin_class(states, group, name);
        let target = target_as(group, name, class);
        entries.push(Entry {
            name,
            class,
            target,
        })?;
    }
    Ok(())
}

/// Adds the variables of a state, or its node.
fn add_state<'a>(entries: &mut Vec<Entry<'a>>, state: StateName<'a>) -> Result<(), AllocError>
    ensures { OnOk result (map shown_entry entries.new.items ≡ map shown_entry entries.old.items
        ++ state_entries (shown_state state.entry)) }
{
    let name = state.first;
    match state.second {
        None => {
            let class = Class::Node;
            entries.push(Entry {
                name,
                class,
                target: name,
            })?;
        }
        Some(second) => {
            let class = Class::Variable;
            entries.push(Entry {
                name,
                class,
                target: name,
            })?;
            entries.push(Entry {
                name: second,
                class,
                target: second,
            })?;
        }
    }
    Ok(())
}

/// The pins of all groups, in order.
fn all_pins<'a>(
    alloc: Global,
    states: &[StateName<'_>],
    pins: &[&'a Group],
) -> Result<Vec<Entry<'a>>, AllocError>
    ensures { IfOk result (λ entries. map shown_entry entries.items ≡ flat_map (pin_entries (map shown_state states.now))
        (map (λ group. group.now) pins.now)) }
{
    let mut entries = Vec::new(alloc);
    for pin in pins {
        add_pins(&mut entries, states, pin)?;
    }
    Ok(entries)
}

/// The pins in order, then the variables and nodes in order.
fn entries_of<'a>(
    alloc: Global,
    states: &[StateName<'a>],
    pins: &[&'a Group],
) -> Result<Vec<Entry<'a>>, AllocError>
    ensures { IfOk result (λ entries. map shown_entry entries.items ≡ entries_of_cell (map shown_state states.now)
        (map (λ group. group.now) pins.now)) }
{
    let mut entries = all_pins(alloc, states, pins)?;
    for state in states {
        add_state(&mut entries, *state)?;
    }
    Ok(entries)
}

/// Adds the entries whose names are not there yet, in order.
fn add_entries<'a>(vocabulary: &mut Vocabulary<'a>, entries: &[Entry<'a>]) -> Result<(), AllocError>
    ensures names { OnOk result (vocabulary.new.names ≡ vocabulary.old.names
        ++ entry_names (firsts_after vocabulary.old.names (map shown_entry entries.now))) }
    ensures classes { OnOk result (vocabulary.new.classes.items ≡ vocabulary.old.classes.items
        ++ entry_classes (firsts_after vocabulary.old.names (map shown_entry entries.now))) }
    ensures targets { OnOk result (map (λ name. name.now) vocabulary.new.targets.items ≡ map
        (λ name. name.now) vocabulary.old.targets.items
        ++ entry_targets (firsts_after vocabulary.old.names (map shown_entry entries.now))) }
{
    for entry in entries {
        if vocabulary.names.add(entry.name)?.is_some() {
            vocabulary.classes.push(entry.class)?;
            vocabulary.targets.push(entry.target)?;
        }
    }
    Ok(())
}

/// The names of some entries, each with what it is. Of entries of one name the first counts.
fn vocabulary_of<'a>(alloc: Global, entries: &[Entry<'a>]) -> Result<Vocabulary<'a>, AllocError>
    ensures names { IfOk result (λ v. v.names ≡ entry_names (firsts_after [] (map shown_entry entries.now))) }
    ensures classes { IfOk result (λ v. v.classes.items ≡ entry_classes (firsts_after [] (map shown_entry entries.now))) }
    ensures targets { IfOk result (λ v. map (λ name. name.now) v.targets.items ≡ entry_targets
        (firsts_after [] (map shown_entry entries.now))) }
{
    let mut vocabulary = Vocabulary {
        names: Names::new(alloc),
        classes: Vec::new(alloc),
        targets: Vec::new(alloc),
    };
    add_entries(&mut vocabulary, entries)?;
    Ok(vocabulary)
}

/// The names that texts may name, each with what it is. Of entries of one name the first counts.
pub fn read_vocabulary<'a>(
    alloc: Global,
    states: &[StateName<'a>],
    pins: &[&'a Group],
) -> Result<Vocabulary<'a>, AllocError>
    ensures names { IfOk result (λ v. v.names ≡ entry_names
        (vocabulary_of_cell (map shown_state states.now) (map (λ group. group.now) pins.now))) }
    ensures classes { IfOk result (λ v. v.classes.items ≡ entry_classes
        (vocabulary_of_cell (map shown_state states.now) (map (λ group. group.now) pins.now))) }
    ensures targets { IfOk result (λ v. map (λ name. name.now) v.targets.items ≡ entry_targets
        (vocabulary_of_cell (map shown_state states.now) (map (λ group. group.now) pins.now))) }
{
    let entries = entries_of(alloc, states, pins)?;
    vocabulary_of(alloc, &entries)
}
