//! The texts of an `ff` or `latch`.
ghost use Rattle.std.specs.Prelude.{◌≡◌, IfOk, codes};
ghost use Rattle.std.specs.Option.{option_map};
ghost use Rattle.liberty_groups.specs.Attributes.{attribute_of};
ghost use Rattle.cell_attributes.specs.declared.texts.Scope.TheVariants as scope_of;
ghost use Rattle.cell_attributes.specs.States.{arguments_of as arguments_of_group};
ghost use Rattle.cell_attributes.specs.StateReadings.{own_scope as own_scope_of};
ghost use Rattle.cell_attributes.specs.Texts.{text_as as text_as_of};
ghost use Rattle.cell_attributes.specs.Shown.{shown_vocabulary, shown_arguments};

use crate::held::both_made;
use crate::states::{Arguments, arguments_of};
use crate::texts::{Scope, Text, text_as};
use crate::vocabulary::Vocabulary;
use liberty_groups::{Group, last_attribute};
use std::alloc::{AllocError, Global};

/// What the texts of a group may name that may name its own variables.
fn own_scope(vocabulary: &Vocabulary<'_>, arguments: Option<Arguments<'_>>) -> Scope
    ensures { result ≡ own_scope_of (shown_vocabulary vocabulary.now) (option_map shown_arguments arguments.entry) }
{
    match arguments {
        None => Scope::Data {
            first: None,
            second: None,
        },
        Some(arguments) => Scope::Data {
            first: vocabulary.names.number(arguments.first),
            second: vocabulary.names.number(arguments.second),
        },
    }
}

/// The text of the attribute of this name, which may name what this scope allows.
fn named_text(
    alloc: Global,
    vocabulary: &Vocabulary<'_>,
    scope: Scope,
    group: &Group,
    name: &[u8],
) -> Result<Text, AllocError>
    ensures { IfOk result (λ text. text ≡ text_as_of (shown_vocabulary vocabulary.now) scope (attribute_of group.now name.now)) }
{
    text_as(alloc, vocabulary, scope, last_attribute(group, name))
}

/// The names of the attributes that drive the state of a group.
#[derive(Clone, Copy)]
pub(crate) struct DrivingNames {
    /// The one that gives the data: `next_state` or `data_in`.
    pub(crate) data: &'static [u8],
    /// The one that gives the clock or the enable: `clocked_on` or `enable`.
    pub(crate) control: &'static [u8],
}

/// The texts of the four attributes of an `ff` or `latch` that have a function text.
#[derive(Drop)]
pub(crate) struct GroupTexts {
    /// `next_state` or `data_in`.
    pub(crate) data_text: Text,
    /// `clocked_on` or `enable`.
    pub(crate) control: Text,
    pub(crate) clear: Text,
    pub(crate) preset: Text,
}

/// The texts of a group, where the attributes of these names drive its state.
pub(crate) fn group_texts(
    alloc: Global,
    vocabulary: &Vocabulary<'_>,
    group: &Group,
    names: DrivingNames,
) -> Result<GroupTexts, AllocError>
    ensures data_text { IfOk result (λ texts. texts.data_text ≡ text_as_of (shown_vocabulary vocabulary.now)
        (own_scope_of (shown_vocabulary vocabulary.now) (arguments_of_group group.now)) (attribute_of group.now names.data.now)) }
    ensures control { IfOk result (λ texts. texts.control ≡ text_as_of (shown_vocabulary vocabulary.now) scope_of.Control
        (attribute_of group.now names.control.now)) }
    ensures clear { IfOk result (λ texts. texts.clear ≡ text_as_of (shown_vocabulary vocabulary.now) scope_of.Control
        (attribute_of group.now (codes "clear"))) }
    ensures preset { IfOk result (λ texts. texts.preset ≡ text_as_of (shown_vocabulary vocabulary.now) scope_of.Control
        (attribute_of group.now (codes "preset"))) }
{
    let own = own_scope(vocabulary, arguments_of(group));
    let data_text = named_text(alloc, vocabulary, own, group, names.data);
    let control = named_text(alloc, vocabulary, Scope::Control, group, names.control);
    let clear = named_text(alloc, vocabulary, Scope::Control, group, b"clear");
    let preset = named_text(alloc, vocabulary, Scope::Control, group, b"preset");
    let driving = both_made(data_text, control);
    let forcing = both_made(clear, preset);
    let ((data_text, control), (clear, preset)) = both_made(driving, forcing)?;
    Ok(GroupTexts {
        data_text,
        control,
        clear,
        preset,
    })
}
