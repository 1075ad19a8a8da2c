//! The types of timing groups.
ghost use Rattle.std.specs.Prelude.{◌≡◌, ◌==◌, not, length, bytes_eq};
ghost use Rattle.std.specs.List.{list_any};
ghost use Rattle.cell_machine.specs.CellRules.{is_input, is_output, is_input_pin};
ghost use Rattle.liberty_groups.specs.Attributes.{groups_named};
ghost use Rattle.timing_arcs.specs.TimingTypes.{delay_words, type_named, type_of, stands_under, rise_table, fall_table};
ghost use Rattle.timing_arcs.specs.TimingTypes.{has_table};
ghost use Rattle.timing_arcs.specs.GroupTexts.{is_of_one_pin, stands_at};

use cell_machine::{Direction, Edge, Pin};
use liberty_groups::{Group, inner_group, last_attribute};

/// What a timing group describes, by its `timing_type`. (Liberty Reference Manual, `timing_type`.)
#[derive(Clone, Copy)]
pub(crate) enum TimingType {
    /// The delay to an output.
    Delay,
    /// Data has to be stable before this edge of the related pin.
    Setup(Edge),
    /// Data has to be stable after this edge of the related pin.
    Hold(Edge),
    /// A control has to be gone before this edge of the related pin.
    Recovery(Edge),
    /// A control has to stay after this edge of the related pin.
    Removal(Edge),
    /// A pulse has a least width.
    Width,
    /// Edges of one kind have a least distance.
    Period,
    /// Any other.
    Other,
}

impl TimingType {
    /// Whether a group of this type stands under pins of this direction.
    fn stands_under(self, direction: Direction) -> bool
        ensures { result ≡ stands_under self direction }
    {
        match self {
            TimingType::Delay => is_output(direction),
            TimingType::Setup(_)
            | TimingType::Hold(_)
            | TimingType::Recovery(_)
            | TimingType::Removal(_)
            | TimingType::Width
            | TimingType::Period => is_input(direction),
            TimingType::Other => false,
        }
    }

    /// Whether a group of this type relates its pin to that pin alone, whatever its `related_pin` says.
    pub(crate) fn is_of_one_pin(self) -> bool
        ensures { result ≡ is_of_one_pin self }
    {
        match self {
            TimingType::Width | TimingType::Period => true,
            TimingType::Delay
            | TimingType::Setup(_)
            | TimingType::Hold(_)
            | TimingType::Recovery(_)
            | TimingType::Removal(_)
            | TimingType::Other => false,
        }
    }

    /// The name of the table groups for a rise of the pin.
    pub(crate) fn rise_table(self) -> &'static [u8]
        ensures { result.now ≡ rise_table self }
    {
        match self {
            TimingType::Delay => b"cell_rise",
            _ => b"rise_constraint",
        }
    }

    /// The name of the table groups for a fall of the pin.
    pub(crate) fn fall_table(self) -> &'static [u8]
        ensures { result.now ≡ fall_table self }
    {
        match self {
            TimingType::Delay => b"cell_fall",
            _ => b"fall_constraint",
        }
    }
}

/// Whether it is `input`.
fn is_input(direction: Direction) -> bool
    ensures { result ≡ is_input direction }
{
    match direction {
        Direction::Input => true,
        Direction::Output | Direction::Internal => false,
    }
}

/// Whether it is `output`.
fn is_output(direction: Direction) -> bool
    ensures { result ≡ is_output direction }
{
    match direction {
        Direction::Output => true,
        Direction::Input | Direction::Internal => false,
    }
}

/// Whether this is the number of an input pin.
pub(crate) fn is_input_pin(pins: &[Pin], pin: usize) -> bool
    ensures { result ≡ is_input_pin pins.now pin }
{
    match pins.get(pin) {
        Some(pin) => is_input(pin.direction),
        None => false,
    }
}

/// Whether two texts are equal.
fn is(word: &[u8], text: &[u8]) -> bool
    ensures { result ≡ bytes_eq word.now text.now }
{
    word == text
}

/// The type that a text stands for, where it is a word for a delay.
fn delay_named(text: &[u8]) -> bool
    ensures { result ≡ list_any (λ word. bytes_eq word text.now) delay_words }
{
    is(b"combinational", text)
        || is(b"combinational_rise", text)
        || is(b"combinational_fall", text)
        || is(b"rising_edge", text)
        || is(b"falling_edge", text)
        || is(b"clear", text)
        || is(b"preset", text)
}

/// The type that a text stands for.
fn type_named(text: &[u8]) -> TimingType
    ensures { result ≡ type_named text.now }
{
    if delay_named(text) {
        TimingType::Delay
    } else if is(b"setup_rising", text) {
        TimingType::Setup(Edge::Rise)
    } else if is(b"setup_falling", text) {
        TimingType::Setup(Edge::Fall)
    } else if is(b"hold_rising", text) {
        TimingType::Hold(Edge::Rise)
    } else if is(b"hold_falling", text) {
        TimingType::Hold(Edge::Fall)
    } else if is(b"recovery_rising", text) {
        TimingType::Recovery(Edge::Rise)
    } else if is(b"recovery_falling", text) {
        TimingType::Recovery(Edge::Fall)
    } else if is(b"removal_rising", text) {
        TimingType::Removal(Edge::Rise)
    } else if is(b"removal_falling", text) {
        TimingType::Removal(Edge::Fall)
    } else if is(b"min_pulse_width", text) {
        TimingType::Width
    } else if is(b"minimum_period", text) {
        TimingType::Period
    } else {
        TimingType::Other
    }
}

/// The type of a timing group. One without `timing_type` is combinational.
pub(crate) fn timing_type(group: &Group) -> TimingType
    ensures { result ≡ type_of group.now }
{
    match last_attribute(group, b"timing_type") {
        Some(attribute) => type_named(attribute.text),
        None => TimingType::Delay,
    }
}

/// Whether a group of this name stands in the group.
fn has_group(group: &Group, name: &[u8]) -> bool
    ensures { result ≡ not (length (groups_named name.now group.now.items) == 0) }
{
    for item in group.items.as_slice() {
        if inner_group(item, name).is_some() {
            return true;
        }
    }
    false
}

/// Whether groups of this type stand under the pin with this number.
pub(crate) fn stands_at(timing_type: TimingType, pins: &[Pin], place: usize) -> bool
    ensures { result ≡ stands_at timing_type pins.now place }
{
    match pins.get(place) {
        Some(pin) => timing_type.stands_under(pin.direction),
        None => false,
    }
}

/// Whether a group of this type has a table that the type uses.
pub(crate) fn has_table(group: &Group, timing_type: TimingType) -> bool
    requires { timing_type ≡ type_of group.now }
    ensures { result ≡ has_table group.now }
{
    has_group(group, timing_type.rise_table()) || has_group(group, timing_type.fall_table())
}
