//! The timing groups that a cell leaves out.
ghost use Rattle.std.specs.Prelude.{◌≡◌, ◌++◌, OnOk, IfOk, map};
ghost use Rattle.std.specs.Option.{option_copied};
ghost use Rattle.cell_timings.specs.PinTimings.{type_text as type_text_of, type_at as type_at_of, left_out_as};

use cell_machine::Shared;
use liberty_groups::{Group, Item, inner_group, last_attribute};
use sqlite_items::Items;
use std::alloc::{AllocError, Global};

/// A timing group that makes no check and no arc of its type.
#[derive(Drop)]
pub struct LeftOut {
    /// The number of the pin that has it.
    pub pin: usize,
    /// The text of its `timing_type`, `combinational` where it has none. The pins of a group hold it together.
    pub kind: Shared<Items<u8>>,
}

impl LeftOut {
    /// The text of its type.
    pub fn text(&self) -> &[u8]
        ensures { result.now ≡ self.now.kind }
    {
        self.kind.get().as_slice()
    }
}

/// The type of a timing group as it is written, `combinational` where there is none.
pub fn type_text(group: Option<&Group>) -> &[u8]
    ensures { result.now ≡ type_text_of (option_copied group.entry) }
{
    let Some(group) = group else {
        return b"combinational";
    };
    match last_attribute(group, b"timing_type") {
        None => b"combinational",
        Some(attribute) => attribute.text,
    }
}

/// The type of the timing group at this place among the statements of a pin.
fn type_at(items: &[Item], place: usize) -> &[u8]
    ensures { result.now ≡ type_at_of items.now place }
{
    match items.get(place) {
        None => &[],
        Some(item) => type_text(inner_group(item, b"timing")),
    }
}

/// The one that stands so many places before the end of those found so far.
fn found_before(found: &[LeftOut], back: usize) -> Option<&LeftOut> {
    match found.len().checked_sub(back) {
        None => None,
        Some(place) => found.get(place),
    }
}

/// The text of a type. Where the one that stands so many places before the end of those found so far has the same text, it is
/// held together with that one: the pins of a group leave out as many timing groups each, with the same texts.
pub fn shared_kind(
    alloc: Global,
    found: &[LeftOut],
    back: usize,
    text: &[u8],
) -> Result<Shared<Items<u8>>, AllocError>
    ensures { IfOk result (λ kind. kind ≡ text.now) }
{
    if let Some(earlier) = found_before(found, back) {
        if earlier.text() == text {
            return earlier.kind.again();
        }
    }
    let kind = Items::from_slice(alloc, text)?;
    Shared::new(alloc, kind)
}

/// Adds the timing groups at these places among the statements of a pin.
pub(crate) fn add_left_out(
    alloc: Global,
    found: &mut Items<LeftOut>,
    pin: usize,
    owner: &Group,
    places: &[usize],
) -> Result<(), AllocError>
    ensures { OnOk result (found.new ≡ found.old ++ map (left_out_as pin owner.now) places.now) }
{
    for place in places {
        let text = type_at(owner.items.as_slice(), *place);
        let kind = shared_kind(alloc, found.as_slice(), places.len(), text)?;
        found.push(LeftOut { pin, kind })?;
    }
    Ok(())
}
