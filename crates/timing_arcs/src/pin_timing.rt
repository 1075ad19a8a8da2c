//! Reading the timing of a pin.
ghost use Rattle.std.specs.Prelude.{◌≡◌, IfOk, OnOk};
ghost use Rattle.timing_arcs.specs.Adding.{with_group, with_items};
ghost use Rattle.timing_arcs.specs.Timing.{reading_answer, held_answer};

use crate::fault::TimingFault;
use crate::found::Found;
use crate::group_text::GroupText;
use crate::pin_limits::PinLimits;
use crate::subject::{PinTiming, Room, Subject};
use liberty_groups::{Group, Item, inner_group};
use std::alloc::{AllocError, Global};

/// Adds what a timing group at this place among the pin's items gives.
#[tactic(auto, using(crate::proofs::TextLemmas::with_its_text))]
fn add_group(
    alloc: Global,
    subject: &Subject,
    place: usize,
    group: &Group,
    found: &mut Found,
) -> Result<(), AllocError>
    ensures { OnOk result (found.new ≡ with_group subject.now place found.old group.now) }
{
    let text = GroupText::of_group(alloc, subject, place, group)?;
    text.add(alloc, subject, found)
}

/// Adds what the timing groups among these items give.
fn add_groups(
    alloc: Global,
    subject: &Subject,
    items: &[Item],
    found: &mut Found,
) -> Result<(), AllocError>
    ensures { OnOk result (found.new ≡ with_items subject.now 0 found.old items.now) }
{
    for (place, item) in items.iter().enumerate() {
        if let Some(group) = inner_group(item, b"timing") {
            add_group(alloc, subject, place, group, found)?;
        }
    }
    Ok(())
}

/// Reads the timing of a pin from its group: its checks, its arcs and its left-out timing groups, as the Liberty
/// Reference Manual says of the `timing` group and of `min_pulse_width_high`, `min_pulse_width_low` and `min_period`.
/// Times are in picoseconds, rounded up; of all tables of one name in a group the greatest entry is taken. The subject's
/// names are those of its pins in their order. Of the checks and arcs no more are held than there is room for, the first
/// ones, but all of them are judged.
///
/// A fault is answered exactly where something is wrong in a text that is read. The first kind in the order of
/// `TimingFault` decides, and of it the least offset.
pub fn read_timing(
    alloc: Global,
    pin: &Group,
    subject: &Subject,
    room: Room,
) -> Result<Result<PinTiming, TimingFault>, AllocError>
    ensures { IfOk result (λ answer. answer ≡ held_answer room (reading_answer subject.now pin.now)) }
{
    let mut found = Found::new(alloc, room);
    add_groups(alloc, subject, pin.items.as_slice(), &mut found)?;
    PinLimits::of_group(subject, pin).add(subject, &mut found)?;
    Ok(found.finish())
}
