//! What the timing of a pin group says, read once for all of its pins.
ghost use Rattle.std.specs.Prelude.{◌≡◌, IfOk, OnOk};
ghost use Rattle.timing_arcs.specs.GroupTexts.{texts_from, pin_texts, with_texts};
ghost use Rattle.timing_arcs.specs.TimingTexts.{AreTexts};
ghost use Rattle.timing_arcs.specs.Timing.{reading_answer, held_answer};

use crate::fault::TimingFault;
use crate::found::Found;
use crate::group_text::GroupText;
use crate::pin_limits::PinLimits;
use crate::subject::{PinTiming, Room, Subject};
use liberty_groups::{Group, Item, inner_group};
use sqlite_items::Items;
use std::alloc::{AllocError, Global};

/// What the timing of a pin group says, whichever of its pins it is read for.
#[derive(Drop)]
pub struct TimingTexts<'a> {
    groups: Items<GroupText>,
    pin: &'a Group,
    limits: PinLimits,
}

/// What the timing groups among these items say.
fn group_texts(
    alloc: Global,
    subject: &Subject,
    items: &[Item],
) -> Result<Items<GroupText>, AllocError>
    ensures { IfOk result (λ texts. texts ≡ texts_from subject.now 0 items.now) }
{
    let mut texts = Items::new(alloc);
    for (place, item) in items.iter().enumerate() {
        if let Some(group) = inner_group(item, b"timing") {
            texts.push(GroupText::of_group(alloc, subject, place, group)?)?;
        }
    }
    Ok(texts)
}

/// Adds what the groups with these texts give under the pin.
fn add_texts(
    alloc: Global,
    subject: &Subject,
    texts: &[GroupText],
    found: &mut Found,
) -> Result<(), AllocError>
    ensures { OnOk result (found.new ≡ with_texts subject.now found.old texts.now) }
{
    for text in texts {
        text.add(alloc, subject, found)?;
    }
    Ok(())
}

impl<'a> TimingTexts<'a> {
    /// What the timing of a pin group says, in the cell of the subject's pin.
    pub fn read(
        alloc: Global,
        pin: &'a Group,
        subject: &Subject,
    ) -> Result<TimingTexts<'a>, AllocError>
        ensures texts { IfOk result (AreTexts subject.now) }
        ensures pin { IfOk result (λ texts. texts.pin.now ≡ pin.now) }
    {
        let groups = group_texts(alloc, subject, pin.items.as_slice())?;
        Ok(TimingTexts {
            pin,
            groups,
            limits: PinLimits::of_group(subject, pin),
        })
    }

    /// The timing of the subject's pin, as `read_timing` answers it for the pin group whose texts these are.
    pub fn timing(
        &self,
        alloc: Global,
        subject: &Subject,
        room: Room,
    ) -> Result<Result<PinTiming, TimingFault>, AllocError>
        requires { AreTexts subject.now self.now }
        ensures { IfOk result (λ answer. answer ≡ held_answer room (reading_answer subject.now self.now.pin.now)) }
    {
        let mut found = Found::new(alloc, room);
        add_texts(alloc, subject, self.groups.as_slice(), &mut found)?;
        self.limits.add(subject, &mut found)?;
        Ok(found.finish())
    }
}
