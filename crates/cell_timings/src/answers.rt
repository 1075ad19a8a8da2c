//! What reading the timing of each pin answers, and the timing of the cell that it makes.
ghost use Rattle.std.specs.Prelude.{◌≡◌, ◌+◌, IfOk, OnOk, length, map, flat_map};
ghost use Rattle.std.specs.List.{fold};
ghost use Rattle.timing_arcs.specs.GroupTexts.{cell_of};
ghost use Rattle.timing_arcs.specs.Timing.{reading_answer, held_answer};
ghost use Rattle.cell_attributes.specs.Pins.{owners_in};
ghost use Rattle.cell_timings.specs.Held.{cell_room, left_room, AreSharedTexts};
ghost use Rattle.cell_timings.specs.CellTimings.{with_pin, timing_held};

use crate::timings::CellTiming;
use cell_attributes::limits::{MOST_ARCS, MOST_CHECKS, MOST_PINS};
use liberty_groups::Group;
use std::alloc::{AllocError, Global};
use timing_arcs::{PinTiming, Room, Subject, TimingFault, TimingTexts, read_timing};

/// What the timing of a pin group says, where it has several pins: then it is read once for all of them. That of a single
/// pin is read as it comes, and no more than one timing group of it is held.
fn shared_texts<'a>(
    alloc: Global,
    subject: &Subject,
    owner: &'a Group,
) -> Result<Option<TimingTexts<'a>>, AllocError>
    ensures { IfOk result (AreSharedTexts subject.now owner.now) }
{
    if owner.arguments.len() < 2 {
        return Ok(None);
    }
    match TimingTexts::read(alloc, owner, subject) {
        Ok(texts) => Ok(Some(texts)),
        Err(_) => Err(AllocError),
    }
}

/// What reading the timing of a pin answers, as far as there is room, from what its group says where that is read.
fn timing_answer(
    alloc: Global,
    subject: &Subject,
    owner: &Group,
    texts: &Option<TimingTexts<'_>>,
    room: Room,
) -> Result<Result<PinTiming, TimingFault>, AllocError>
    requires { AreSharedTexts subject.now owner.now texts.now }
    ensures { IfOk result (λ answer. answer ≡ held_answer room (reading_answer subject.now owner.now)) }
{
    match texts {
        Some(texts) => texts.timing(alloc, subject, room),
        None => read_timing(alloc, owner, subject, room),
    }
}

/// The room for the timing of a cell with so many pins: one more than the limits.
fn cell_room(pins: usize) -> Room
    ensures { result ≡ cell_room pins }
{
    Room {
        checks: MOST_CHECKS + 1,
        arcs: MOST_ARCS + 1,
        left_out: pins <= MOST_PINS,
    }
}

/// What an answer leaves of the room.
fn left_room(room: Room, answer: &Result<PinTiming, TimingFault>) -> Room
    ensures { result ≡ left_room room answer.now }
{
    match answer {
        Ok(timing) => Room {
            checks: room.checks.saturating_sub(timing.checks.len()),
            arcs: room.arcs.saturating_sub(timing.arcs.len()),
            left_out: room.left_out,
        },
        Err(_) => room,
    }
}

/// The number behind this one. More pins than there are addresses are want of memory.
fn next_number(pin: usize) -> Result<usize, AllocError>
    ensures { IfOk result (λ next. next ≡ pin + 1) }
{
    pin.checked_add(1).ok_or(AllocError)
}

/// The timing of the pins so far.
#[derive(Drop)]
struct TimingSoFar {
    timing: CellTiming,
    /// How many pins they are.
    pins: usize,
    /// The room that their timing leaves.
    room: Room,
}

impl TimingSoFar {
    /// Adds the timing of the next pin.
    fn add_pin(
        &mut self,
        alloc: Global,
        subject: &mut Subject,
        owner: &Group,
        texts: &Option<TimingTexts<'_>>,
    ) -> Result<(), AllocError>
        requires { AreSharedTexts subject.old owner.now texts.now }
        ensures timing { OnOk result (self.new ≡ with_pin (cell_of subject.old) self.old owner.now) }
        ensures cell { OnOk result (cell_of subject.new ≡ cell_of subject.old) }
    {
        subject.place = self.pins;
        let answer = timing_answer(alloc, subject, owner, texts, self.room)?;
        self.room = left_room(self.room, &answer);
        self.timing.add(alloc, self.pins, owner, answer)?;
        self.pins = next_number(self.pins)?;
        Ok(())
    }

    /// Adds the timing of the next pins, which this group makes.
    fn add_group(
        &mut self,
        alloc: Global,
        subject: &mut Subject,
        owner: &Group,
    ) -> Result<(), AllocError>
        ensures timing { OnOk result (self.new ≡ fold (with_pin (cell_of subject.old)) self.old (owners_in owner.now)) }
        ensures cell { OnOk result (cell_of subject.new ≡ cell_of subject.old) }
    {
        let texts = shared_texts(alloc, subject, owner)?;
        for _name in owner.arguments.as_slice() {
            self.add_pin(alloc, subject, owner, &texts)?;
        }
        Ok(())
    }
}

/// The timing of the pins of a cell, as far as there is room, where these are the groups that make them.
pub fn cell_timing(
    alloc: Global,
    subject: &mut Subject,
    groups: &[&Group],
) -> Result<CellTiming, AllocError>
    ensures cell { OnOk result (cell_of subject.new ≡ cell_of subject.old) }
    ensures timing { IfOk result (λ timing. timing ≡ timing_held (cell_room (length subject.old.pins)) (cell_of subject.old)
        (flat_map owners_in (map (λ group. group.now) groups.now))) }
{
    let mut held = TimingSoFar {
        timing: CellTiming::new(alloc),
        pins: 0,
        room: cell_room(subject.pins.len()),
    };
    for group in groups {
        held.add_group(alloc, subject, group)?;
    }
    Ok(held.timing)
}
