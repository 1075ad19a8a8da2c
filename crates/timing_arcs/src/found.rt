//! What is found of a pin's timing, statement by statement.
ghost use Rattle.std.specs.Prelude.{◌≡◌, ◌==◌, ◌&&◌, ◌||◌, not, nat_lt, length, Ok, OnOk, IfOk};
ghost use Rattle.timing_arcs.specs.Adding.{pushed, with_check, with_own, with_left_out, with_number, nothing_found, answer_found};
ghost use Rattle.timing_arcs.specs.GroupTexts.{is_full};

use crate::arc_list::ArcList;
use crate::fault::TimingFault;
use crate::offsets::{Offsets, lesser};
use crate::subject::{PinTiming, Room, StatementOffsets};
use crate::timing_type::TimingType;
use cell_machine::{Arc, Check};
use sqlite_items::Items;
use std::alloc::{AllocError, Global};

/// What is found so far.
#[derive(Drop)]
pub(crate) struct Found {
    /// How much is held.
    pub(crate) room: Room,
    /// The checks, in order.
    pub(crate) checks: Items<Check>,
    /// For each check the offset of the group or attribute that made it.
    pub(crate) check_at: StatementOffsets,
    /// The arcs, in order.
    pub(crate) arcs: ArcList,
    /// For each arc the offset of the group that first made it.
    pub(crate) arc_at: StatementOffsets,
    /// The places of the left-out groups.
    pub(crate) left_out: Items<usize>,
    /// What is noted.
    pub(crate) offsets: Offsets,
}

/// Adds one at the end of a list, where fewer than so many are there.
fn push_within<T: Drop>(items: &mut Items<T>, room: usize, item: T) -> Result<(), AllocError>
    ensures { OnOk result (items.new ≡ pushed room items.old item) }
{
    if items.len() < room {
        items.push(item)?;
    }
    Ok(())
}

impl Found {
    /// Nothing.
    pub(crate) fn new(alloc: Global, room: Room) -> Found
        ensures { result ≡ nothing_found room }
    {
        Found {
            room,
            checks: Items::new(alloc),
            check_at: Items::new(alloc),
            arcs: ArcList::new(alloc),
            arc_at: Items::new(alloc),
            left_out: Items::new(alloc),
            offsets: Offsets::none(),
        }
    }

    /// Whether one more check is held.
    pub(crate) fn has_check_room(&self) -> bool
        ensures { result ≡ (nat_lt (length self.now.checks) self.now.room.checks
            || nat_lt (length self.now.check_at) self.now.room.checks) }
    {
        self.checks.len() < self.room.checks || self.check_at.len() < self.room.checks
    }

    /// Whether one more arc is held.
    pub(crate) fn has_arc_room(&self) -> bool
        ensures { result ≡ (nat_lt (length self.now.arcs) self.now.room.arcs
            || nat_lt (length self.now.arc_at) self.now.room.arcs) }
    {
        self.arcs.len() < self.room.arcs || self.arc_at.len() < self.room.arcs
    }

    /// Adds a check that is made at this offset, if its limit is not 0 and there is room.
    pub(crate) fn add_check(&mut self, at: usize, check: Check) -> Result<(), AllocError>
        ensures { OnOk result (self.new ≡ with_check at self.old check) }
    {
        let room = if check.limit == 0 {
            0
        } else {
            self.room.checks
        };
        push_within(&mut self.checks, room, check)?;
        push_within(&mut self.check_at, room, at)
    }

    /// Adds an arc of its own that is made at this offset, if there is room.
    pub(crate) fn push_arc(&mut self, at: usize, arc: Arc) -> Result<(), AllocError>
        ensures { OnOk result (self.new ≡ with_own at self.old arc) }
    {
        self.arcs.push_within(self.room.arcs, arc)?;
        push_within(&mut self.arc_at, self.room.arcs, at)
    }

    /// Whether nothing that a group of this type makes is held any more.
    pub(crate) fn is_full(&self, timing_type: TimingType) -> bool
        ensures { result ≡ is_full self.now timing_type }
    {
        match timing_type {
            TimingType::Delay => self.arcs.len() == 0 && !self.has_arc_room(),
            TimingType::Setup(_)
            | TimingType::Hold(_)
            | TimingType::Recovery(_)
            | TimingType::Removal(_)
            | TimingType::Width
            | TimingType::Period
            | TimingType::Other => !self.has_check_room(),
        }
    }

    /// Lists a left-out group at this place, if they are listed.
    pub(crate) fn leave_out(&mut self, place: usize) -> Result<(), AllocError>
        ensures { OnOk result (self.new ≡ with_left_out self.old place) }
    {
        if self.room.left_out {
            self.left_out.push(place)?;
        }
        Ok(())
    }

    /// Notes a number at this offset that is no time.
    pub(crate) fn note_number(&mut self, at: usize)
        ensures { self.new ≡ with_number self.old at }
    {
        self.offsets.number = lesser(self.offsets.number, Some(at));
    }

    /// The answer: what is wrong, the first kind that there is, and else the timing.
    pub(crate) fn finish(self) -> Result<PinTiming, TimingFault>
        ensures { result ≡ answer_found self }
    {
        self.offsets.unless_wrong(PinTiming {
            checks: self.checks,
            arcs: self.arcs.into_items(),
            left_out: self.left_out,
            check_at: self.check_at,
            arc_at: self.arc_at,
            wide: self.offsets.wide,
        })
    }
}
