//! What is wrong in the timing that the pins of a core lost, and in the delays of its three-state outputs, one pin after another.
ghost use Rattle.std.specs.Prelude.{◌≡◌, IfOk};
ghost use Rattle.liberty_groups.specs.declared.tree.Item.{out-Item};
ghost use Rattle.three_state_cells.specs.Trimmed.{timing_told as timing_told_of};
ghost use Rattle.three_state_cells.specs.Sinks.{wrong_group as wrong_group_of, wrong_item as wrong_item_of};
ghost use Rattle.three_state_cells.specs.Sinks.{wrong_delays as wrong_delays_of};

use crate::driver_refusals::{first_of_two, wrong_outputs};
use crate::trimming::{loses, pins_in_item};
use bank_cells::ItemSink;
use cell_reader::{Reason, Refusal};
use core_groups::is_three_state;
use liberty_groups::{Group, Item};
use std::alloc::{AllocError, Global};
use timing_arcs::{PinTiming, Room, Subject, TimingFault, read_timing};

/// What an answer of reading the timing of a pin tells of what is wrong.
fn timing_told(answer: &Result<PinTiming, TimingFault>) -> Option<Refusal>
    ensures { result ≡ timing_told_of answer.now }
{
    let (reason, at) = match answer {
        Ok(_) => return None,
        Err(TimingFault::Malformed(at)) => (Reason::Malformed, *at),
        Err(TimingFault::UnknownName(at)) => (Reason::UnknownName, *at),
        Err(TimingFault::OwnCondition(at)) => (Reason::OwnCondition, *at),
        Err(TimingFault::Number(at)) => (Reason::Number, *at),
    };
    Some(Refusal { reason, at })
}

/// What decides of all that is wrong so far.
#[derive(Drop)]
pub(crate) struct WrongTimings {
    /// The pins of the core, of which the next one is looked at.
    pub(crate) subject: Subject,
    /// In the timing that they lost.
    pub(crate) found: Option<Refusal>,
    /// In the delays of three-state outputs.
    pub(crate) delays: Option<Refusal>,
}

/// An answer, where this value is let go. It is a function of any type, so that what the value owns is let go at one place.
fn let_go<T: Drop>(_value: T, answer: Result<(), AllocError>) -> Result<(), AllocError>
    ensures { result ≡ answer }
{
    answer
}

impl WrongTimings {
    ghost use Rattle.std.specs.Prelude.{◌≡◌, OnOk};
    ghost use Rattle.three_state_cells.specs.Sinks.{after_wrong};

    /// What is wrong in the timing that the pin of a group, the next one, lost in the core.
    fn wrong_group(&self, alloc: Global, group: &Group) -> Result<Option<Refusal>, AllocError>
        ensures { IfOk result (λ wrong. wrong ≡ wrong_group_of self.now.subject group.now) }
    {
        if is_three_state(group) || !loses(self.subject.place, group) {
            return Ok(None);
        }
        let room = Room {
            checks: 0,
            arcs: 0,
            left_out: false,
        };
        let answer = read_timing(alloc, group, &self.subject, room)?;
        Ok(timing_told(&answer))
    }

    /// The same of a statement of a cell.
    fn wrong_item(&self, alloc: Global, item: &Item) -> Result<Option<Refusal>, AllocError>
        ensures { IfOk result (λ wrong. wrong ≡ wrong_item_of self.now.subject (out-Item item.now)) }
    {
        match item {
            Item::Simple { .. } | Item::Complex { .. } => Ok(None),
            Item::Inner(group) => self.wrong_group(alloc, group),
        }
    }

    /// What is wrong in the delays of the outputs that a statement of a cell makes, if they are three-state outputs.
    fn wrong_delays(&self, alloc: Global, item: &Item) -> Result<Option<Refusal>, AllocError>
        ensures { IfOk result (λ wrong. wrong ≡ wrong_delays_of self.now.subject (out-Item item.now)) }
    {
        match item {
            Item::Simple { .. } | Item::Complex { .. } => Ok(None),
            Item::Inner(group) => wrong_outputs(alloc, &self.subject, group),
        }
    }

    /// Adds what is wrong in the next statement.
    fn add(&mut self, alloc: Global, item: &Item) -> Result<(), AllocError>
        ensures { OnOk result (self.new ≡ after_wrong self.old item.now) }
    {
        let wrong = self.wrong_item(alloc, item)?;
        let delays = self.wrong_delays(alloc, item)?;
        self.found = first_of_two(self.found, wrong);
        self.delays = first_of_two(self.delays, delays);
        self.subject.place = self.subject.place.saturating_add(pins_in_item(item));
        Ok(())
    }
}

impl ItemSink for WrongTimings {
    ghost use Rattle.three_state_cells.specs.Sinks.{after_wrong};

    ghost after = { after_wrong };

    fn take(&mut self, alloc: Global, item: Item) -> Result<(), AllocError> {
        let added = self.add(alloc, &item);
        let_go(item, added)
    }
}
