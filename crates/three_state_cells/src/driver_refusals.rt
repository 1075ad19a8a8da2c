//! What is wrong in the delays of three-state outputs.
ghost use Rattle.std.specs.Prelude.{◌≡◌, Some, IfOk, OnOk, map};
ghost use Rattle.cell_reader.specs.PinTimings.{subject_at};
ghost use Rattle.core_groups.specs.Outputs.{CanBeNumbered};
ghost use Rattle.three_state_cells.specs.Refusals.{decides as decides_of, first_of_two as first_of_two_of};
ghost use Rattle.three_state_cells.specs.Refusals.{wrong_told as wrong_told_of, wrong_delays as wrong_delays_of};
ghost use Rattle.three_state_cells.specs.Refusals.{wrong_group as wrong_group_of, driver_refusal as driver_refusal_of};

use crate::subjects::move_to;
use cell_reader::{Reason, Refusal};
use core_groups::{driver_pin, is_three_state};
use liberty_groups::Group;
use std::alloc::{AllocError, Global};
use timing_arcs::{PinTiming, Room, Subject, TimingFault, read_timing};

/// Whether the first of two refusals decides.
fn decides(one: Refusal, other: Refusal) -> bool
    ensures { result ≡ decides_of one other }
{
    let number = one.reason.number();
    let other_number = other.reason.number();
    number < other_number || (number == other_number && one.at <= other.at)
}

/// What decides of a refusal and of another one, if there is one.
pub fn first_with(one: Refusal, other: Option<Refusal>) -> Refusal
    ensures { Some result ≡ first_of_two_of (Some one) other }
{
    match other {
        Some(other) if !decides(one, other) => other,
        _ => one,
    }
}

/// What decides of two refusals, of which each may be absent.
pub fn first_of_two(one: Option<Refusal>, other: Option<Refusal>) -> Option<Refusal>
    ensures { result ≡ first_of_two_of one other }
{
    match one {
        None => other,
        Some(one) => Some(first_with(one, other)),
    }
}

/// What an answer tells of a related pin or a time that is none.
fn wrong_told(answer: &Result<PinTiming, TimingFault>) -> Option<Refusal>
    ensures { result ≡ wrong_told_of answer.now }
{
    match answer {
        Err(TimingFault::UnknownName(at)) => Some(Refusal {
            reason: Reason::UnknownName,
            at: *at,
        }),
        Err(TimingFault::Number(at)) => Some(Refusal {
            reason: Reason::Number,
            at: *at,
        }),
        _ => None,
    }
}

/// What is wrong in the delays of the outputs of a group, where the subject is the first of its pins.
fn wrong_delays(
    alloc: Global,
    subject: &Subject,
    group: &Group,
) -> Result<Option<Refusal>, AllocError>
    ensures { IfOk result (λ refusal. refusal ≡ wrong_delays_of subject.now group.now) }
{
    let driver = driver_pin(alloc, group)?;
    let room = Room {
        checks: 0,
        arcs: 0,
        left_out: false,
    };
    let answer = read_timing(alloc, &driver, subject, room)?;
    Ok(wrong_told(&answer))
}

/// What is wrong in the delays of the outputs of a group, if it makes three-state outputs.
pub(crate) fn wrong_outputs(
    alloc: Global,
    subject: &Subject,
    group: &Group,
) -> Result<Option<Refusal>, AllocError>
    ensures { IfOk result (λ refusal. refusal ≡ wrong_group_of subject.now group.now) }
{
    if !is_three_state(group) {
        return Ok(None);
    }
    wrong_delays(alloc, subject, group)
}

/// What decides of all that is wrong in the delays of the outputs of these pin groups of a cell, where these are the pins of its
/// core.
pub(crate) fn driver_refusal(
    alloc: Global,
    core: &mut Subject,
    groups: &[&Group],
) -> Result<Option<Refusal>, AllocError>
    requires { CanBeNumbered (map (λ group. group.now) groups.now) }
    ensures refusal { IfOk result (λ refusal. refusal ≡ driver_refusal_of core.old (map (λ group. group.now) groups.now)) }
    ensures core { OnOk result (core.new ≡ subject_at core.old 0) }
{
    let mut found = None;
    move_to(core, 0);
    for group in groups {
        found = first_of_two(found, wrong_outputs(alloc, core, group)?);
        let next = core.place + group.arguments.len();
        move_to(core, next);
    }
    move_to(core, 0);
    Ok(found)
}
