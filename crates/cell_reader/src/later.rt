//! The refusals that are tried after the texts are read.
ghost use Rattle.std.specs.Prelude.{◌≡◌, IfOk, flat_map};
ghost use Rattle.cell_machine.specs.Delay.{lesser as lesser_of, least};
ghost use Rattle.cell_attributes.specs.CellLaws.{readings_of, texts_of};
ghost use Rattle.cell_attributes.specs.Declarations.{bad_names as bad_names_of};
ghost use Rattle.cell_reader.specs.Refusals.{middle_reasons, first_refusal};
ghost use Rattle.cell_reader.specs.Told.{limits_told, told_reasons, wrong_in, wrong_at};
ghost use Rattle.cell_reader.specs.Parts.{subject_in, AreParts};

use crate::limits::{WrongSupport, bad_cell_name, first_group_past, first_past, state_offsets};
use crate::parts::Parts;
use crate::scans::NoFunctions;
use crate::text_faults::WrongText;
use cell_attributes::declarations::first_bad_name;
use cell_attributes::limits::{MOST_ARCS, MOST_CHECKS, MOST_PINS, MOST_STATES};
use cell_machine::least::lesser;
use cell_refusals::{Reason, Refusal, least_among, least_among_held, refused_or};
use std::alloc::{AllocError, Global};

/// Where the texts of a cell are wrong in this way, or the timing of its pins, whose least offset this is.
fn wrong_texts(parts: &Parts<'_>, wrong: WrongText, timing: Option<usize>) -> Option<usize>
    requires { AreParts parts.now }
    ensures { result ≡ lesser_of (least (flat_map (wrong_in wrong) (readings_of parts.now.cell.now)))
        (lesser_of (least (flat_map (wrong_at wrong) (texts_of parts.now.cell.now))) timing) }
{
    let states = least_among(&wrong, parts.said.readings.as_slice());
    let pins = least_among(&wrong, parts.said.texts.as_slice());
    lesser(states, lesser(pins, timing))
}

/// Where a name of the cell is none.
#[tactic(auto, using(cell_machine::proofs::LeastLemmas::least_append))]
fn bad_names(parts: &Parts<'_>) -> Option<usize>
    requires { AreParts parts.now }
    ensures { result ≡ least (bad_names_of parts.now.cell.now) }
{
    lesser(
        bad_cell_name(parts.cell),
        first_bad_name(&parts.groups.declared),
    )
}

/// Where a limit of the cell is passed.
#[tactic(auto, using(cell_machine::proofs::LeastLemmas::least_append))]
fn limits(alloc: Global, parts: &Parts<'_>) -> Result<Option<usize>, AllocError>
    requires { AreParts parts.now }
    ensures { IfOk result (λ at. at ≡ least (limits_told (subject_in parts.now) parts.now.cell.now)) }
{
    let names = bad_names(parts);
    let pins = first_group_past(MOST_PINS, &parts.named.owners);
    let states = state_offsets(alloc, &parts.groups.states)?;
    let made_at = &parts.said.timing.made_at;
    let supports = least_among(&WrongSupport::Empty, parts.said.readings.as_slice());
    let timing = lesser(
        first_past(MOST_CHECKS, made_at.checks.as_slice()),
        lesser(first_past(MOST_ARCS, made_at.arcs.as_slice()), supports),
    );
    let counts = lesser(pins, lesser(first_past(MOST_STATES, &states), timing));
    Ok(lesser(names, counts))
}

/// The first of the reasons that are tried after the texts are read, but for the last of all, where of each pin's timing the
/// kind that is wrong first is known.
#[tactic(auto, using(cell_machine::proofs::LeastLemmas::least_append))]
fn told_refusal(alloc: Global, parts: &Parts<'_>) -> Result<Option<Refusal>, AllocError>
    requires { AreParts parts.now }
    ensures { IfOk result (λ refusal. refusal ≡ first_refusal (told_reasons (subject_in parts.now) parts.now.cell.now)) }
{
    let over = limits(alloc, parts)?;
    let later = refused_or(Reason::Limit, over, None);
    let least = &parts.said.timing.least;
    let later = refused_or(Reason::Number, least.number, later);
    let later = refused_or(Reason::OwnCondition, least.names.own, later);
    let no_function = least_among_held(&NoFunctions, &parts.groups.pins);
    let later = refused_or(Reason::NoFunction, no_function, later);
    let coupled = least_among(&WrongText::Coupled, parts.said.readings.as_slice());
    let later = refused_or(Reason::Coupled, coupled, later);
    let unknown = wrong_texts(parts, WrongText::Unknown, least.names.unknown);
    let later = refused_or(Reason::UnknownName, unknown, later);
    let malformed = wrong_texts(parts, WrongText::Malformed, least.malformed);
    Ok(refused_or(Reason::Malformed, malformed, later))
}

/// The first of the reasons that are tried after the texts are read, but for the last of all.
pub(crate) fn middle_refusal(
    alloc: Global,
    parts: &Parts<'_>,
) -> Result<Option<Refusal>, AllocError>
    requires { AreParts parts.now }
    ensures { IfOk result (λ refusal. refusal ≡ first_refusal (middle_reasons (subject_in parts.now) parts.now.cell.now)) }
{
    told_refusal(alloc, parts)
}
