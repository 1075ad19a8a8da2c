//! The refusals that are tried before any text is read.
ghost use Rattle.std.specs.Prelude.{◌≡◌, IfOk, map};
ghost use Rattle.cell_machine.specs.Delay.{least};
ghost use Rattle.cell_attributes.specs.Groups.{pin_groups, state_groups};
ghost use Rattle.cell_attributes.specs.Scans.{left_out_states as left_out_states_of};
ghost use Rattle.cell_attributes.specs.Declarations.{declared_of, duplicates as duplicates_of};
ghost use Rattle.cell_attributes.specs.Shown.{shown_name};
ghost use Rattle.cell_reader.specs.Refusals.{first_refusal, early_reasons};
ghost use Rattle.cell_reader.specs.Parts.{AreGroups};

use crate::cell_groups::CellGroups;
use crate::limits::known_cell;
use crate::scans::{BadDirections, BankGroups, ClearPresets, LeftOutStates, ThreeStates};
use bool_functions::Names;
use cell_attributes::declarations::{Declared, first_clash};
use cell_machine::least::lesser;
use cell_refusals::{Reason, Refusal, least_among_held, refused_or};
use liberty_groups::Group;
use std::alloc::{AllocError, Global};

/// Where a name is declared twice, or an earlier cell has the name of this one.
#[tactic(auto, using(cell_machine::proofs::LeastLemmas::least_append))]
fn duplicates(
    alloc: Global,
    earlier: &Names,
    cell: &Group,
    declared: &[Declared<'_>],
) -> Result<Option<usize>, AllocError>
    requires { map shown_name declared.now ≡ declared_of cell.now }
    ensures { IfOk result (λ at. at ≡ least (duplicates_of earlier.now cell.now)) }
{
    let clash = first_clash(alloc, declared)?;
    Ok(lesser(known_cell(earlier, cell), clash))
}

/// Where a pin or a state has an attribute whose states are left out.
#[tactic(auto, using(cell_machine::proofs::LeastLemmas::least_append))]
fn left_out(cell: &Group, pins: &[&Group], states: &[&Group]) -> Option<usize>
    requires pins { map (λ group. group.now) pins.now ≡ pin_groups cell.now }
    requires states { map (λ group. group.now) states.now ≡ state_groups cell.now }
    ensures { result ≡ least (left_out_states_of cell.now) }
{
    let _at = cell.at;
    let of_pins = least_among_held(&LeftOutStates, pins);
    lesser(of_pins, least_among_held(&LeftOutStates, states))
}

/// The first of the reasons that are tried before any text is read, of a cell with these groups.
pub(crate) fn early_refusal(
    alloc: Global,
    earlier: &Names,
    cell: &Group,
    groups: &CellGroups<'_>,
) -> Result<Option<Refusal>, AllocError>
    requires { AreGroups cell.now groups.now }
    ensures { IfOk result (λ refusal. refusal ≡ first_refusal (early_reasons earlier.now cell.now)) }
{
    let duplicate = duplicates(alloc, earlier, cell, &groups.declared)?;
    let later = refused_or(Reason::Duplicate, duplicate, None);
    let clear_preset = least_among_held(&ClearPresets, &groups.states);
    let later = refused_or(Reason::ClearPreset, clear_preset, later);
    let left_out_states = left_out(cell, &groups.pins, &groups.states);
    let later = refused_or(Reason::LeftOutState, left_out_states, later);
    let bank = least_among_held(&BankGroups, &groups.inner);
    let later = refused_or(Reason::Bank, bank, later);
    let three_state = least_among_held(&ThreeStates, &groups.pins);
    let later = refused_or(Reason::ThreeState, three_state, later);
    let direction = least_among_held(&BadDirections, &groups.pins);
    Ok(refused_or(Reason::Direction, direction, later))
}
