//! What the functions of outputs depend on.
ghost use Rattle.std.specs.Prelude.{◌≡◌, ◌≤◌, ◌<◌, [], OnOk, IfOk, length, map, flat_map};
ghost use Rattle.bool_functions.specs.Support.{insert_all, support_of};
ghost use Rattle.cell_attributes.specs.Building.{supports_of_both, second_support, stands_for, source_of as source_of_number};
ghost use Rattle.cell_attributes.specs.Building.{sources_of as sources_of_function};

use bool_functions::Function;
use bool_functions::ascending::insert;
use cell_machine::{GroupKind, Source, StateGroup};
use sqlite_items::Items;
use std::alloc::{AllocError, Global};

/// Puts some numbers at their places in an ascending list.
fn insert_all(found: &mut Vec<usize>, numbers: &[usize]) -> Result<(), AllocError>
    ensures { OnOk result (found.new.items ≡ insert_all found.old.items numbers.now) }
{
    for i in numbers {
        insert(found, *i)?;
    }
    Ok(())
}

/// Puts the names of a function into an ascending list.
fn add_names(alloc: Global, found: &mut Vec<usize>, function: &Function) -> Result<(), AllocError>
    ensures { OnOk result (found.new.items ≡ insert_all found.old.items (support_of function.now)) }
{
    let support = function.support(alloc)?;
    insert_all(found, &support)
}

/// Puts the names of two functions into an ascending list, where both are there.
#[tactic(auto, using(bool_functions::proofs::Trees::insert_all_append))]
fn insert_both(
    alloc: Global,
    found: &mut Vec<usize>,
    clear: &Option<Function>,
    preset: &Option<Function>,
) -> Result<(), AllocError>
    ensures { OnOk result (found.new.items ≡ insert_all found.old.items (supports_of_both clear.now preset.now)) }
{
    let Some(clear) = clear else {
        return Ok(());
    };
    let Some(preset) = preset else {
        return Ok(());
    };
    add_names(alloc, found, clear)?;
    add_names(alloc, found, preset)
}

/// Puts what a second variable stands for into an ascending list, where its state has this number.
fn insert_second(
    alloc: Global,
    found: &mut Vec<usize>,
    name: usize,
    kind: &GroupKind,
) -> Result<(), AllocError>
    requires { name < 128 }
    ensures { OnOk result (found.new.items ≡ insert_all found.old.items (second_support name kind.now)) }
{
    match kind {
        GroupKind::Ff(k) => {
            insert(found, name)?;
            insert_both(alloc, found, &k.clear, &k.preset)
        }
        GroupKind::Latch(k) => {
            insert(found, name)?;
            insert_both(alloc, found, &k.clear, &k.preset)
        }
        GroupKind::Table { .. } => insert(found, name + 1),
    }
}

/// Puts what a name stands for into an ascending list, in a cell with so many pins.
fn insert_behind(
    alloc: Global,
    found: &mut Vec<usize>,
    pins: usize,
    groups: &[StateGroup],
    i: usize,
) -> Result<(), AllocError>
    requires pins { pins ≤ 64 }
    requires groups { length groups.now ≤ 16 }
    ensures { OnOk result (found.new.items ≡ insert_all found.old.items (stands_for pins groups.now i)) }
{
    for place in 0..groups.len() {
        let name = pins + 2 * place;
        if i == name + 1 {
            return insert_second(alloc, found, name, &groups[place].kind);
        }
    }
    insert(found, i)
}

/// The source of a number.
fn source_of(pins: usize, i: usize) -> Source
    ensures { result ≡ source_of_number pins i }
{
    if i < pins {
        Source::Pin(i)
    } else {
        Source::State((i - pins) / 2)
    }
}

/// The sources of some numbers.
fn sources_at(alloc: Global, pins: usize, numbers: &[usize]) -> Result<Items<Source>, AllocError>
    ensures { IfOk result (λ sources. sources ≡ map (source_of_number pins) numbers.now) }
{
    let mut sources = Items::new(alloc);
    for i in numbers {
        sources.push(source_of(pins, *i))?;
    }
    Ok(sources)
}

/// What some names stand for, ascending.
#[tactic(auto, using(bool_functions::proofs::Trees::insert_all_append))]
fn behind(
    alloc: Global,
    pins: usize,
    groups: &[StateGroup],
    names: &[usize],
) -> Result<Vec<usize>, AllocError>
    requires pins { pins ≤ 64 }
    requires groups { length groups.now ≤ 16 }
    ensures { IfOk result (λ found. found.items ≡ insert_all [] (flat_map (stands_for pins groups.now) names.now)) }
{
    let mut found = Vec::new(alloc);
    for i in names {
        insert_behind(alloc, &mut found, pins, groups, *i)?;
    }
    Ok(found)
}

/// The support of a function: what its names stand for, pins and then states, ascending.
pub(crate) fn sources_of(
    alloc: Global,
    pins: usize,
    groups: &[StateGroup],
    function: &Function,
) -> Result<Items<Source>, AllocError>
    requires pins { pins ≤ 64 }
    requires groups { length groups.now ≤ 16 }
    ensures { IfOk result (λ sources. sources ≡ sources_of_function pins groups.now function.now) }
{
    let names = function.support(alloc)?;
    let numbers = behind(alloc, pins, groups, &names)?;
    sources_at(alloc, pins, &numbers)
}
