//! The input pins that the texts of a state group name, ascending.
ghost use Rattle.std.specs.Prelude.{◌≡◌, nat_lt, OnOk, IfOk, filter};
ghost use Rattle.bool_functions.specs.Support.{insert_all};
ghost use Rattle.cell_attributes.specs.Texts.{text_support};
ghost use Rattle.cell_attributes.specs.StateReadings.{pins_among as pins_among_of, names_read};

use crate::texts::Text;
use bool_functions::ascending::insert;
use sqlite_items::Items;
use std::alloc::{AllocError, Global};

/// Puts those of some numbers that are below a bound at their places in an ascending list.
fn insert_below(found: &mut Vec<usize>, bound: usize, numbers: &[usize]) -> Result<(), AllocError>
    ensures { OnOk result (found.new.items ≡ insert_all found.old.items (filter (λ i. nat_lt i bound) numbers.now)) }
{
    for i in numbers {
        if *i < bound {
            insert(found, *i)?;
        }
    }
    Ok(())
}

/// Puts the pins that a text names at their places in an ascending list.
fn insert_text(
    alloc: Global,
    found: &mut Vec<usize>,
    pins: usize,
    text: &Text,
) -> Result<(), AllocError>
    ensures { OnOk result (found.new.items ≡ insert_all found.old.items (filter (λ i. nat_lt i pins) (text_support text.now))) }
{
    let Text::Reads { function, .. } = text else {
        return Ok(());
    };
    let support = function.support(alloc)?;
    insert_below(found, pins, &support)
}

/// The pins that four texts name, ascending.
#[tactic(auto, using(crate::proofs::Inserting::pins_step))]
pub(crate) fn support_of(
    alloc: Global,
    pins: usize,
    first: &Text,
    control: &Text,
    clear: &Text,
    preset: &Text,
) -> Result<Items<usize>, AllocError>
    ensures { IfOk result (λ support. support ≡ pins_among_of pins (names_read first.now control.now clear.now preset.now)) }
{
    let mut found = Vec::new(alloc);
    insert_text(alloc, &mut found, pins, first)?;
    insert_text(alloc, &mut found, pins, control)?;
    insert_text(alloc, &mut found, pins, clear)?;
    insert_text(alloc, &mut found, pins, preset)?;
    Ok(Items::from_vec(found))
}

/// Those of some numbers that are pins, ascending.
pub(crate) fn pins_among(
    alloc: Global,
    pins: usize,
    numbers: &[usize],
) -> Result<Items<usize>, AllocError>
    ensures { IfOk result (λ support. support ≡ pins_among_of pins numbers.now) }
{
    let mut found = Vec::new(alloc);
    insert_below(&mut found, pins, numbers)?;
    Ok(Items::from_vec(found))
}
