//! The names of entities.
ghost use Rattle.std.specs.Prelude.{◌≡◌, IfOk};
ghost use Rattle.vital_models.specs.Kept.{is_kept_entity_name, is_kept_driver_name, name_or_numbered, entity_name, driver_name};

use bool_functions::Names;
use cell_machine::Cell;
use sqlite_items::Items;
use std::alloc::{AllocError, Global};
use vhdl_tokens::{is_free, is_identifier, is_numbered, is_same_name, numbered_name};

/// The name of the entity of a cell, where `given` are the names of the entities before it in lower case: the cell's, where that
/// is a letter followed by letters, digits and single `_`, not one at the end, and, whatever the case of its letters, no word of
/// VHDL or of an entity's text, not begun with `vital`, not `cell` or `pin` followed by a number and none of those given; else
/// `cell` and the cell's number. `AllocError` comes only where memory is wanting.
pub fn entity_name(alloc: Global, cell: &Cell, given: &Names) -> Result<Items<u8>, AllocError>
    ensures { IfOk result (λ name. name ≡ entity_name cell.now.number given.now cell.now.name) }
{
    let name = cell.name.as_slice();
    let kept = is_kept_entity_name(alloc, given, name)?;
    name_or_numbered(alloc, kept, name, b"cell", cell.number)
}

/// The name of the entity of the three-state drivers of a cell with this number and name: as that of a cell's entity, but
/// `vitalz` and the number in place of `cell` and the number, also where the name is `driven`, whatever the case of its letters.
/// `AllocError` comes only where memory is wanting.
pub fn driver_name(
    alloc: Global,
    number: usize,
    name: &[u8],
    given: &Names,
) -> Result<Items<u8>, AllocError>
    ensures { IfOk result (λ driver. driver ≡ driver_name number given.now name.now) }
{
    let kept = is_kept_driver_name(alloc, given, name)?;
    name_or_numbered(alloc, kept, name, b"vitalz", number)
}

/// A name where it is kept, else a word and a number.
fn name_or_numbered(
    alloc: Global,
    kept: bool,
    name: &[u8],
    word: &[u8],
    number: usize,
) -> Result<Items<u8>, AllocError>
    ensures { IfOk result (λ made. made ≡ name_or_numbered kept name.now word.now number) }
{
    if kept {
        Ok(Items::from_slice(alloc, name)?)
    } else {
        Ok(numbered_name(alloc, word, number)?)
    }
}

/// Whether VHDL text keeps this name for the drivers of a cell.
fn is_kept_driver_name(alloc: Global, given: &Names, name: &[u8]) -> Result<bool, AllocError>
    ensures { IfOk result (λ kept. kept ≡ is_kept_driver_name given.now name.now) }
{
    Ok(is_kept_entity_name(alloc, given, name)? && !is_same_name(name, b"driven"))
}

/// Whether VHDL text keeps this name for a cell.
#[tactic(auto, unfolding(crate::specs::Kept::is_kept_entity_name))]
fn is_kept_entity_name(alloc: Global, given: &Names, name: &[u8]) -> Result<bool, AllocError>
    ensures { IfOk result (λ kept. kept ≡ is_kept_entity_name given.now name.now) }
{
    let lowered = name.to_ascii_lowercase(alloc)?;
    Ok(
        is_identifier(name)
            && is_free(name)
            && !is_numbered(b"cell", name)
            && given.number(&lowered).is_none(),
    )
}
