//! The names in a module that are not the cell's own, and the names that take the place of those that are not kept.
ghost use Rattle.std.specs.Prelude.{◌≡◌, ◌++◌, IfOk, OnOk};
ghost use Rattle.specify_blocks.specs.Names.{module_name, driver_name, numbered, notifier_name};

use cell_tables::numbered_name;
use sqlite_items::Items;
use std::alloc::{AllocError, Global};
use verilog_tokens::is_kept_cell_name;

/// The name of the module of a cell with this number and name: the cell's, or `cell` and its number where Verilog does not keep
/// that. `AllocError` comes only where memory is wanting.
pub fn module_name(alloc: Global, number: usize, name: &[u8]) -> Result<Items<u8>, AllocError>
    ensures { IfOk result (λ given. given ≡ module_name number name.now) }
{
    if is_kept_cell_name(name) {
        Ok(Items::from_slice(alloc, name)?)
    } else {
        Ok(numbered_name(alloc, b"cell", number)?)
    }
}

/// The name of the module of the three-state drivers of a cell with this number and name: the cell's, or `lib_`, its number and
/// `_z` where Verilog does not keep that. `AllocError` comes only where memory is wanting.
pub fn driver_name(alloc: Global, number: usize, name: &[u8]) -> Result<Items<u8>, AllocError>
    ensures { IfOk result (λ given. given ≡ driver_name number name.now) }
{
    if is_kept_cell_name(name) {
        return Ok(Items::from_slice(alloc, name)?);
    }
    let mut other = numbered_name(alloc, b"lib_", number)?;
    other.append(Items::from_slice(alloc, b"_z")?)?;
    Ok(other)
}

/// Adds a word and the numbers from 1 to `count`.
pub(crate) fn add_numbered(
    alloc: Global,
    names: &mut Items<Items<u8>>,
    word: &[u8],
    count: usize,
) -> Result<(), AllocError>
    ensures { OnOk result (names.new ≡ names.old ++ numbered word.now count) }
{
    for number in 0..count {
        names.push(numbered_name(alloc, word, number + 1)?)?;
    }
    Ok(())
}

/// The name of the register that each violation changes.
pub(crate) fn notifier_name(alloc: Global) -> Result<Items<u8>, AllocError>
    ensures { IfOk result (λ name. name ≡ notifier_name) }
{
    Ok(Items::from_slice(alloc, b"lib_n")?)
}
