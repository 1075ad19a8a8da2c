//! What is known of the rows of a module's primitives: their keys and their masks.
ghost use Rattle.std.specs.Prelude.{◌≡◌, map, IfOk};
ghost use Rattle.module_runs.specs.Keys.{udp_keys};
ghost use Rattle.row_masks.specs.LookUps.{udp_masks};

use row_masks::{RowMasks, masks_of};
use sqlite_items::Items;
use std::alloc::{AllocError, Global};
use udp_tables::{RowKey, Udp, keys_of};

/// The keys of each primitive's rows.
fn keys_of_all(alloc: Global, udps: &[Udp]) -> Result<Items<Items<RowKey>>, AllocError>
    ensures { IfOk result (λ keys. keys ≡ map udp_keys udps.now) }
{
    let mut all = Items::new(alloc);
    for udp in udps {
        all.push(keys_of(alloc, udp)?)?;
    }
    Ok(all)
}

/// The masks of each primitive's rows.
fn masks_of_all(alloc: Global, udps: &[Udp]) -> Result<Items<Items<RowMasks>>, AllocError>
    ensures { IfOk result (λ masks. masks ≡ map udp_masks udps.now) }
{
    let mut all = Items::new(alloc);
    for udp in udps {
        all.push(masks_of(alloc, udp.rows.as_slice(), udp.inputs.len())?)?;
    }
    Ok(all)
}

/// What is known of the rows of a module's primitives.
#[derive(Drop)]
pub struct ModuleRows {
    /// The keys of each primitive's rows.
    pub keys: Items<Items<RowKey>>,
    /// The masks of each primitive's rows, where there are few enough.
    pub masks: Items<Items<RowMasks>>,
}

impl ModuleRows {
    /// What is known of the rows of these primitives. `AllocError` comes only where memory is wanted and not there.
    pub(crate) fn of(alloc: Global, udps: &[Udp]) -> Result<ModuleRows, AllocError>
        ensures keys { IfOk result (λ rows. rows.keys ≡ map udp_keys udps.now) }
        ensures masks { IfOk result (λ rows. rows.masks ≡ map udp_masks udps.now) }
    {
        let keys = keys_of_all(alloc, udps)?;
        let masks = masks_of_all(alloc, udps)?;
        Ok(ModuleRows { keys, masks })
    }
}
