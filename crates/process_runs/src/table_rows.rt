//! What is known of the rows of a table.
ghost use Rattle.std.specs.Prelude.{◌≡◌, map, IfOk};
ghost use Rattle.row_masks.specs.Masks.{table_masks};

use row_masks::{MaskedRow, RowMasks, masks_of};
use sqlite_items::Items;
use std::alloc::{AllocError, Global};
use udp_tables::RowWords;
use vital_models::{TableRow, words_of};

/// What is known of the rows of a table.
#[derive(Drop)]
pub struct TableRows {
    /// Their words.
    pub words: Items<RowWords>,
    /// Their masks, where there are few enough rows.
    pub masks: Items<RowMasks>,
}

impl TableRows {
    /// What is known of the rows of a table of so many columns. `AllocError` comes only where memory is wanted and not there.
    pub(crate) fn of<R: TableRow + MaskedRow>(
        alloc: Global,
        rows: &[R],
        columns: usize,
    ) -> Result<TableRows, AllocError>
        ensures words { IfOk result (λ known. known.words ≡ map R.words rows.now) }
        ensures masks { IfOk result (λ known. known.masks ≡ table_masks R.passes columns rows.now) }
    {
        let words = words_of(alloc, rows)?;
        let masks = masks_of(alloc, rows, columns)?;
        Ok(TableRows { words, masks })
    }
}
