//! The primitives of a module with what is known of their rows.
ghost use Rattle.std.specs.Prelude.{length};
ghost use Rattle.udp_tables.specs.Tables.{AreKept};
ghost use Rattle.udp_tables.specs.RowKeys.{row_key};
ghost use Rattle.row_masks.specs.Masks.{AreMasks};
ghost use Rattle.row_masks.specs.LookUps.{udp_passes};

use row_masks::RowMasks;
use udp_tables::{RowKey, Udp};

/// A primitive with what is known of its rows.
#[derive(Clone, Copy)]
pub struct Table<'a> {
    /// The primitive.
    pub udp: &'a Udp,
    /// The keys of its rows.
    pub keys: &'a [RowKey],
    /// The masks of its rows, where there are few enough.
    pub masks: &'a [RowMasks],
    ghost keyed: { AreKept row_key keys.now udp.now.rows },
    ghost masked: { AreMasks udp_passes (length udp.now.inputs) udp.now.rows masks.now },
}
