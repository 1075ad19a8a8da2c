//! What look-ups know of a primitive's rows before they read the entries.
ghost use Rattle.std.specs.Prelude.{◌≡◌, IfOk, map, slice_get, Some};
ghost use Rattle.udp_tables.specs.RowKeys.{row_key};
ghost use Rattle.udp_tables.specs.declared.row_keys.RowKey.{RowKey};

use crate::row_words::{Column, RowWords};
use crate::table::{Entry, Level, Udp, UdpRow};
use sqlite_items::Items;
use std::alloc::{AllocError, Global};

/// The key of a row: what is known of it without a look at its entries.
#[derive(Clone, Copy)]
pub struct RowKey {
    /// Its words.
    pub words: RowWords,
    /// Whether it has no change entry.
    pub of_levels: bool,
}

impl Column for Entry {
    ghost use Rattle.udp_tables.specs.RowKeys.{level_after};

    ghost level = { level_after };

    fn level(self) -> Level {
        match self {
            Entry::Level(level) => level,
            Entry::Pair(_, after) => after,
            Entry::R => Level::One,
            Entry::F => Level::Zero,
            Entry::P => Level::Any,
            Entry::N => Level::Any,
            Entry::Star => Level::Any,
        }
    }
}

impl RowKey {
    /// The key of a row.
    fn of(row: &UdpRow) -> RowKey
        ensures { result ≡ row_key row.now }
    {
        RowKey {
            words: RowWords::of(row.inputs.as_slice()),
            of_levels: row.is_level(),
        }
    }

    /// The key of the row with this number, made anew where none is kept.
    pub(crate) fn kept(keys: &[RowKey], i: usize, row: &UdpRow) -> RowKey
        requires { (k : RowKey) → slice_get keys.now i ≡ Some k → k ≡ row_key row.now }
        ensures { result ≡ row_key row.now }
    {
        match keys.get(i) {
            Some(key) => *key,
            None => RowKey::of(row),
        }
    }
}

/// The keys of a primitive's rows, with which `keyed_level` and `keyed_next` look it up. `AllocError` comes only where memory is
/// wanted and not there.
pub fn keys_of(alloc: Global, udp: &Udp) -> Result<Items<RowKey>, AllocError>
    ensures { IfOk result (λ keys. keys ≡ map row_key udp.now.rows) }
{
    let mut keys = Items::new(alloc);
    for row in udp.rows.as_slice() {
        keys.push(RowKey::of(row))?;
    }
    Ok(keys)
}
