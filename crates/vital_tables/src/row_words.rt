//! The words of the rows of VITAL's tables, by which most rows that do not match are known without a look at their symbols.
ghost use Rattle.std.specs.Prelude.{◌≡◌, IfOk, map, slice_get, Some};
ghost use Rattle.vital_tables.specs.RowWords.{level_of, level_now, truth_words, state_words};

use crate::table::{Trits, TruthRow, VStateRow, VSymbol};
use sqlite_items::Items;
use std::alloc::{AllocError, Global};
use udp_tables::{Column, Level, RowWords};

impl Column for Trits {
    ghost level = { level_of };

    fn level(self) -> Level {
        match self {
            Trits::Zero => Level::Zero,
            Trits::One => Level::One,
            Trits::Unknown => Level::Unknown,
            Trits::Any => Level::Any,
            Trits::Binary => Level::Binary,
        }
    }
}

impl Column for VSymbol {
    ghost level = { level_now };

    fn level(self) -> Level {
        match self {
            VSymbol::Level(level) => level.level(),
            VSymbol::Steady => Level::Any,
            VSymbol::Rise => Level::One,
            VSymbol::Fall => Level::Zero,
            VSymbol::To1 => Level::One,
            VSymbol::To0 => Level::Zero,
            VSymbol::From0 => Level::Any,
            VSymbol::From1 => Level::Any,
            VSymbol::Change => Level::Any,
        }
    }
}

/// A row of a table, which has words.
pub trait TableRow {
    ghost use Rattle.udp_tables.specs.declared.row_words.RowWords.{RowWords};

    /// The words of the row.
    ghost words: { Self → RowWords };

    /// The words of the row.
    fn words(&self) -> RowWords
        ensures { result ≡ words self.now };
}

impl TableRow for TruthRow {
    ghost words = { truth_words };

    fn words(&self) -> RowWords {
        RowWords::of(self.inputs.as_slice())
    }
}

impl TableRow for VStateRow {
    ghost words = { state_words };

    fn words(&self) -> RowWords {
        RowWords::of(self.inputs.as_slice())
    }
}

/// The words of a table's rows, with which `keyed_truth` and `keyed_state` look it up. `AllocError` comes only where memory is
/// wanted and not there.
pub fn words_of<R: TableRow>(alloc: Global, rows: &[R]) -> Result<Items<RowWords>, AllocError>
    ensures { IfOk result (λ words. words ≡ map R.words rows.now) }
{
    let mut words = Items::new(alloc);
    for row in rows {
        words.push(row.words())?;
    }
    Ok(words)
}

/// The words of the row with this number, made anew where none are kept.
pub(crate) fn kept_words<R: TableRow>(words: &[RowWords], i: usize, row: &R) -> RowWords
    requires { (w : RowWords) → slice_get words.now i ≡ Some w → w ≡ R.words row.now }
    ensures { result ≡ R.words row.now }
{
    match words.get(i) {
        Some(words) => *words,
        None => row.words(),
    }
}
